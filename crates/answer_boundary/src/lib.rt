// What a number means, for C: the class of an identifier, the status of an answer and the byte of a field. These are the functions of
// include/bumbazeel.h that are lent nothing.
//
// It rests on answers, header and shared_layouts. It promises each function's answer, for all arguments, as an equation with the
// definitions that those crates' contracts cite, and has none of its own. The numbers of their arguments and answers are the C interface.
#![tactic(auto)]

ghost use Rattle.std.specs.Prelude.{◌≡◌};
ghost use Rattle.answers.specs.Answers.{status_of, status_number};
ghost use Rattle.answers.specs.Classes.{class_of};
ghost use Rattle.header.specs.Header.{byte_of};
ghost use Rattle.shared_layouts.specs.Layouts.{fault_by};

// The class of a page identifier.
pub fn bumbazeel_class(page: u8) -> u8
    ensures { result ≡ class_of page }
{
    answers::class(page).number()
}

// The NVMe status of an answer as one number.
pub fn bumbazeel_status(answer: u8) -> u16
    ensures { result ≡ status_number (status_of answer) }
{
    answers::status_number(answer)
}

// The byte at which a field, by its number, starts in a header of the page.
pub fn bumbazeel_field_byte(page: u8, field: u8) -> u16
    ensures { result ≡ byte_of page (fault_by field) }
{
    header::byte_of(page, shared_layouts::fault_by(field))
}
