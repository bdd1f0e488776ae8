// What a number means, for C: the class of an identifier, the status of an answer and the byte of a field. Each is lent nothing.

ghost use Rattle.std.specs.Prelude.{◌≡◌};
ghost use Rattle.answers.specs.Answers.{status_of, status_number};
ghost use Rattle.answers.specs.Classes.{class_of};
ghost use Rattle.header.specs.Header.{byte_of};
ghost use Rattle.shared_layouts.specs.Layouts.{fault_by};

// The class of a page identifier.
#[unsafe(no_mangle)]
pub extern "C" fn bumbazeel_class(page: u8) -> u8
    ensures { result ≡ class_of page }
{
    answer_boundary::bumbazeel_class(page)
}

// The NVMe status of an answer as one number.
#[unsafe(no_mangle)]
pub extern "C" fn bumbazeel_status(answer: u8) -> u16
    ensures { result ≡ status_number (status_of answer) }
{
    answer_boundary::bumbazeel_status(answer)
}

// The byte at which a field, by its number, starts in a header of the page.
#[unsafe(no_mangle)]
pub extern "C" fn bumbazeel_field_byte(page: u8, field: u8) -> u16
    ensures { result ≡ byte_of page (fault_by field) }
{
    answer_boundary::bumbazeel_field_byte(page, field)
}
