// What happens to a collection's copy.
//
// It rests on copies. It promises every byte of a copy that something happens to (specs/Touched.antt).
#![tactic(auto)]

ghost use Rattle.std.specs.Prelude.{◌≡◌, drop};
ghost use Rattle.copies.specs.Parts.{put_at};
ghost use Rattle.touches.specs.Touched.{zeros_from, touched};

// What happens to the copy: nothing, the data from a byte of it on goes to a place, zeros from a place on, zeros everywhere.
#[derive(Clone, Copy)]
pub enum Touch {
    Keep,
    Place(usize, usize),
    Tail(usize),
    All,
}

// Zeros from a place on; where the copy ends before it, the copy stays as it is.
fn zeros_from(copy: &mut [u8], place: usize)
    ensures { copy.new ≡ zeros_from copy.old place }
{
    if let Some(left) = copy.len().checked_sub(place) {
        copies::put_zeros(left, copy, place);
    }
}

// The data from a byte of it on goes to a place; where the data ends before that byte, the copy stays as it is.
fn put_from(data: &[u8], from: usize, copy: &mut [u8], place: usize)
    ensures { copy.new ≡ put_at copy.old place (drop from «data».now) }
{
    if let Some(rest) = data.get(from..) {
        copies::put(rest, copy, place);
    }
}

// What happens to the copy happens; no byte changes but those that it names.
pub fn settle(touch: Touch, data: &[u8], copy: &mut [u8])
    ensures { copy.new ≡ touched touch «data».now copy.old }
{
    match touch {
        Touch::Keep => (),
        Touch::Place(from, place) => put_from(data, from, copy, place),
        Touch::Tail(place) => zeros_from(copy, place),
        Touch::All => zeros_from(copy, 0),
    }
}
