// What a move makes of a collection: the phase and the header that follow it, and what happens to the copy.
//
// It rests on choices, answers, pages, plans, phases, completions, endings, judgement and touches. It promises the turn that any move in any attempt makes
// (specs/Turns.antt).
#![tactic(auto)]

ghost use Rattle.std.specs.Prelude.{false, ◌≡◌, ◌-◌, ◌*◌};
ghost use Rattle.pages.specs.Pages.{block};
ghost use Rattle.touches.specs.declared.Touch.TheVariants.{Keep};
ghost use Rattle.turns.specs.Turns.{opening_of, following_of, left_by, turned, turn_of};

use completions::Seen;
use endings::Ending;
use judgement::Move;
use phases::{Attempt, Phase};
use plans::Plan;
use touches::Touch;

// What follows a move: the phase, in this attempt or the next one, the generation and last blocks of that attempt's header, and what happens to the
// copy.
#[derive(Clone, Copy)]
pub struct Turn {
    pub phase: Phase,
    pub next: bool,
    pub generation: u8,
    pub last: [u32; 4],
    pub touch: Touch,
}

// Where the chunk at a block goes: its block less the header.
fn place_of(at: u32) -> usize
    ensures { result ≡ block * (at - 1) }
{
    pages::in_bytes(at.saturating_sub(1))
}

// The chunk at block 1, right after the header, or the closing header where the area has none.
fn opening(p: Plan, last: [u32; 4]) -> Phase
    ensures { result ≡ opening_of p last }
{
    Phase::after(0, 1, p.area_last(last))
}

// What follows the good chunk at a block: one a chunk's blocks on, or the closing header.
fn following(p: Plan, last: [u32; 4], at: u32) -> Phase
    ensures { result ≡ following_of p last at }
{
    Phase::after(at, p.chunk_len(), p.area_last(last))
}

// Success leaves what was collected and zeros after it, every other ending zeros.
fn left_by(ending: Ending, place: usize) -> Touch
    ensures { result ≡ left_by ending place }
{
    if matches!(ending, Ending::Success(_)) {
        Touch::Tail(place)
    } else {
        Touch::All
    }
}

// A phase in the same attempt, the copy as it is.
fn going_on(phase: Phase, a: Attempt) -> Turn
    ensures { result ≡ turned phase false a.generation a.last Keep }
{
    let last = a.last;
    Turn {
        phase,
        next: false,
        generation: a.generation,
        last,
        touch: Touch::Keep,
    }
}

// What a move makes of an attempt, `h` being what was seen of the data. It takes a state's parts, as `refusals::refusal` does.
#[tactic(auto, unfolding(crate::specs::Turns::turn_of))]
pub fn turn_of(p: Plan, a: Attempt, h: Seen, m: Move) -> Turn
    ensures { result ≡ turn_of p a h m }
{
    let shown = h.last;
    match m {
        Move::End(ending, next) => Turn {
            next,
            touch: left_by(ending, p.area_bytes(a.last)),
            ..going_on(Phase::Ended, a)
        },
        Move::Open(next) => Turn {
            phase: opening(p, shown),
            next,
            generation: h.generation,
            last: shown,
            touch: Touch::Keep,
        },
        Move::More(at) => Turn {
            touch: Touch::Place(pages::in_bytes(p.lead_len()), place_of(at)),
            ..going_on(following(p, a.last, at), a)
        },
        Move::Skip => going_on(Phase::Close(true), a),
        Move::Acknowledge => going_on(Phase::Ack, a),
    }
}
