// What a collection awaits: its phases, and the command that each of them asks for in an attempt.
//
// It rests on choices, answers, pages, words and plans. It promises of any phase of any plan the awaited command, the length of its data and whether it
// lies within the area (specs/Asked.antt), and that the awaited command of a plan that setup takes is never a builder's refusal (specs/Awaited.antt).
#![tactic(auto)]

ghost use Rattle.std.specs.Prelude.{◌≡◌, ◌+◌};
ghost use Rattle.phases.specs.declared.Phase.TheVariants.{Chunk};
ghost use Rattle.phases.specs.Phases.{ended_by};
ghost use Rattle.phases.specs.Asked.{chunk_blocks, mcda_of, asks_for, inside_by, words_by, due_by, phase_at};

use plans::Plan;
use words::{Ask, Words};

// What is awaited: the first header, the chunk that starts at a block of the page, the closing header, after a refused chunk or not, the
// acknowledgement; or nothing.
#[derive(Clone, Copy)]
pub enum Phase {
    First,
    Chunk(u32),
    Close(bool),
    Ack,
    Ended,
}

// An attempt: its number, from 1, and the generation and last blocks of its header.
#[derive(Clone, Copy)]
pub struct Attempt {
    pub number: u32,
    pub generation: u8,
    pub last: [u32; 4],
}

// What is awaited: the bytes that a success brings, and whether the area of the attempt's header can be collected and an awaited chunk starts in
// it.
#[derive(Clone, Copy)]
pub struct Due {
    pub bytes: usize,
    pub within: bool,
}

// What is asked for where the header alone is read.
const HEADER: Ask = Ask {
    create: false,
    mcda: 0,
    rae: true,
    offset: 0,
    blocks: 1,
};

// The blocks of the chunk at a block; none past B.
#[tactic(auto, using(crate::specs::Chunks::chunk_short, crate::specs::Chunks::chunk_full, crate::specs::Chunks::chunk_none))]
fn chunk_blocks(c: u32, at: u32, b: u32) -> u32
    ensures { result ≡ chunk_blocks c at b }
{
    if b < at {
        return 0;
    }
    let left = b - at;
    if left < c { left + 1 } else { c }
}

fn mcda(p: Plan) -> u8
    ensures { result ≡ mcda_of p }
{
    choices::pick(p.create & p.caps.mcdas, p.area, 0)
}

// The chunk at a block; without extended data with the header in front of it.
#[tactic(auto, using(crate::specs::Chunks::led_most))]
fn asking_chunk(p: Plan, last: [u32; 4], at: u32) -> Ask
    ensures { result ≡ asks_for (Chunk at) p last }
{
    let own = chunk_blocks(p.chunk_len(), at, p.area_last(last));
    if p.caps.extended {
        return Ask {
            offset: at,
            blocks: own,
            ..HEADER
        };
    }
    Ask {
        blocks: 1 + own,
        ..HEADER
    }
}

impl Phase {
    // What it asks the controller for: RAE 0 is the acknowledgement's alone, and create the first command's.
    fn asks(self, p: Plan, last: [u32; 4]) -> Ask
        ensures { result ≡ asks_for self p last }
    {
        match self {
            Phase::First => Ask {
                create: p.create,
                mcda: mcda(p),
                ..HEADER
            },
            Phase::Chunk(at) => asking_chunk(p, last, at),
            Phase::Close(_) => HEADER,
            Phase::Ack => Ask {
                rae: false,
                ..HEADER
            },
            Phase::Ended => Ask {
                blocks: 0,
                ..HEADER
            },
        }
    }

    // An awaited chunk starts within the area, and without extended data right after the header.
    fn is_inside(self, p: Plan, last: [u32; 4]) -> bool
        ensures { result ≡ inside_by self p last }
    {
        let b = p.area_last(last);
        match self {
            Phase::Chunk(at) => (1 <= at) & (at <= b) & (p.caps.extended | (at == 1)),
            Phase::First | Phase::Close(_) | Phase::Ack | Phase::Ended => true,
        }
    }

    // Nothing is awaited any more.
    pub fn is_ended(self) -> bool
        ensures { result ≡ ended_by self }
    {
        matches!(self, Phase::Ended)
    }

    // The command that is awaited, in an attempt whose header has these last blocks: five zero words after the ending.
    #[tactic(auto, unfolding(crate::specs::Asked::words_by))]
    pub fn awaited(self, p: Plan, last: [u32; 4]) -> Words
        ensures { result ≡ words_by self p last }
    {
        words::build(p.page, self.asks(p, last)).unwrap_or(words::no_words())
    }

    // What its completion is judged by before anything else.
    #[tactic(auto, using(answers::specs::Refused::ok_is), unfolding(crate::specs::Asked::due_by, crate::specs::Asked::within_by))]
    pub fn expected(self, p: Plan, last: [u32; 4]) -> Due
        ensures { result ≡ due_by self p last }
    {
        let asked = self.asks(p, last);
        let fits = p.area_answer(last).is_ok();
        Due {
            bytes: pages::in_bytes(asked.blocks),
            within: fits & self.is_inside(p, last),
        }
    }

    // The chunk that is c blocks after a block, or the closing header where the area ends before it.
    #[tactic(auto, using(crate::specs::Chunks::phase_chunk, crate::specs::Chunks::phase_close))]
    pub fn after(at: u32, c: u32, b: u32) -> Phase
        ensures { result ≡ phase_at (at + c) b }
    {
        if (at <= b) && (c <= b - at) {
            return Phase::Chunk(at + c);
        }
        Phase::Close(false)
    }
}
