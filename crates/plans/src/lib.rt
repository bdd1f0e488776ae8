// What a collection is asked for: the plan, setup's limits on it, the wanted area, and the blocks of a chunk.
//
// It rests on choices, answers, pages and words. It promises setup's answer to any plan and what speaks against collecting its wanted area
// (specs/Plans.antt), and what setup's limits say of a plan's numbers (specs/Limits.antt).
#![tactic(auto)]

ghost use Rattle.std.specs.Prelude.{◌≡◌};
ghost use Rattle.choices.specs.Tests.{holds};
ghost use Rattle.answers.specs.Answers.{result_number};
ghost use Rattle.plans.specs.Plans.{chunk_taken, plan_tests, setup_answer, area_last, area_bytes, fits_room, in_reach, area_answer, chunk_of, lead_of};

use answers::Refusal;
use pages::Caps;

// The most attempts of a collection.
pub const MOST_ATTEMPTS: u32 = 65535;
// The most bytes of a copy.
pub const MOST_ROOM: usize = 536870912;
// The last block that a command without extended data reaches.
pub const REACH: u32 = 31;

// What setup is asked for: `area` is the wanted area, `chunk` the blocks of a command, none without extended data, `room` the bytes of the copy.
// `page` and `area` are numbers and no enums, since `setup_answer` promises 13 for every other number.
#[derive(Clone, Copy)]
pub struct Plan {
    pub page: u8,
    pub create: bool,
    pub area: u8,
    pub chunk: u32,
    pub attempts: u32,
    pub room: usize,
    pub caps: Caps,
}

// c is one that setup takes: 1 to 8,192 with extended data, 0 without.
fn chunk_taken(extended: bool, c: u32) -> bool
    ensures { result ≡ chunk_taken extended c }
{
    if extended {
        (1 <= c) & (c <= words::MOST_BLOCKS)
    } else {
        c == 0
    }
}

impl Plan {
    // Each of its numbers is one that setup takes.
    #[tactic(auto, unfolding(choices::specs::Tests::holds))]
    fn is_valid(self) -> bool
        ensures { result ≡ holds (plan_tests self) }
    {
        ((self.page == pages::HOST) | (self.page == pages::CONTROLLER))
            & ((1 <= self.area) & (self.area <= 4))
            & chunk_taken(self.caps.extended, self.chunk)
            & ((1 <= self.attempts) & (self.attempts <= MOST_ATTEMPTS))
            & ((self.room <= MOST_ROOM) & (self.room % pages::BLOCK == 0))
            & self.caps.telemetry
            & !(self.create & (self.page == pages::CONTROLLER))
    }

    // Setup's answer: a bad plan is refused first, then area 4 where it can't be had.
    #[tactic(auto, unfolding(crate::specs::Plans::setup_answer))]
    pub fn setup_answer(self) -> Result<(), Refusal>
        ensures { result_number result ≡ setup_answer self }
    {
        if !self.is_valid() {
            return Err(Refusal::BadSetup);
        }
        if (self.area == 4) & !(self.caps.da4s & self.caps.etdas) {
            return Err(Refusal::NoArea4);
        }
        Ok(())
    }

    // B, the wanted area's last block. Last blocks stay a parameter here and below: they are those of a header that may not open an attempt, and document 01
    // has them by value.
    pub fn area_last(self, last: [u32; 4]) -> u32
        ensures { result ≡ area_last self last }
    {
        pages::last_of(self.area as u32, last)
    }

    // The bytes of the wanted area of a header with these last blocks.
    pub fn area_bytes(self, last: [u32; 4]) -> usize
        ensures { result ≡ area_bytes self last }
    {
        pages::in_bytes(self.area_last(last))
    }

    // The wanted area of a header with these last blocks fits the copy.
    #[tactic(auto, unfolding(crate::specs::Plans::fits_room))]
    fn fits_room(self, last: [u32; 4]) -> bool
        ensures { result ≡ fits_room self last }
    {
        self.area_bytes(last) <= self.room
    }

    // The wanted area of a header with these last blocks is in reach: always with extended data.
    #[tactic(auto, unfolding(crate::specs::Plans::in_reach))]
    fn in_reach(self, last: [u32; 4]) -> bool
        ensures { result ≡ in_reach self last }
    {
        self.caps.extended | (self.area_last(last) <= REACH)
    }

    // What speaks against collecting the wanted area of a header with these last blocks: first that it is out of reach, then that the copy has no room.
    #[tactic(auto, unfolding(crate::specs::Plans::area_answer))]
    pub fn area_answer(self, last: [u32; 4]) -> Result<(), Refusal>
        ensures { result_number result ≡ area_answer self last }
    {
        if !self.in_reach(last) {
            return Err(Refusal::OutOfReach);
        }
        if !self.fits_room(last) {
            return Err(Refusal::NoRoom);
        }
        Ok(())
    }

    // The blocks of a chunk: c, or without extended data all that are in reach.
    pub fn chunk_len(self) -> u32
        ensures { result ≡ chunk_of self }
    {
        choices::pick(self.caps.extended, self.chunk, REACH)
    }

    // The blocks that a chunk's command reads before it: without extended data the header.
    pub fn lead_len(self) -> u32
        ensures { result ≡ lead_of self }
    {
        choices::pick(self.caps.extended, 0, 1)
    }
}
