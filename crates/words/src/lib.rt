// The five command words of Get Log Page: read as the controller reads them, and built as the host sends them.
//
// It rests on choices, answers and pages. It promises that any five words are read to what specs/Words.antt says, that the builder gives the words of
// its arguments or 13, and that what it builds is read back to the arguments (specs/Back.antt).
#![tactic(auto)]

ghost use Rattle.std.specs.Prelude.{◌≡◌, ◌+◌, ◌-◌, ◌*◌, ◌/◌, ◌%◌, ◌≤◌};
ghost use Rattle.choices.specs.Choice.{pick};
ghost use Rattle.words.specs.Words.{long_bytes, short_bytes, offset_of, read_of, taken, packed_of, no_words, built_told, built_of};
ghost use Rattle.words.specs.Back.{Bounds};

use answers::Refusal;

// The most blocks of a command.
pub const MOST_BLOCKS: u32 = 8192;

// CDW10 to CDW14.
#[derive(Clone, Copy)]
pub struct Words {
    pub cdw10: u32,
    pub cdw11: u32,
    pub cdw12: u32,
    pub cdw13: u32,
    pub cdw14: u32,
}

// What five words ask for: `bytes` is the transfer's length, and `offset` is in bytes too.
#[derive(Clone, Copy)]
pub struct Command {
    pub page: u8,
    pub create: bool,
    pub mcda: u8,
    pub rae: bool,
    pub bytes: usize,
    pub offset: usize,
    pub indexed: bool,
}

// What the words are built from after the page. `offset` and `blocks`, the length, are in blocks; the header is block 0.
#[derive(Clone, Copy)]
pub struct Ask {
    pub create: bool,
    pub mcda: u8,
    pub rae: bool,
    pub offset: u32,
    pub blocks: u32,
}

fn long_bytes(w: Words) -> usize
    ensures { result ≡ long_bytes w }
{
    4 * ((w.cdw10 / 65536 % 65536) as usize + 65536 * ((w.cdw11 % 65536) as usize) + 1)
}

fn short_bytes(w: Words) -> usize
    ensures { result ≡ short_bytes w }
{
    4 * ((w.cdw10 / 65536 % 4096) as usize + 1)
}

fn offset_of(w: Words) -> usize
    ensures { result ≡ offset_of w }
{
    (w.cdw12 as usize) + 4294967296 * (w.cdw13 as usize)
}

// What the words ask for, under extended data on or off. Reserved fields are not looked at.
pub fn read(extended: bool, w: Words) -> Command
    ensures { result ≡ read_of extended w }
{
    Command {
        page: (w.cdw10 % 256) as u8,
        create: (w.cdw10 % 256 == 0x07) & (w.cdw10 / 256 % 2 == 1),
        mcda: (w.cdw10 / 512 % 8) as u8,
        rae: w.cdw10 / 32768 % 2 == 1,
        bytes: choices::pick(extended, long_bytes(w), short_bytes(w)),
        offset: offset_of(w),
        indexed: w.cdw14 / 8388608 % 2 == 1,
    }
}

impl Ask {
    // The builder takes them with the page.
    #[tactic(auto, unfolding(crate::specs::Words::taken, choices::specs::Tests::holds))]
    fn is_taken(self, page: u8) -> bool
        ensures { result ≡ taken page self.create self.mcda self.offset self.blocks }
    {
        ((page == pages::HOST) | (page == pages::CONTROLLER))
            & !(self.create & (page == pages::CONTROLLER))
            & (self.mcda <= 4)
            & (self.create | (self.mcda == 0))
            & (1 <= self.blocks)
            & (self.blocks <= MOST_BLOCKS)
            & (self.offset <= pages::MOST_4)
    }

    // Their words where they are taken.
    fn packed(self, page: u8) -> Words
        requires { Bounds self.mcda self.offset self.blocks }
        ensures { result ≡ packed_of page self.create self.mcda self.rae self.offset self.blocks }
    {
        let count = 128 * self.blocks - 1;
        Words {
            cdw10: (page as u32)
                + choices::pick(self.create, 256, 0)
                + 512 * (self.mcda as u32)
                + choices::pick(self.rae, 32768, 0)
                + 65536 * (count % 65536),
            cdw11: count / 65536,
            cdw12: 512 * self.offset,
            cdw13: 0,
            cdw14: 0,
        }
    }
}

// Five zero words.
// It is no derived default, since the must-fail edits `no_words_with_a_page` and `no_words_with_an_offset` change its numbers.
pub fn no_words() -> Words
    ensures { result ≡ no_words }
{
    Words {
        cdw10: 0,
        cdw11: 0,
        cdw12: 0,
        cdw13: 0,
        cdw14: 0,
    }
}

// The five words of a command, or a refusal of what they are built from.
#[tactic(auto, using(crate::specs::Back::taken_bounds), unfolding(crate::specs::Words::built_of))]
pub fn build(page: u8, ask: Ask) -> Result<Words, Refusal>
    ensures { built_told result ≡ built_of page ask.create ask.mcda ask.rae ask.offset ask.blocks }
{
    if !ask.is_taken(page) {
        return Err(Refusal::BadSetup);
    }
    Ok(ask.packed(page))
}
