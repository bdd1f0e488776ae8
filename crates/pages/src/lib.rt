// The two telemetry pages: their numbers, what a controller can do, and by the last blocks of its areas a page's blocks and size.
//
// It rests on choices. It promises that each answer is that of specs/Pages.antt for any four last blocks.
#![tactic(auto)]

ghost use Rattle.std.specs.Prelude.{◌≡◌, ◌*◌};
ghost use Rattle.pages.specs.Pages.{block, last_of, blocks_of, size_of};

// A page is a number: a command's words ask for any of 256, and each has its answer (`verdicts::on_command`).

// Telemetry host-initiated.
pub const HOST: u8 = 0x07;
// Telemetry controller-initiated.
pub const CONTROLLER: u8 = 0x08;
// The bytes of a block, and of the header.
pub const BLOCK: usize = 512;
// The greatest last block of areas 1 to 3: it is two bytes wide.
pub const MOST_3: u32 = 65535;
// The greatest last block of area 4, a house limit.
pub const MOST_4: u32 = 1048576;

// What a controller can do: extended data (LPA bit 2), telemetry (LPA bit 3), area 4 (LPA bit 6, DA4S), the host's yes to area 4
// (ETDAS), and that MCDA is honoured (MCDAS).
#[derive(Clone, Copy)]
pub struct Caps {
    pub extended: bool,
    pub telemetry: bool,
    pub da4s: bool,
    pub etdas: bool,
    pub mcdas: bool,
}

// The last block of an area, which is a number, since `last_of` answers for every one: area 4's for any number but 1, 2 and 3.
pub fn last_of(area: u32, a: [u32; 4]) -> u32
    ensures { result ≡ last_of area a }
{
    match area {
        1 => a[0],
        2 => a[1],
        3 => a[2],
        _ => a[3],
    }
}

// The bytes of this many blocks.
pub fn in_bytes(blocks: u32) -> usize
    ensures { result ≡ block * blocks }
{
    BLOCK * (blocks as usize)
}

// The blocks that the page has after its header.
#[tactic(auto, unfolding(crate::specs::Pages::blocks_of))]
pub fn blocks(caps: Caps, a: [u32; 4]) -> u32
    ensures { result ≡ blocks_of caps a }
{
    choices::pick(caps.da4s & caps.etdas, a[3], a[2])
}

// The page's size in bytes, its header included.
#[tactic(auto, unfolding(crate::specs::Pages::size_of))]
pub fn size(caps: Caps, a: [u32; 4]) -> usize
    ensures { result ≡ size_of caps a }
{
    BLOCK * (1 + blocks(caps, a) as usize)
}
