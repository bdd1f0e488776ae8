// The 512-byte header of the pages 07h and 08h: written from its fields, and what a check of it is. The check itself is the host's alone.
//
// It rests on choices, copies, littleendian, arrays, pages and lastblocks. It promises that the bytes written are those of specs/Header.antt. What a check finds is defined
// there too: that its fault is the first of the order (specs/Faults.antt), and that a header written from fields that are good is checked to exactly
// those fields (specs/Back.antt).
#![tactic(auto)]

ghost use Rattle.std.specs.Prelude.{ℕ, ◌≡◌, ◌∷◌, ◌++◌};
ghost use Rattle.copies.specs.Parts.{zeros};
ghost use Rattle.arrays.specs.Arrays.{fours_of};
ghost use Rattle.header.specs.Header.{numbers, marks, header_of, faultless, byte_of};

// What a header says: page, scope and TCDA are any numbers, since a header may have bad ones, which `field_fault` tells. `hostgeneration` is the host generation, which an 08h header does not have: 0 there. `controllergeneration` is the controller
// generation.
#[derive(Clone, Copy, Default)]
pub struct Fields {
    pub page: u8,
    pub oui: u32,
    pub last: [u32; 4],
    pub scope: u8,
    pub hostgeneration: u8,
    pub tcda: u8,
    pub controllergeneration: u8,
    pub reason: [u8; 128],
}

// What is at fault in a header: the first of these, in this order, of what a good header has otherwise.
#[derive(Clone, Copy, PartialEq, Eq)]
pub enum Fault {
    // It has not 512 bytes.
    Length,
    // Its identifier is not the page asked for, or that is neither 07h nor 08h.
    Identifier,
    // The last block of area 2 against the rule.
    Area2,
    // That of area 3.
    Area3,
    // That of area 4, for the DA4S given.
    Area4,
    // A scope above 2.
    Scope,
    // A TCDA above 1.
    Available,
    // An 08h header with data available, and none in area 3.
    Empty,
}

// Bytes 380 to 383.
fn marks_of(f: Fields) -> [u8; 4]
    ensures { result ≡ marks f }
{
    let host = f.page == pages::HOST;
    let first = choices::pick(host, f.scope, 0);
    let second = choices::pick(host, f.hostgeneration, f.scope);
    [first, second, f.tcda, f.controllergeneration]
}

// Bytes 4 to 19 as four numbers of four bytes each: a zero byte and the OUI; the last blocks of areas 1 and 2; that of area 3 and two zero
// bytes; that of area 4.
fn words_of(oui: u32, last: [u32; 4]) -> [u32; 4]
    ensures { (page : ℕ) → (page ∷ zeros 3) ++ fours_of result ≡ numbers page oui last }
{
    let area1 = last[0] % 65536;
    let area2 = last[1] % 65536;
    let area3 = last[2] % 65536;
    [
        256 * (oui % 16777216),
        area1 + 65536 * area2,
        area3,
        last[3],
    ]
}

// The header's 512 bytes.
pub fn write(f: Fields) -> [u8; 512]
    ensures { result ≡ header_of f }
{
    let last = f.last;
    let reason = f.reason;
    let words = words_of(f.oui, last);
    let mut out = [0u8; 512];
    out[0] = f.page;
    arrays::put_all(&mut out, 4, &words);
    copies::put(&marks_of(f), &mut out, 380);
    arrays::put_reason(&mut out, 384, reason);
    out
}

// Nothing is at fault. It stands beside `is_none`, since docs/PROMISES.md names it and two must-fail edits turn what it answers.
pub fn faultless(x: Option<Fault>) -> bool
    ensures { result ≡ faultless x }
{
    x.is_none()
}

// The byte at which the field at fault starts in a header of this page; 0 where nothing is at fault.
pub fn byte_of(page: u8, x: Option<Fault>) -> u16
    ensures { result ≡ byte_of page x }
{
    match x {
        None | Some(Fault::Length | Fault::Identifier) => 0,
        Some(Fault::Area2) => 10,
        Some(Fault::Area3 | Fault::Empty) => 12,
        Some(Fault::Area4) => 16,
        Some(Fault::Scope) => if page == pages::HOST { 380 } else { 381 },
        Some(Fault::Available) => 382,
    }
}
