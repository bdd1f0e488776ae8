// What the structs of include/bumbazeel.h are made of: a yes or no, capabilities and what is at fault in a header, as bytes.
//
// It rests on choices, pages and header. It promises that each is the byte of specs/Layouts.antt, and that capabilities read back to what they were and a byte of
// five bits to itself (specs/Back.antt), and so does a fault, and a number up to 8, which is the fault's place in the order of the check
// (specs/Faults.antt).
#![tactic(auto)]

ghost use Rattle.std.specs.Prelude.{◌≡◌, ◌≤◌, leb};
ghost use Rattle.choices.specs.Choice.{pick};
ghost use Rattle.shared_layouts.specs.Layouts.{most_caps, caps_byte, caps_of, fault_number, fault_by};

use header::Fault;
use pages::Caps;

// The greatest byte of capabilities.
pub const MOST_CAPS: u8 = 31;

// A yes or no as a byte: `value` or 0. It is no `choices::pick`, whose clause does not say that five of them fit a byte.
pub fn bit(t: bool, value: u8) -> u8
    ensures { (result ≡ pick t value 0) × (result ≤ value) }
{
    if t { value } else { 0 }
}

// Capabilities as a byte, which the C interface has: a method would stand in `pages`, which knows no layout.
pub fn caps_byte(c: Caps) -> u8
    ensures { result ≡ caps_byte c }
{
    bit(c.extended, 1) + bit(c.telemetry, 2) + bit(c.da4s, 4) + bit(c.etdas, 8) + bit(c.mcdas, 16)
}

// A byte of five bits, which says capabilities.
fn is_known(b: u8) -> bool
    ensures { result ≡ leb b most_caps }
{
    b <= MOST_CAPS
}

// The capabilities that a byte says; none for a byte over 31. It is no `TryFrom`, since such a byte is no error: it has the meaning that `caps_of` gives it.
#[tactic(auto, unfolding(crate::specs::Layouts::caps_of))]
pub fn read_caps(b: u8) -> Caps
    ensures { result ≡ caps_of b }
{
    let known = is_known(b);
    Caps {
        extended: known & (b % 2 == 1),
        telemetry: known & (b / 2 % 2 == 1),
        da4s: known & (b / 4 % 2 == 1),
        etdas: known & (b / 8 % 2 == 1),
        mcdas: known & (b / 16 % 2 == 1),
    }
}

// The number of what is at fault in a header; 0 where nothing is. The C interface has it as a byte.
pub fn fault_number(x: Option<Fault>) -> u8
    ensures { result ≡ fault_number x }
{
    match x {
        None => 0,
        Some(Fault::Length) => 1,
        Some(Fault::Identifier) => 2,
        Some(Fault::Area2) => 3,
        Some(Fault::Area3) => 4,
        Some(Fault::Area4) => 5,
        Some(Fault::Scope) => 6,
        Some(Fault::Available) => 7,
        Some(Fault::Empty) => 8,
    }
}

// What is at fault, by its number; nothing by 0 and by any number over 8. The C interface has it as a byte, and such a number is no error, so it is no `TryFrom`.
#[tactic(auto, unfolding(crate::specs::Layouts::fault_by))]
pub fn fault_by(n: u8) -> Option<Fault>
    ensures { result ≡ fault_by n }
{
    match n {
        1 => Some(Fault::Length),
        2 => Some(Fault::Identifier),
        3 => Some(Fault::Area2),
        4 => Some(Fault::Area3),
        5 => Some(Fault::Area4),
        6 => Some(Fault::Scope),
        7 => Some(Fault::Available),
        8 => Some(Fault::Empty),
        _ => None,
    }
}
