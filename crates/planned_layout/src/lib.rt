// What a plan gives, as the bytes of struct bumbazeel_planned.
//
// It rests on choices, copies, littleendian, arrays, pages, header, completions and shared_layouts. It promises that it is written to exactly the bytes of
// specs/Layout.antt, and that the field at fault, its byte and the number of chunks are read off them (specs/Back.antt).
#![tactic(auto)]

ghost use Rattle.std.specs.Prelude.{ℕ, ◌≡◌};
ghost use Rattle.planned_layout.specs.Layout.{planned_marks, planned_bytes};

use header::{Fault, Fields};
use littleendian::LittleEndian;

fn marks(page: u8, fault: Option<Fault>, f: Fields) -> [u8; 8]
    ensures { (answer chunks : ℕ) → result ≡ planned_marks page (record { answer = answer; fault = fault; fields = f; chunks = chunks }) }
{
    let byte = header::byte_of(page, fault);
    [
        f.page,
        f.scope,
        f.hostgeneration,
        f.tcda,
        f.controllergeneration,
        shared_layouts::fault_number(fault),
        (byte % 256) as u8,
        (byte / 256 % 256) as u8,
    ]
}

// What a plan for this page gives, or what is at fault and zeros, as bytes.
pub fn write_planned(page: u8, fault: Option<Fault>, fields: Fields, chunks: u32) -> [u8; 160]
    ensures { (answer : ℕ) → result ≡ planned_bytes page (record { answer = answer; fault = fault; fields = fields; chunks = chunks }) }
{
    let last = fields.last;
    let reason = fields.reason;
    let mut out = [0u8; 160];
    copies::put(&marks(page, fault, fields), &mut out, 0);
    fields.oui.put_le(&mut out, 8);
    arrays::put_all(&mut out, 12, &last);
    arrays::put_reason(&mut out, 28, reason);
    chunks.put_le(&mut out, 156);
    out
}
