// A controller's record as the bytes of struct bumbazeel_record: written, read, and not damaged.
//
// It rests on choices, copies, littleendian, arrays, records and shared_layouts. It promises that a record is written to and read from exactly the
// bytes of specs/Layout.antt, whatever they are, and that what is written reads back to what it was, and intact bytes to themselves
// (specs/Back.antt).
#![tactic(auto)]

ghost use Rattle.std.specs.Prelude.{◌≡◌};
ghost use Rattle.record_layout.specs.Layout.{record_marks, record_bytes, host_at, controller_at, record_at, record_intact};

use littleendian::LittleEndian;
use records::{ControllerPage, HostPage, Identity, Record};

// Its first eight bytes.
fn record_marks(r: Record) -> [u8; 8]
    ensures { result ≡ record_marks r }
{
    let caps = r.caps;
    let identity = r.identity;
    let host = r.host;
    let controller = r.controller;
    let can = shared_layouts::caps_byte(caps);
    let notice = shared_layouts::bit(controller.notice, 1);
    [
        can,
        identity.hostscope,
        identity.controllerscope,
        host.generation,
        controller.generation,
        controller.tcda,
        notice,
        0,
    ]
}

// A record's bytes.
pub fn write_record(r: Record) -> [u8; 300]
    ensures { result ≡ record_bytes r }
{
    let identity = r.identity;
    let host = r.host;
    let controller = r.controller;
    let host_last = host.last;
    let host_reason = host.reason;
    let controller_last = controller.last;
    let controller_reason = controller.reason;
    let mut out = [0u8; 300];
    copies::put(&record_marks(r), &mut out, 0);
    identity.oui.put_le(&mut out, 8);
    arrays::put_all(&mut out, 12, &host_last);
    arrays::put_all(&mut out, 28, &controller_last);
    arrays::put_reason(&mut out, 44, host_reason);
    arrays::put_reason(&mut out, 172, controller_reason);
    out
}

fn host_at(b: &[u8; 300]) -> HostPage
    ensures { result ≡ host_at b.now }
{
    let last = arrays::all_at(b, 12);
    let reason = arrays::reason_at(b, 44);
    HostPage {
        last,
        generation: b[3],
        reason,
    }
}

fn controller_at(b: &[u8; 300]) -> ControllerPage
    ensures { result ≡ controller_at b.now }
{
    let last = arrays::all_at(b, 28);
    let reason = arrays::reason_at(b, 172);
    ControllerPage {
        last,
        generation: b[4],
        tcda: b[5],
        notice: b[6] == 1,
        reason,
    }
}

// The record that the bytes say.
pub fn read_record(b: &[u8; 300]) -> Record
    ensures { result ≡ record_at b.now }
{
    let caps = shared_layouts::read_caps(b[0]);
    let identity = Identity {
        oui: u32::value_at(b, 8),
        hostscope: b[1],
        controllerscope: b[2],
    };
    let host = host_at(b);
    let controller = controller_at(b);
    Record {
        caps,
        identity,
        host,
        controller,
    }
}

// A record's bytes are not damaged.
pub fn record_intact(b: &[u8; 300]) -> bool
    ensures { result ≡ record_intact b.now }
{
    (b[0] <= shared_layouts::MOST_CAPS) & (b[6] <= 1) & (b[7] == 0)
}
