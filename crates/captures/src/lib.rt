// What a capture keeps of a candidate, in its page's store and in the record, what an acknowledgement clears, and what a drop does.
//
// It rests on copies, pages, records and trimming. It promises the record and the store afterwards, whatever is lent
// (specs/Captures.antt); whether a candidate may be captured is judged before (verdicts).
#![tactic(auto)]

ghost use Rattle.std.specs.Prelude.{◌≡◌};
ghost use Rattle.pages.specs.Pages.{last_of};
ghost use Rattle.trimming.specs.Trimming.{top_of, trim_of};
ghost use Rattle.captures.specs.Captures.{reason_of, kept_in, host_taken, controller_taken, cleared_of, dropped_of};

use pages::Caps;
use records::{ControllerPage, HostPage, Record};

// What a capture is lent: four last blocks, the blocks' bytes and a reason.
#[derive(Clone, Copy)]
pub struct Candidate<'a> {
    pub last: [u32; 4],
    pub bytes: &'a [u8],
    pub reason: &'a [u8],
}

// What the record notes of a candidate.
#[derive(Clone, Copy)]
struct Noted {
    last: [u32; 4],
    reason: [u8; 128],
}

// The candidate's first blocks go to the front of the store.
fn keep(bytes: &[u8], blocks: u32, store: &mut [u8])
    ensures { store.new ≡ kept_in store.old bytes.now blocks }
{
    let n = pages::in_bytes(blocks).min(bytes.len());
    copies::put(&bytes[..n], store, 0);
}

// The candidate's reason, in an array of its own.
fn reason_of(reason: &[u8]) -> [u8; 128]
    ensures { result ≡ reason_of reason.now }
{
    let mut out = [0u8; 128];
    copies::put(reason, &mut out, 0);
    out
}

// What is kept of a candidate: its first blocks in the store, and what the record notes.
fn kept(caps: Caps, mcda: u32, candidate: Candidate, store: &mut [u8]) -> Noted
    ensures { (result ≡ record { last = trim_of caps mcda candidate.entry.last; reason = reason_of candidate.entry.reason.now }) × (store.new ≡ kept_in store.old candidate.entry.bytes.now (last_of (top_of caps mcda) candidate.entry.last)) }
{
    let a = candidate.last;
    keep(
        candidate.bytes,
        pages::last_of(trimming::top(caps, mcda), a),
        store,
    );
    let last = trimming::trim(caps, mcda, a);
    let reason = reason_of(candidate.reason);
    Noted { last, reason }
}

// A capture on 07h under an MCDA: the record and the host store after it. One on 08h shares `kept` alone: it sets other fields of another page.
pub fn on_host(r: Record, mcda: u32, candidate: Candidate, store: &mut [u8]) -> Record
    ensures { (result ≡ host_taken r (trim_of r.caps mcda candidate.entry.last) (reason_of candidate.entry.reason.now)) × (store.new ≡ kept_in store.old candidate.entry.bytes.now (last_of (top_of r.caps mcda) candidate.entry.last)) }
{
    let Noted { last, reason } = kept(r.caps, mcda, candidate, store);
    let host = HostPage {
        last,
        generation: r.host.generation.wrapping_add(1),
        reason,
    };
    Record { host, ..r }
}

// A capture on 08h, which has no MCDA: the record and the controller store after it.
pub fn on_controller(r: Record, candidate: Candidate, store: &mut [u8]) -> Record
    ensures { (result ≡ controller_taken r (trim_of r.caps 0 candidate.entry.last) (reason_of candidate.entry.reason.now)) × (store.new ≡ kept_in store.old candidate.entry.bytes.now (last_of (top_of r.caps 0) candidate.entry.last)) }
{
    let Noted { last, reason } = kept(r.caps, 0, candidate, store);
    let controller = ControllerPage {
        last,
        generation: r.controller.generation.wrapping_add(1),
        tcda: 1,
        notice: true,
        reason,
    };
    Record { controller, ..r }
}

// An acknowledgement of 08h: reason and generation stay.
pub fn cleared(r: Record) -> Record
    ensures { result ≡ cleared_of r }
{
    let controller = ControllerPage {
        last: [0; 4],
        tcda: 0,
        notice: false,
        ..r.controller
    };
    Record { controller, ..r }
}

// A drop of the host's data, as a Firmware Commit or power on makes it: the generation stays, and nothing of 08h is touched.
pub fn dropped(r: Record) -> Record
    ensures { result ≡ dropped_of r }
{
    let host = HostPage {
        last: [0; 4],
        reason: [0; 128],
        ..r.host
    };
    Record { host, ..r }
}
