// The controller side: Get Log Page for 07h and 08h, the controller's own captures on 08h, and drops of the host's data.
//
// It rests on all of the ground floor, on trimming, serving, verdicts and captures. It promises the answer, the record, both stores and the buffer after
// any command, capture and drop, on any lent bytes, as one equation each (specs/Controller.antt). Everything is decided before anything is
// written, so that what is refused changes nothing. A record and its stores stay three arguments: each call lends another of the stores to be written.
#![tactic(auto)]

ghost use Rattle.std.specs.Prelude.{◌≡◌, [], length};
ghost use Rattle.choices.specs.Choice.{pick};
ghost use Rattle.answers.specs.Answers.{result_number};
ghost use Rattle.captures.specs.Captures.{cleared_of};
ghost use Rattle.verdicts.specs.Verdicts.{class_in};
ghost use Rattle.controller.specs.Controller.{record_made, store_made, acknowledges, world, candidate_of, outcome, record_left, command_of, capture_of, drop_of};

use answers::Refusal;
use captures::Candidate;
use records::Record;
use verdicts::Lent;
use words::{Command, Words};

// The bytes of what is lent.
fn lent(host: &[u8], controller: &[u8], candidate: Candidate, buf: &[u8]) -> Lent
    ensures { result ≡ record { host = length host.now; controller = length controller.now; bytes = length candidate.entry.bytes.now; reason = length candidate.entry.reason.now; buf = length buf.now } }
{
    Lent {
        host: host.len(),
        controller: controller.len(),
        bytes: candidate.bytes.len(),
        reason: candidate.reason.len(),
        buf: buf.len(),
    }
}

// A create captures before the transfer: the record after it.
fn created(r: Record, c: Command, candidate: Candidate, host: &mut [u8]) -> Record
    ensures { (result ≡ record_made r c candidate.entry.last candidate.entry.reason.now) × (host.new ≡ store_made r c candidate.entry.last candidate.entry.bytes.now host.old) }
{
    if c.create {
        return captures::on_host(r, c.mcda as u32, candidate, host);
    }
    r
}

// On 08h RAE 0 clears after the transfer.
fn acknowledged(r: Record, c: Command) -> Record
    ensures { result ≡ pick (acknowledges c) (cleared_of r) r }
{
    if (c.page == pages::CONTROLLER) & !c.rae {
        return captures::cleared(r);
    }
    r
}

// A command of any five words gives the record afterwards. It is lent both stores, a candidate, which is read only at a create on 07h, and the
// transfer buffer. A refusal leaves stores, record and buffer as lent.
pub fn command(
    r: Record,
    host: &mut [u8],
    controller: &[u8],
    candidate: Candidate,
    words: Words,
    buf: &mut [u8],
) -> Result<Record, Refusal>
    ensures { outcome (result_number result) (class_in result) (world (record_left r result) host.new controller.now) buf.new
        ≡ command_of (world r host.old controller.now) (candidate_of candidate.entry.last candidate.entry.bytes.now candidate.entry.reason.now) words buf.old }
{
    let c = words::read(r.caps.extended, words);
    let lent = lent(&host[..], controller, candidate, &buf[..]);
    verdicts::on_command(r, c, candidate.last, lent)?;
    let next = created(r, c, candidate, host);
    serving::send(next, &host[..], controller, c, buf);
    Ok(acknowledged(next, c))
}

// A capture of the controller's own on 08h, over an unread one too, gives the record afterwards. A refusal leaves stores and record as lent.
#[tactic(auto, using(answers::specs::Refused::refused_is, crate::proofs::Steps::capture_taken, crate::proofs::Steps::capture_refused))]
pub fn capture(
    r: Record,
    host: &[u8],
    controller: &mut [u8],
    candidate: Candidate,
) -> Result<Record, Refusal>
    ensures { outcome (result_number result) (class_in result) (world (record_left r result) host.now controller.new) []
        ≡ capture_of (world r host.now controller.old) (candidate_of candidate.entry.last candidate.entry.bytes.now candidate.entry.reason.now) }
{
    let lent = lent(host, &controller[..], candidate, b"");
    verdicts::on_capture(r, candidate.last, lent)?;
    Ok(captures::on_controller(r, candidate, controller))
}

// A drop of the host's data, as a Firmware Commit or power on makes it, gives the record afterwards. Both stores stay as lent; a refusal leaves the
// record so too.
pub fn drop(r: Record, host: &[u8], controller: &[u8]) -> Result<Record, Refusal>
    ensures { outcome (result_number result) (class_in result) (world (record_left r result) host.now controller.now) [] ≡ drop_of (world r host.now controller.now) }
{
    if !records::agrees(r, host.len(), controller.len()) {
        return Err(Refusal::Disagree);
    }
    Ok(captures::dropped(r))
}
