// Which answer a command or a capture gets: decided from numbers alone, before anything is written.
//
// It rests on choices, answers, pages, words, records and trimming. It promises that the answers stand in document 01's order
// (specs/Verdicts.antt), and says what an answer of 0 tells of the numbers (specs/Accepted.antt), on which the writing rests.
#![tactic(auto)]

ghost use Rattle.std.specs.Prelude.{◌≡◌};
ghost use Rattle.answers.specs.Answers.{result_number};
ghost use Rattle.verdicts.specs.Verdicts.{candidate_ok, field_bad, last_after, command_answer, capture_answer, class_in, class_for};

use answers::Refusal;
use pages::Caps;
use records::Record;
use words::Command;

// The bytes of what is lent: both stores, the candidate's bytes and its reason, and the transfer buffer.
#[derive(Clone, Copy)]
pub struct Lent {
    pub host: usize,
    pub controller: usize,
    pub bytes: usize,
    pub reason: usize,
    pub buf: usize,
}

// A candidate that is not broken, `kept` being the last block of the area that is kept and `store` the bytes of its store.
#[tactic(auto, unfolding(crate::specs::Verdicts::candidate_ok, choices::specs::Tests::holds))]
fn candidate_ok(kept: u32, a: [u32; 4], bytes: usize, reason: usize, store: usize) -> bool
    ensures { result ≡ candidate_ok kept a bytes reason store }
{
    ((a[0] <= a[1]) & (a[1] <= a[2]) & (a[2] <= a[3]))
        & (bytes == pages::in_bytes(a[3]))
        & (reason == 128)
        & (a[2] <= pages::MOST_3)
        & ((a[3] == 0) | (0 < a[2]))
        & (kept <= pages::MOST_4)
        & (pages::in_bytes(kept) <= store)
}

// A field of the words that is invalid before the candidate and the page's size are looked at.
#[tactic(auto, unfolding(crate::specs::Verdicts::field_bad))]
fn field_bad(caps: Caps, c: Command) -> bool
    ensures { result ≡ field_bad caps c }
{
    c.indexed
        | (c.bytes % pages::BLOCK != 0)
        | (!caps.extended & (c.offset != 0))
        | (c.offset % pages::BLOCK != 0)
        | (c.create & caps.mcdas & (5 <= c.mcda))
}

// The last blocks of the page asked for, after the command's capture if it makes one.
#[tactic(auto, unfolding(crate::specs::Verdicts::last_after))]
fn last_after(r: Record, c: Command, a: [u32; 4]) -> [u32; 4]
    ensures { result ≡ last_after r c a }
{
    let host_last = r.host.last;
    let controller_last = r.controller.last;
    let captured = trimming::trim(r.caps, c.mcda as u32, a);
    choices::pick(
        c.page == pages::HOST,
        choices::pick(c.create, captured, host_last),
        controller_last,
    )
}

// Whether a command is accepted, and if not, why.
pub fn on_command(r: Record, c: Command, a: [u32; 4], lent: Lent) -> Result<(), Refusal>
    ensures { (result_number result ≡ command_answer r c a lent) × (class_in result ≡ class_for (command_answer r c a lent) c.page) }
{
    if !records::agrees(r, lent.host, lent.controller) {
        return Err(Refusal::Disagree);
    }
    if !(((c.page == pages::HOST) | (c.page == pages::CONTROLLER)) & r.caps.telemetry) {
        return Err(Refusal::InvalidLogPage(answers::class(c.page)));
    }
    if field_bad(r.caps, c) {
        return Err(Refusal::InvalidField);
    }
    let kept = pages::last_of(trimming::top(r.caps, c.mcda as u32), a);
    if c.create & !candidate_ok(kept, a, lent.bytes, lent.reason, lent.host) {
        return Err(Refusal::BrokenCandidate);
    }
    let last = last_after(r, c, a);
    if pages::size(r.caps, last) < c.offset {
        return Err(Refusal::InvalidField);
    }
    if lent.buf < c.bytes {
        return Err(Refusal::ShortBuffer);
    }
    Ok(())
}

// Whether a capture of the controller's own, on 08h, is accepted, and if not, why.
pub fn on_capture(r: Record, a: [u32; 4], lent: Lent) -> Result<(), Refusal>
    ensures { (result_number result ≡ capture_answer r a lent) × (class_in result ≡ 0) }
{
    if !records::agrees(r, lent.host, lent.controller) {
        return Err(Refusal::Disagree);
    }
    let kept = pages::last_of(trimming::top(r.caps, 0), a);
    let fine = candidate_ok(kept, a, lent.bytes, lent.reason, lent.controller);
    if fine & (0 < a[2]) {
        Ok(())
    } else {
        Err(Refusal::BrokenCandidate)
    }
}
