// The controller's functions of include/bumbazeel.h: thin, over what the bytes that C lends say.
//
// It rests on shared_layouts and record_layout for the structs, and on answers, records, captures and controller for the work. It promises
// each function's answer and every lent byte afterwards, for all arguments, as an equation with the definitions that those crates'
// contracts cite (specs/Boundary.antt). A damaged record is refused, and what is refused changes nothing (proofs/Laws.antt). A struct of
// the header file is an array of its bytes here, an answer and a class are their numbers, and a pointer with a length is a slice. No store or
// buffer is moved but by the call that serves it.
#![tactic(auto)]

ghost use Rattle.std.specs.Prelude.{◌≡◌};
ghost use Rattle.choices.specs.Choice.{pick};
ghost use Rattle.answers.specs.Answers.{success, disagree, result_number};
ghost use Rattle.verdicts.specs.Verdicts.{class_in};
ghost use Rattle.controller.specs.Controller.{candidate_of, record_left};
ghost use Rattle.controller_boundary.specs.Boundary.{words_of, identity_of, fresh_ok, fresh_bytes, record_after, command_answer, command_at, capture_answer, capture_at, drop_answer, drop_at};

use answers::Refusal;
use captures::Candidate;
use records::{Identity, Record};
use words::Words;

// The C interface's five words. A `From` would have to stand in `words`, for this one call.
fn words_of(a: [u32; 5]) -> Words
    ensures { result ≡ words_of a }
{
    Words {
        cdw10: a[0],
        cdw11: a[1],
        cdw12: a[2],
        cdw13: a[3],
        cdw14: a[4],
    }
}

// Writes a record before any capture, or zeros.
pub fn bumbazeel_fresh(
    caps: u8,
    oui: u32,
    host_scope: u8,
    controller_scope: u8,
    own: &mut [u8; 300],
) -> u8
    ensures { (result ≡ pick (fresh_ok caps (identity_of oui host_scope controller_scope)) success disagree)
        × (own.new ≡ fresh_bytes caps (identity_of oui host_scope controller_scope)) }
{
    let fresh = records::fresh(
        shared_layouts::read_caps(caps),
        Identity {
            oui,
            hostscope: host_scope,
            controllerscope: controller_scope,
        },
    );
    if (caps <= shared_layouts::MOST_CAPS) & records::agrees(fresh, 0, 0) {
        *own = record_layout::write_record(fresh);
        return answers::SUCCESS;
    }
    *own = [0; 300];
    answers::DISAGREE
}

// The record's bytes after an answer: those of the record that a success gives, or as they were. In place: handed by value, they cost a command a tenth of its instructions.
fn record_after(own: &mut [u8; 300], answer: Result<Record, Refusal>)
    ensures { (r : Record) → own.new ≡ record_after own.old (result_number answer) (record_left r answer) }
{
    match answer {
        Ok(after) => *own = record_layout::write_record(after),
        Err(_) => {}
    }
}

// The number of the class that an answer comes with.
fn class_number(answer: Result<Record, Refusal>) -> u8
    ensures { result ≡ class_in answer }
{
    match answer {
        Ok(_) => 0,
        Err(refusal) => refusal.class_number(),
    }
}

// Answers a command: writes record, host store and buffer where it succeeds, and the class.
pub fn bumbazeel_command(
    own: &mut [u8; 300],
    host_store: &mut [u8],
    controller_store: &[u8],
    last: &[u32; 4],
    bytes: &[u8],
    reason: &[u8],
    words: &[u32; 5],
    buffer: &mut [u8],
    class: &mut u8,
) -> u8
    ensures { command_answer result class.new own.new host_store.new buffer.new
        ≡ command_at own.old host_store.old controller_store.now
        (candidate_of last.now bytes.now reason.now)
        (words_of words.now) buffer.old }
{
    if !record_layout::record_intact(&*own) {
        *class = 0;
        return answers::DISAGREE;
    }
    let answer = controller::command(
        record_layout::read_record(&*own),
        host_store,
        controller_store,
        Candidate {
            last: *last,
            bytes,
            reason,
        },
        words_of(*words),
        buffer,
    );
    *class = class_number(answer);
    record_after(own, answer);
    answers::number(answer)
}

// Takes a capture of the controller's own: writes record and controller store where it succeeds.
pub fn bumbazeel_capture(
    own: &mut [u8; 300],
    host_store: &[u8],
    controller_store: &mut [u8],
    last: &[u32; 4],
    bytes: &[u8],
    reason: &[u8],
) -> u8
    ensures { capture_answer result own.new controller_store.new
        ≡ capture_at own.old host_store.now controller_store.old
        (candidate_of last.now bytes.now reason.now) }
{
    if !record_layout::record_intact(&*own) {
        return answers::DISAGREE;
    }
    let taken = controller::capture(
        record_layout::read_record(&*own),
        host_store,
        controller_store,
        Candidate {
            last: *last,
            bytes,
            reason,
        },
    );
    record_after(own, taken);
    answers::number(taken)
}

// Drops the host's data: writes the record where it succeeds.
pub fn bumbazeel_drop(own: &mut [u8; 300], host_store: &[u8], controller_store: &[u8]) -> u8
    ensures { drop_answer result own.new ≡ drop_at own.old host_store.now controller_store.now }
{
    if !record_layout::record_intact(&*own) {
        return answers::DISAGREE;
    }
    let dropped = controller::drop(
        record_layout::read_record(&*own),
        host_store,
        controller_store,
    );
    record_after(own, dropped);
    answers::number(dropped)
}
