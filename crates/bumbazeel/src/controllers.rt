// The controller's functions, for C.

ghost use Rattle.std.specs.Prelude.{◌≡◌};
ghost use Rattle.choices.specs.Choice.{pick};
ghost use Rattle.answers.specs.Answers.{success, disagree};
ghost use Rattle.controller.specs.Controller.{candidate_of};
ghost use Rattle.controller_boundary.specs.Boundary.{words_of, identity_of, fresh_ok, fresh_bytes, command_answer, command_at, capture_answer, capture_at, drop_answer, drop_at};

// Writes a record before any capture, or zeros.
#[unsafe(no_mangle)]
pub extern "C" fn bumbazeel_fresh(
    caps: u8,
    oui: u32,
    host_scope: u8,
    controller_scope: u8,
    own: &mut [u8; 300],
) -> u8
    ensures { (result ≡ pick (fresh_ok caps (identity_of oui host_scope controller_scope)) success disagree)
        × (own.new ≡ fresh_bytes caps (identity_of oui host_scope controller_scope)) }
{
    controller_boundary::bumbazeel_fresh(caps, oui, host_scope, controller_scope, own)
}

// Answers a command: writes record, host store and buffer where it succeeds, and the class.
#[unsafe(no_mangle)]
pub extern "C" fn bumbazeel_command(
    own: &mut [u8; 300],
    host_store: &mut [u8],
    controller_store: &[u8],
    last: &[u32; 4],
    bytes: &[u8],
    reason: &[u8],
    words: &[u32; 5],
    buffer: &mut [u8],
    class: &mut u8,
) -> u8
    ensures { command_answer result class.new own.new host_store.new buffer.new
        ≡ command_at own.old host_store.old controller_store.now
        (candidate_of last.now bytes.now reason.now)
        (words_of words.now) buffer.old }
{
    controller_boundary::bumbazeel_command(
        own,
        host_store,
        controller_store,
        last,
        bytes,
        reason,
        words,
        buffer,
        class,
    )
}

// Takes a capture of the controller's own: writes record and controller store where it succeeds.
#[unsafe(no_mangle)]
pub extern "C" fn bumbazeel_capture(
    own: &mut [u8; 300],
    host_store: &[u8],
    controller_store: &mut [u8],
    last: &[u32; 4],
    bytes: &[u8],
    reason: &[u8],
) -> u8
    ensures { capture_answer result own.new controller_store.new
        ≡ capture_at own.old host_store.now controller_store.old
        (candidate_of last.now bytes.now reason.now) }
{
    controller_boundary::bumbazeel_capture(own, host_store, controller_store, last, bytes, reason)
}

// Drops the host's data: writes the record where it succeeds.
#[unsafe(no_mangle)]
pub extern "C" fn bumbazeel_drop(
    own: &mut [u8; 300],
    host_store: &[u8],
    controller_store: &[u8],
) -> u8
    ensures { drop_answer result own.new ≡ drop_at own.old host_store.now controller_store.now }
{
    controller_boundary::bumbazeel_drop(own, host_store, controller_store)
}
