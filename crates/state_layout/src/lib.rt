// A collection's state as the bytes of struct bumbazeel_state: written, read, and not damaged.
//
// It rests on choices, copies, littleendian, arrays, plans, phases, collection and shared_layouts. It promises that a state is written to and read
// from exactly the bytes of specs/Layout.antt, whatever they are, and that what is written reads back to what it was, and intact bytes to
// themselves (specs/Back.antt).
#![tactic(auto)]

ghost use Rattle.std.specs.Prelude.{◌≡◌};
ghost use Rattle.state_layout.specs.Layout.{phase_byte, chunk_start, phase_of, state_marks, state_bytes, plan_from, state_at, state_intact};

use collection::Collection;
use littleendian::LittleEndian;
use phases::{Attempt, Phase};
use plans::Plan;

// The number of a phase. The C interface has it as a byte, and the start of a chunk apart from it.
fn phase_byte(phase: Phase) -> u8
    ensures { result ≡ phase_byte phase }
{
    match phase {
        Phase::First => 0,
        Phase::Chunk(_) => 1,
        Phase::Close(false) => 2,
        Phase::Close(true) => 3,
        Phase::Ack => 4,
        Phase::Ended => 5,
    }
}

// The block of an awaited chunk; 0 in any other phase.
fn chunk_start(phase: Phase) -> u32
    ensures { result ≡ chunk_start phase }
{
    match phase {
        Phase::Chunk(at) => at,
        _ => 0,
    }
}

// The phase by its number: over 4 nothing is awaited.
#[tactic(auto, unfolding(crate::specs::Layout::phase_of))]
// The C interface has it as a byte: any number is read, and `state_intact` tells one over 5.
fn phase_of(n: u8, at: u32) -> Phase
    ensures { result ≡ phase_of n at }
{
    match n {
        0 => Phase::First,
        1 => Phase::Chunk(at),
        2 => Phase::Close(false),
        3 => Phase::Close(true),
        4 => Phase::Ack,
        _ => Phase::Ended,
    }
}

fn state_marks(s: Collection) -> [u8; 8]
    ensures { result ≡ state_marks s }
{
    let plan = s.plan;
    let phase = s.phase;
    let attempt = s.attempt;
    let caps = plan.caps;
    let number = phase_byte(phase);
    let create = shared_layouts::bit(plan.create, 1);
    let can = shared_layouts::caps_byte(caps);
    [
        number,
        plan.page,
        create,
        plan.area,
        can,
        attempt.generation,
        0,
        0,
    ]
}

// A state's bytes.
pub fn write_state(s: Collection) -> [u8; 56]
    ensures { result ≡ state_bytes s }
{
    let plan = s.plan;
    let phase = s.phase;
    let attempt = s.attempt;
    let last = attempt.last;
    let mut out = [0u8; 56];
    copies::put(&state_marks(s), &mut out, 0);
    let start = chunk_start(phase);
    let numbers = [plan.chunk, plan.attempts, attempt.number, start];
    arrays::put_all(&mut out, 8, &numbers);
    (plan.room as u64).put_le(&mut out, 24);
    s.count.put_le(&mut out, 32);
    arrays::put_all(&mut out, 40, &last);
    out
}

fn plan_at(b: &[u8; 56], chunk: u32, attempts: u32) -> Plan
    ensures { result ≡ plan_from b.now chunk attempts }
{
    let caps = shared_layouts::read_caps(b[4]);
    Plan {
        page: b[1],
        create: b[2] == 1,
        area: b[3],
        chunk,
        attempts,
        room: u64::value_at(b, 24) as usize,
        caps,
    }
}

// The state that the bytes say.
pub fn read_state(b: &[u8; 56]) -> Collection
    ensures { result ≡ state_at b.now }
{
    let n: [u32; 4] = arrays::all_at(b, 8);
    let plan = plan_at(b, n[0], n[1]);
    let phase = phase_of(b[0], n[3]);
    let last = arrays::all_at(b, 40);
    let attempt = Attempt {
        number: n[2],
        generation: b[5],
        last,
    };
    Collection {
        plan,
        phase,
        attempt,
        count: u64::value_at(b, 32),
    }
}

// A state's bytes are not damaged.
pub fn state_intact(b: &[u8; 56]) -> bool
    ensures { result ≡ state_intact b.now }
{
    (b[0] <= 5)
        & (b[2] <= 1)
        & (b[4] <= shared_layouts::MOST_CAPS)
        & (b[6] == 0)
        & (b[7] == 0)
        & ((b[0] == 1) | (u32::value_at(b, 20) == 0))
}
