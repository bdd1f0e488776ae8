// What follows a setup or a step as the bytes of struct bumbazeel_next.
//
// It rests on choices, copies, littleendian, arrays, words, header, endings, collection and shared_layouts. It promises that it is written to exactly the bytes of
// specs/Layout.antt.
#![tactic(auto)]

ghost use Rattle.std.specs.Prelude.{◌≡◌};
ghost use Rattle.collection.specs.declared.Next.TheVariants.{Refuse};
ghost use Rattle.next_layout.specs.Layout.{kind_of, next_parts, next_bytes};

use collection::Next;
use littleendian::LittleEndian;
use words::Words;

// What follows is a command to send, an ending, a refusal. These are numbers because the C interface needs them; the enum of the three is `Next`.
pub const SEND: u8 = 0;

pub const ENDED: u8 = 1;

pub const REFUSED: u8 = 2;

// The number of what follows.
pub fn kind_of(next: Next<u8>) -> u8
    ensures { result ≡ kind_of next }
{
    match next {
        Next::Send(_) => SEND,
        Next::End(_) => ENDED,
        Next::Refuse(_) => REFUSED,
    }
}

#[tactic(auto, using(crate::specs::Steps::next_is))]
fn next_parts(kind: u8, answer: u8, newer: u8, field: u8, w: Words, count: u64) -> [u8; 32]
    ensures { result ≡ next_parts kind answer newer field w count }
{
    let mut out = [0u8; 32];
    out[0] = kind;
    out[1] = answer;
    out[2] = newer;
    out[3] = field;
    let words = [w.cdw10, w.cdw11, w.cdw12, w.cdw13];
    arrays::put_all(&mut out, 4, &words);
    w.cdw14.put_le(&mut out, 20);
    count.put_le(&mut out, 24);
    out
}

// The 32 bytes of a refusal with this number: of any number, which is more than the refusals that follow a setup or a step have.
#[tactic(auto, unfolding(crate::specs::Layout::next_bytes))]
pub fn write_refused(answer: u8) -> [u8; 32]
    ensures { result ≡ next_bytes (Refuse answer) }
{
    next_parts(REFUSED, answer, 0, 0, words::no_words(), 0)
}

// Its 32 bytes.
#[tactic(auto, unfolding(crate::specs::Layout::next_bytes))]
pub fn write_next(next: Next<u8>) -> [u8; 32]
    ensures { result ≡ next_bytes next }
{
    match next {
        Next::Send(w) => next_parts(SEND, 0, 0, 0, w, 0),
        Next::End(e) => {
            let ending = e.ending;
            next_parts(
                ENDED,
                ending.number(),
                shared_layouts::bit(ending.newer(), 1),
                shared_layouts::fault_number(ending.fault()),
                words::no_words(),
                e.count,
            )
        }
        Next::Refuse(answer) => write_refused(answer),
    }
}
