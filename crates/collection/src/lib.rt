// A collection of a telemetry page: a state by value, and a step that takes a completion and gives the next state, with the next
// command or the ending.
//
// It rests on choices, answers, words, plans, phases, refusals, completions, endings, judgement, touches and turns, and knows no controller. It promises,
// for any state, any completion and any copy, the answer and every byte of the copy afterwards (specs/Collection.antt). What decides (`decide`) never looks at a chunk's bytes
// nor at the copy; `step` looks at the data, lets it decide, and moves the bytes.
#![tactic(auto)]

ghost use Rattle.std.specs.Prelude.{◌≡◌, length};
ghost use Rattle.collection.specs.Told.{next_told, stepped_told, decided_told};
ghost use Rattle.collection.specs.Collection.{awaited_of, turned_to, sends, ends, act_of, decide_of, step_of, copy_after, Bounded};

use answers::Refusal;
use completions::Seen;
use endings::Ending;
use judgement::Move;
use phases::{Attempt, Phase};
use plans::Plan;
use refusals::Offered;
use touches::Touch;
use turns::Turn;
use words::Words;

// A state: what it was asked for, what it awaits, its attempt, and the number of commands sent.
#[derive(Clone, Copy)]
pub struct Collection {
    pub plan: Plan,
    pub phase: Phase,
    pub attempt: Attempt,
    pub count: u64,
}

// How a collection ended, and after how many commands.
#[derive(Clone, Copy)]
pub struct Finish {
    pub ending: Ending,
    pub count: u64,
}

// What completes a command: whether it is a success, and its data.
// `ok` is a flag beside the data, since `step_of` promises 15 for data that come with a refusal.
#[derive(Clone, Copy)]
pub struct Completion<'a> {
    pub ok: bool,
    pub data: &'a [u8],
}

// What follows: the next command, the ending, or a refusal that changed nothing. R is the refusal, or its number where C is told it.
#[derive(Clone, Copy)]
pub enum Next<R = Refusal> {
    Send(Words),
    End(Finish),
    Refuse(R),
}

impl Next {
    // The same with the number of a refusal.
    pub fn numbered(self) -> Next<u8>
        ensures { result ≡ next_told self }
    {
        match self {
            Next::Send(words) => Next::Send(words),
            Next::End(finish) => Next::End(finish),
            Next::Refuse(refusal) => Next::Refuse(refusal.number()),
        }
    }
}

#[derive(Clone, Copy)]
pub struct Stepped {
    pub state: Collection,
    pub next: Next,
}

// A step, and what happens to the copy with it.
#[derive(Clone, Copy)]
pub struct Decided {
    pub stepped: Stepped,
    pub touch: Touch,
}

impl Collection {
    // The command that is awaited: five zero words after the ending. Inlined, so that a setup pays for the first command's case alone.
    #[inline(always)]
    #[tactic(auto, unfolding(crate::specs::Collection::awaited_of))]
    pub fn awaited(self) -> Words
        ensures { result ≡ awaited_of self }
    {
        self.phase.awaited(self.plan, self.attempt.last)
    }

    // The state that a turn leads to, after this many commands.
    fn turned(self, t: Turn, count: u64) -> Collection
        requires { Bounded self }
        ensures { result ≡ turned_to self t count }
    {
        let old = self.attempt.number;
        let last = t.last;
        let attempt = Attempt {
            number: choices::pick(t.next, old + 1, old),
            generation: t.generation,
            last,
        };
        Collection {
            plan: self.plan,
            phase: t.phase,
            attempt,
            count,
        }
    }

    // The command that the state awaits is sent.
    fn sent(self) -> Stepped
        ensures { stepped_told result ≡ sends self }
    {
        Stepped {
            state: self,
            next: Next::Send(self.awaited()),
        }
    }

    // The collection ends, and says the count.
    fn over(self, ending: Ending) -> Stepped
        ensures { stepped_told result ≡ ends self ending }
    {
        let finish = Finish {
            ending,
            count: self.count,
        };
        Stepped {
            state: self,
            next: Next::End(finish),
        }
    }

    // Every command sent is counted.
    #[tactic(auto, unfolding(crate::specs::Collection::act_of))]
    fn act(self, m: Move, t: Turn) -> Stepped
        requires { Bounded self }
        ensures { stepped_told result ≡ act_of self m t }
    {
        let before = self.count;
        let count = before + 1;
        match m {
            Move::End(ending, _) => self.turned(t, before).over(ending),
            Move::Open(_) | Move::More(_) | Move::Skip | Move::Acknowledge => self
                .turned(t, count)
                .sent(),
        }
    }

    // The next state, with the next command or the ending, and what happens to the copy, from what is known of a completion: that it is
    // a success, its data's length, what was seen of the data (`completions::look`), and the length of the copy.
    pub fn decide(self, offered: Offered, seen: Seen) -> Decided
        ensures { decided_told result ≡ decide_of self offered.ok offered.bytes offered.copy seen }
    {
        let phase = self.phase;
        match refusals::refusal(self.plan, phase, self.attempt, self.count, offered) {
            Ok(()) => {
                let m = judgement::judge(phase, self.plan, self.attempt, offered.ok, seen);
                let t = turns::turn_of(self.plan, self.attempt, seen, m);
                Decided {
                    stepped: self.act(m, t),
                    touch: t.touch,
                }
            }
            Err(refusal) => Decided {
                stepped: Stepped {
                    state: self,
                    next: Next::Refuse(refusal),
                },
                touch: Touch::Keep,
            },
        }
    }

    // The next state, with the next command or the ending. A good chunk is written to its place in the copy, an ending zeroes the copy or
    // what is after the area, and else the copy stays.
    pub fn step<'a>(self, completion: Completion<'a>, copy: &mut [u8]) -> Stepped
        ensures { (stepped_told result ≡ step_of self completion.entry.ok completion.entry.«data».now (length copy.old)) × (copy.new ≡ copy_after self completion.entry.ok completion.entry.«data».now copy.old) }
    {
        let data = completion.data;
        let offered = Offered {
            ok: completion.ok,
            bytes: data.len(),
            copy: copy.len(),
        };
        let seen = completions::look(self.phase, self.plan, data);
        let decided = self.decide(offered, seen);
        touches::settle(decided.touch, data, copy);
        decided.stepped
    }
}
