// What a completion calls for: decided from numbers alone, before any byte moves.
//
// It rests on answers, pages, lastblocks, header, plans, phases, completions and endings. It promises what any completion calls for in any phase of any attempt, in the
// paper's orders (specs/Judgement.antt).
#![tactic(auto)]

ghost use Rattle.std.specs.Prelude.{◌≡◌, Bool};
ghost use Rattle.plans.specs.declared.Plan.{Plan};
ghost use Rattle.phases.specs.declared.Attempt.{Attempt};
ghost use Rattle.judgement.specs.Judgement.{matches, tests_of, first_order, match_order, later_order, judge_by};

use answers::Refusal;
use completions::Seen;
use endings::Ending;
use phases::{Attempt, Phase};
use plans::Plan;

// What a completion calls for. A bool beside an ending or an opening says that it is the next attempt's.
#[derive(Clone, Copy)]
pub enum Move {
    // The collection ends.
    End(Ending, bool),
    // The header just read opens an attempt.
    Open(bool),
    // The chunk at a block is good.
    More(u32),
    // The chunk was refused: straight to the header.
    Skip,
    // The copy stands, and the page is to be acknowledged.
    Acknowledge,
}

// The header seen matches the attempt's, in its generation and all four last blocks: the pair stands in three structs, whose fields the laws name one by one.
fn same(a: Attempt, h: Seen) -> bool
    ensures { result ≡ matches a h }
{
    let last = h.last;
    let held = a.last;
    let generation = h.generation == a.generation;
    generation & lastblocks::same_last(last, held)
}

// 12, and then as its plan answers: 7, 11, 19, 8, or else the header opens the attempt.
#[tactic(auto, unfolding(crate::specs::Judgement::first_order, crate::specs::Judgement::tests_of))]
fn first_of(ok: bool, h: Seen) -> Move
    ensures { (p : Plan) (a : Attempt) → result ≡ first_order (tests_of p a ok h) }
{
    let fault = h.fault;
    if !ok {
        return Move::End(Ending::BrokeItsWord, false);
    }
    match h.answer {
        answers::BAD_HEADER => Move::End(Ending::BadHeader(fault), false),
        answers::NOTHING => Move::End(Ending::Nothing, false),
        answers::OUT_OF_REACH => Move::End(Ending::OutOfReach, false),
        answers::NO_ROOM => Move::End(Ending::NoRoom, false),
        _ => Move::Open(false),
    }
}

// The copy stands, after a refused chunk it cannot; or else the order on a mismatch: 9, 19, 8, or the header opens the next attempt.
#[tactic(auto, unfolding(crate::specs::Judgement::match_order, crate::specs::Judgement::tests_of))]
fn match_of(p: Plan, a: Attempt, h: Seen, after: bool) -> Move
    ensures { (ok : Bool) → result ≡ match_order (tests_of p a ok h) after }
{
    let last = h.last;
    let same = same(a, h);
    let acknowledged = p.page == pages::CONTROLLER;
    if same & after {
        return Move::End(Ending::BrokeItsWord, false);
    }
    if same & acknowledged {
        return Move::Acknowledge;
    }
    if same {
        return Move::End(Ending::Success(false), false);
    }
    if p.attempts <= a.number {
        return Move::End(Ending::UsedUp, false);
    }
    match p.area_answer(last) {
        Err(Refusal::OutOfReach) => Move::End(Ending::OutOfReach, true),
        Err(Refusal::NoRoom) => Move::End(Ending::NoRoom, true),
        _ => Move::Open(true),
    }
}

// 12, 7, 10, and then by the match.
#[tactic(auto, unfolding(crate::specs::Judgement::later_order, crate::specs::Judgement::tests_of))]
fn later_of(p: Plan, a: Attempt, ok: bool, h: Seen, after: bool) -> Move
    ensures { result ≡ later_order (tests_of p a ok h) after }
{
    let fault = h.fault;
    if !ok {
        return Move::End(Ending::BrokeItsWord, false);
    }
    if !header::faultless(fault) {
        return Move::End(Ending::BadHeader(fault), false);
    }
    if (p.page == pages::CONTROLLER) & (h.tcda == 0) {
        return Move::End(Ending::Withdrawn, false);
    }
    match_of(p, a, h, after)
}

// What a completion calls for in a phase of an attempt: `ok` says that it is a success, and `h` is what was seen of its data. It takes a state's parts, as
// `refusals::refusal` does.
#[tactic(auto, unfolding(crate::specs::Judgement::judge_by, crate::specs::Judgement::tests_of))]
pub fn judge(phase: Phase, p: Plan, a: Attempt, ok: bool, h: Seen) -> Move
    ensures { result ≡ judge_by phase (tests_of p a ok h) }
{
    match phase {
        Phase::First => first_of(ok, h),
        Phase::Chunk(at) => if ok { Move::More(at) } else { Move::Skip },
        Phase::Close(after) => later_of(p, a, ok, h, after),
        Phase::Ack if ok => Move::End(Ending::Success(h.generation != a.generation), false),
        Phase::Ack | Phase::Ended => Move::End(Ending::BrokeItsWord, false),
    }
}
