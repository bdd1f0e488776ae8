// What a step refuses.
//
// It rests on choices, answers, pages, plans and phases. It promises the first that speaks against any step, in any state and with any completion
// (specs/Refusals.antt).
#![tactic(auto)]

ghost use Rattle.std.specs.Prelude.{◌≡◌};
ghost use Rattle.answers.specs.Answers.{result_number};
ghost use Rattle.refusals.specs.Refusals.{most_count, first_refusal, refusal_by};

use answers::Refusal;
use phases::{Attempt, Phase};
use plans::Plan;

// The most commands of one attempt: the chunks of the largest area, a block each, and the closing header.
const MOST_OF_ATTEMPT: u64 = 1048577;

// What is known of a completion before it is looked at: that it is a success, and how long its data and the lent copy are.
// `ok` is a flag beside the length, since `fits_by` promises 15 for data that come with a refusal.
#[derive(Clone, Copy)]
pub struct Offered {
    pub ok: bool,
    pub bytes: usize,
    pub copy: usize,
}

fn most_count(attempts: u32) -> u64
    ensures { result ≡ most_count attempts }
{
    2 + (attempts as u64) * MOST_OF_ATTEMPT
}

// The first that speaks against a step: the state is over, it is not valid, the completion does not fit.
fn first_refusal(over: bool, valid: bool, fits: bool) -> Result<(), Refusal>
    ensures { result_number result ≡ first_refusal over valid fits }
{
    if over {
        return Err(Refusal::AlreadyEnded);
    }
    if !valid {
        return Err(Refusal::BadSetup);
    }
    if !fits {
        return Err(Refusal::DoesNotFit);
    }
    Ok(())
}

// What speaks against a step, in a state of this plan, phase, attempt and count of commands: that it is over, then that it is bad, then that the completion does
// not fit. It takes a state's parts: the struct stands above, beside `step`, which document 01 has as its method.
#[tactic(auto, using(answers::specs::Refused::ok_is), unfolding(crate::specs::Refusals::refusal_by, choices::specs::Tests::holds, phases::specs::Asked::due_by))]
pub fn refusal(
    plan: Plan,
    phase: Phase,
    attempt: Attempt,
    count: u64,
    offered: Offered,
) -> Result<(), Refusal>
    ensures { result_number result ≡ refusal_by plan phase attempt count offered }
{
    let due = phase.expected(plan, attempt.last);
    let valid = plan.setup_answer().is_ok()
        & ((1 <= attempt.number) & (attempt.number <= plan.attempts))
        & (count <= most_count(plan.attempts))
        & due.within;
    let fits = (offered.copy == plan.room)
        & (offered.bytes == choices::pick(offered.ok, due.bytes, 0));
    first_refusal(phase.is_ended(), valid, fits)
}
