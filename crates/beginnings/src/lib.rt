// How a collection begins: setup.
//
// It rests on answers, plans, phases and collection, and lists pages, words, header and endings, whose types are parts of those. It promises the first
// command with the state that awaits it, or the refusal, to any plan (`setup_of` of collection's specs/Collection.antt).
#![tactic(auto)]

ghost use Rattle.std.specs.Prelude.{◌≡◌};
ghost use Rattle.collection.specs.Told.{stepped_told};
ghost use Rattle.collection.specs.Collection.{beginning, setup_of};

use collection::{Collection, Next, Stepped};
use phases::{Attempt, Phase};
use plans::Plan;

fn beginning_of(plan: Plan, phase: Phase, count: u64) -> Collection
    ensures { result ≡ beginning plan phase count }
{
    let attempt = Attempt {
        number: 1,
        generation: 0,
        last: [0; 4],
    };
    Collection {
        plan,
        phase,
        attempt,
        count,
    }
}

// The first command with the state that awaits it, or 13 or 6 with an ended state.
#[tactic(auto, using(answers::specs::Refused::refused_is), unfolding(collection::specs::Collection::setup_of))]
pub fn setup(plan: Plan) -> Stepped
    ensures { stepped_told result ≡ setup_of plan }
{
    match plan.setup_answer() {
        Ok(()) => {
            let state = beginning_of(plan, Phase::First, 1);
            Stepped {
                state,
                next: Next::Send(state.awaited()),
            }
        }
        Err(refusal) => Stepped {
            state: beginning_of(plan, Phase::Ended, 0),
            next: Next::Refuse(refusal),
        },
    }
}
