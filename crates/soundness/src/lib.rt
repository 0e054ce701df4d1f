// "A sound state": the test behind refusal 10. It asks nothing of the state: each number is bounded before it is used as
// an index, a factor or a term. What it works out on the way it hands on.
#![tactic(auto)]

ghost use Rattle.std.specs.Prelude.{◌≡◌};
ghost use Rattle.soundness.specs.Testing.{tested_of};

use crate::running::running_tested;
use machine::Running;
use plan::{Plan, SOURCES};
use rates::RANGES;
use soundplan::plan_sound;

mod running;

// The tables of a sound state, with which a run goes on: where each integrator's links begin, and the value of each source.
// They are `Tables` without the slopes: a sound state holds those itself.
#[derive(Clone, Copy)]
pub struct Tested {
    pub ranges: [usize; RANGES],
    pub values: [i64; SOURCES],
}

// The tables of the state, or none where it is not sound. The plan first, since testing the figures asks that it keeps its rules.
pub fn test_state(plan: &Plan, run: &Running) -> Option<Tested>
    ensures { result ≡ tested_of (record { plan = plan.now; run = run.now }) }
{
    if !plan_sound(plan) {
        return None;
    }
    running_tested(plan, run)
}
