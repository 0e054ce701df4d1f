// The position call: 10, then 14, else where the integrator is at the clock. The answer is put together once; plan and running figures are lent out of a copy,
// as in the plan writer.
ghost use Rattle.std.specs.Prelude.{◌≡◌};
ghost use Rattle.calls.specs.Calls.{positioned_of};
ghost use Rattle.simulator.specs.Answers.{PositionAnswered};

use calls::Positioned;
use machine::{Running, State};
use plan::{ACCEPTED, Plan, Refusal};
use soundness::test_state;

// "Position call: x+s×(c−l) for a numbered integrator.", or what the call declines with.
fn position_tested(plan: &Plan, run: &Running, integrator: usize) -> Result<i64, Refusal>
    ensures { PositionAnswered (record { plan = plan.now; run = run.now }) integrator result }
{
    if test_state(plan, run).is_none() {
        return Err(Refusal::Unsound);
    }
    if integrator >= plan.counts.n {
        return Err(Refusal::IntegratorNumber);
    }
    Ok(timing::position(
        run.x[integrator],
        run.s[integrator],
        run.l[integrator],
        run.clocks.clock,
    ))
}

pub fn position(state: State, integrator: usize) -> Positioned
    ensures { result ≡ positioned_of state integrator }
{
    let State { plan, run } = state;
    let (number, value) = match position_tested(&plan, &run, integrator) {
        Ok(value) => (ACCEPTED, value),
        Err(refusal) => (refusal.number(), 0),
    };
    Positioned {
        number,
        value,
        state,
    }
}
