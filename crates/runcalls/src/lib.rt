// The lazy and the eager run: 10, 11 and 12 in order, then the engine's run. Both are one function of the engine, so that they decline alike. The state that
// was handed in is lent where it lies; just its running figures change, and the answer is put together once, whatever is answered.
#![tactic(auto)]

ghost use Rattle.std.specs.Prelude.{◌≡◌};
ghost use Rattle.machine.specs.declared.Engine.TheVariants.{Lazy, Eager};
ghost use Rattle.calls.specs.Calls.{run_of, buffer_of_run};
ghost use Rattle.runcalls.specs.Answers.{RunAnswered};

use calls::Ran;
use engine::{Ended, run};
use machine::{Engine, State};
use plan::{ACCEPTED, EVENT_BYTES, LARGEST_BUDGET, Refusal};
use soundness::test_state;

// The product of refusal 12 is worked out only once the budget is known to be small. The run goes on with the tables that the test of soundness worked out.
fn run_tested(
    engine: Engine,
    state: &State,
    budget: u64,
    buffer: &mut [u8],
) -> Result<Ended, Refusal>
    ensures { RunAnswered engine state.now budget buffer.old result buffer.new }
{
    let Some(test) = test_state(&state.plan, &state.run) else {
        return Err(Refusal::Unsound);
    };
    if budget > LARGEST_BUDGET {
        return Err(Refusal::Budget);
    }
    let counts = state.plan.counts;
    let needed = budget as usize * (counts.n + counts.m) * EVENT_BYTES;
    if buffer.len() < needed {
        return Err(Refusal::RunBuffer);
    }
    let ended = run(
        engine,
        &state.plan,
        &test.ranges,
        test.values,
        state.run,
        budget,
        buffer,
    );
    Ok(ended)
}

// The state that was handed in keeps its plan, and gets the running figures that are answered: "0 for every other figure, and the state handed in" where
// the run is declined.
fn run_by(engine: Engine, mut state: State, budget: u64, buffer: &mut [u8]) -> Ran
    ensures answer { result ≡ run_of engine state budget buffer.old }
    ensures buffer { buffer.new ≡ buffer_of_run engine state budget buffer.old }
{
    let (number, status, integrator, written) = match run_tested(engine, &state, budget, buffer) {
        Ok(ran) => {
            state.run = ran.run;
            (
                ACCEPTED,
                ran.status.number(),
                ran.status.integrator(),
                ran.written,
            )
        }
        Err(refusal) => (refusal.number(), 0, 0, 0),
    };
    Ran {
        number,
        status,
        integrator,
        written,
        state,
    }
}

// Two calls of one body: the C interface (include/cup.h) names both.
// "The lazy engine moves those due or reached".
pub fn run_lazy(state: State, budget: u64, buffer: &mut [u8]) -> Ran
    ensures answer { result ≡ run_of Lazy state budget buffer.old }
    ensures buffer { buffer.new ≡ buffer_of_run Lazy state budget buffer.old }
{
    run_by(Engine::Lazy, state, budget, buffer)
}

// "the eager engine all".
pub fn run_eager(state: State, budget: u64, buffer: &mut [u8]) -> Ran
    ensures answer { result ≡ run_of Eager state budget buffer.old }
    ensures buffer { buffer.new ≡ buffer_of_run Eager state budget buffer.old }
{
    run_by(Engine::Eager, state, budget, buffer)
}
