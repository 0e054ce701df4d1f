// The plan writer: 10, then 13, else the plan's file. The answer is put together once. Plan and running figures are lent out of a copy: the state whose parts are
// lent is not handed on, or it would be copied once more (9,200 instructions, 8 KB of stack).
ghost use Rattle.std.specs.Prelude.{◌≡◌};
ghost use Rattle.calls.specs.Calls.{write_of, buffer_of_write};
ghost use Rattle.simulator.specs.Answers.{WriteAnswered};

use calls::Written;
use machine::{Running, State};
use plan::{ACCEPTED, Plan, Refusal};
use planwriter::write_plan;
use soundness::test_state;

// The length of the plan's file, or what the call declines with.
fn write_tested(plan: &Plan, run: &Running, buffer: &mut [u8]) -> Result<usize, Refusal>
    ensures { WriteAnswered (record { plan = plan.now; run = run.now }) buffer.old result buffer.new }
{
    if test_state(plan, run).is_none() {
        return Err(Refusal::Unsound);
    }
    write_plan(plan, buffer).ok_or(Refusal::WriteBuffer)
}

// "The writer writes the state's plan and returns the length; bytes after it keep their value."
pub fn write(state: State, buffer: &mut [u8]) -> Written
    ensures answer { result ≡ write_of state buffer.old }
    ensures buffer { buffer.new ≡ buffer_of_write state buffer.old }
{
    let State { plan, run } = state;
    let (number, length) = match write_tested(&plan, &run, buffer) {
        Ok(length) => (ACCEPTED, length),
        Err(refusal) => (refusal.number(), 0),
    };
    Written {
        number,
        length,
        state,
    }
}
