// "A run with budget b takes b instants, or fewer if the status is first 1 or 2".
ghost use Rattle.std.specs.Prelude.{◌≡◌, length};
ghost use Rattle.machine.specs.Runs.{events_of_run};
ghost use Rattle.steps.specs.Events.{put_at};
ghost use Rattle.engine.specs.RunAnswer.{ended_of, RunReady};

use crate::ahead::look_ahead;
use instant::take_instant;
use machine::{Engine, Motion, Running, Status};
use plan::{Plan, SOURCES};
use rates::RANGES;
use reach::reach_table;
use values::{inputs_in, outputs_in};

// The status of the state after a run, the bytes written from the buffer's start, and the running figures.
#[derive(Clone, Copy)]
pub struct Ended {
    pub status: Status,
    pub written: usize,
    pub run: Running,
}

// `ranges` is the table of the plan's links, `first_values` the value of every source by the figures `first`. The loop changes what an instant moves and the
// values of sources where they lie. Outputs and input values stand in the values of sources alone, and are read out of them at the end.
// The two tables come one by one: the one is lent, the other is where the values of the run go on, so a struct of both would be taken apart at once.
pub fn run(
    engine: Engine,
    plan: &Plan,
    ranges: &[usize; RANGES],
    first_values: [i64; SOURCES],
    first: Running,
    budget: u64,
    buffer: &mut [u8],
) -> Ended
    requires { RunReady plan.now first ranges.now first_values budget (length buffer.old) }
    ensures answer { result ≡ ended_of plan.now engine budget first }
    ensures buffer { buffer.new ≡ put_at buffer.old 0 (events_of_run plan.now engine budget first) }
{
    let reach = reach_table(plan);
    let mut values = first_values;
    let Running {
        x,
        s,
        l,
        d,
        mut clocks,
        ..
    } = first;
    let mut motion = Motion { x, s, l, d };
    let mut end: usize = 0;
    let mut ahead = look_ahead(plan, &motion, clocks.next);
    for _ in 0..budget {
        if !ahead.status.is_paused() {
            break;
        }
        let step = take_instant(
            engine,
            plan,
            ranges,
            &reach,
            ahead.tick,
            ahead.due,
            &mut motion,
            &mut values,
            clocks,
            buffer,
            end,
        );
        clocks = step.clocks;
        end = step.end;
        ahead = look_ahead(plan, &motion, clocks.next);
    }
    let q = outputs_in(plan.counts.n, &values);
    let inputs = inputs_in(plan.counts.n, plan.counts.m, &values);
    let Motion { x, s, l, d } = motion;
    let run = Running {
        x,
        q,
        s,
        l,
        d,
        inputs,
        clocks,
    };
    Ended {
        status: ahead.status,
        written: end,
        run,
    }
}
