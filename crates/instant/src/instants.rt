// "One instant", steps 1 to 6.
ghost use Rattle.std.specs.Prelude.{◌≡◌, ◌≤◌, length};
ghost use Rattle.plan.specs.Numbers.{most_integrators};
ghost use Rattle.instant.specs.Instants.{with_unread, running_of, moved_set, SomePlanReady, EveryPlanTaken};

use bitset::{Mask, all, count, union_shifted};
use machine::{Clocks, Engine, Motion};
use moves::move_all;
use plan::{Counts, Plan, SOURCES};
use rates::RANGES;
use reach::reached_by;
use steps::{obey_entries, set_outputs, write_events};
use values::work_out_nodes;

// What an instant leaves, and the place behind its events.
#[derive(Clone, Copy)]
pub struct Taken {
    pub clocks: Clocks,
    pub end: usize,
}

// 5. "The lazy engine moves those due or reached, the eager engine all".
// The one place where an engine differs: a closure or a trait for it would be no plainer than the `match`.
#[tactic(auto, unfolding(crate::specs::Instants::moved_set))]
fn moved_set(engine: Engine, n: usize, due: u32, reached: u32) -> u32
    requires { n ≤ most_integrators }
    ensures { result ≡ moved_set engine n due reached }
{
    match engine {
        Engine::Lazy => due.union(reached),
        Engine::Eager => all(n),
    }
}

// The instant at t, the next one of a sound and paused state; `due` is the mask of the integrators that are due there. `ranges` and `reach` are the plan's
// tables. `values` holds the value of every source before the instant and after it, the outputs and input values among them; of the nodes only those are
// worked out that depend on a change, since the others keep their value. All outputs are set before any slope is worked out.
// Eleven parameters: the steps borrow `motion` and `values` side by side, so a struct of them would be taken apart again at each.
pub fn take_instant(
    engine: Engine,
    plan: &Plan,
    ranges: &[usize; RANGES],
    reach: &[u64; SOURCES],
    t: u32,
    due: u32,
    motion: &mut Motion,
    values: &mut [i64; SOURCES],
    clocks: Clocks,
    buffer: &mut [u8],
    at: usize,
) -> Taken
    requires { SomePlanReady (with_unread plan.now) ranges.now reach.now t due (running_of plan.now.counts motion.old values.old clocks) values.old
        at (length buffer.old) }
    ensures { EveryPlanTaken engine (with_unread plan.now) ranges.now reach.now t due
        (running_of plan.now.counts motion.old values.old clocks) values.old
        buffer.old at
        (running_of plan.now.counts motion.new values.new result.clocks) values.new
        buffer.new result.end }
{
    let Counts {
        n,
        m,
        k,
        commands,
        ..
    } = plan.counts;
    let base = n + m;
    set_outputs(t, due, motion, values);
    let commanded = obey_entries(&plan.commands, n, commands, t, values, clocks.next);
    let changed = union_shifted(due, commanded.numbers, n);
    let reached = reached_by(reach, changed);
    work_out_nodes(&plan.nodes, base, k, reached.nodes, values);
    let end = write_events(t, changed, values, buffer, at);
    let moved = moved_set(engine, n, due, reached.integrators);
    move_all(plan, ranges, t, moved, motion, values);
    let instants = clocks.instants + 1;
    let updates = clocks.updates + (count(moved) as u64);
    let after = Clocks {
        clock: t,
        next: commanded.next,
        instants,
        updates,
    };
    Taken { clocks: after, end }
}
