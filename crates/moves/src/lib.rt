// 5. "x becomes x+s×(t−l), l = t, then the new slope and due tick."
#![tactic(auto)]

ghost use Rattle.std.specs.Prelude.{◌≡◌};
ghost use Rattle.bitset.specs.Mask.{has, each};
ghost use Rattle.moves.specs.Motion.{after_move, Movable, AllMovable};

use bitset::Mask;
use machine::Motion;
use plan::{Plan, SOURCES};
use rates::{RANGES, rate};
use timing::{due_tick, position_at};

// Integrator i. `values` holds the outputs and inputs as they are after all commands and simultaneous outputs, and the nodes worked out from them. An
// integrator that was reached but not due keeps its output, which stands in `values`.
// Six parameters: what an instant knows and what it changes, which no struct holds, and which is borrowed in parts.
fn move_one(
    plan: &Plan,
    ranges: &[usize; RANGES],
    t: u32,
    i: usize,
    motion: &mut Motion,
    values: &[i64; SOURCES],
)
    requires { Movable plan.now ranges.now t values.now i motion.old }
    ensures { motion.new ≡ after_move plan.now ranges.now t values.now i motion.old }
{
    let x_then = position_at(motion, i, t);
    let slope = rate(&plan.links, ranges[i], ranges[i + 1], values);
    motion.x[i] = x_then;
    motion.s[i] = slope;
    motion.l[i] = t;
    let output = values[i];
    let quantum = plan.integrators.quanta[i];
    let upper = output + quantum;
    let lower = output - quantum;
    motion.d[i] = due_tick(t, x_then, upper, lower, slope);
}

// The integrators of a mask, lowest first.
pub fn move_all(
    plan: &Plan,
    ranges: &[usize; RANGES],
    t: u32,
    moved: u32,
    motion: &mut Motion,
    values: &[i64; SOURCES],
)
    requires { AllMovable plan.now ranges.now t values.now moved motion.old }
    ensures { motion.new ≡ each (after_move plan.now ranges.now t values.now) (has moved) 32 motion.old }
{
    for i in moved.members() {
        move_one(plan, ranges, t, i, motion, values);
    }
}
