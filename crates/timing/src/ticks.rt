// Due ticks, positions, and the next instant's tick.
ghost use Rattle.std.specs.Prelude.{◌≡◌, ◌+◌, ◌-◌, ◌≤◌, ◌<◌, min, pos, ◌+ℤ◌, ◌*ℤ◌};
ghost use Rattle.plan.specs.Numbers.{most_integrators, most_commands};
ghost use Rattle.plan.specs.Lists.{nat_at, int_at};
ghost use Rattle.machine.specs.Due.{due_tick};
ghost use Rattle.machine.specs.Entries.{entry_tick};
ghost use Rattle.machine.specs.Next.{least_due};
ghost use Rattle.timing.specs.Soonest.{least_of_four};
ghost use Rattle.timing.specs.Ticks.{DueReady, PositionReady};

use crate::entries::entry_tick;
use integers::divide_up;
use machine::{Motion, State};
use plan::{Commands, INTEGRATORS};

// "For s > 0, d−l is the least T ≥ 1 with x+s×T ≥ q+D; for s < 0 the least T ≥ 1 with x+s×T ≤ q−D; for s = 0 d is never." The steps are
// those of source document 002 (M5) for σ_2, its time to the next level, in its order: the slope's sign, the distance to the level ahead, the division. Here
// the quotient is rounded up to whole ticks. Both cases end in the same steps, so the compiler keeps one division for both. The caller works out the two
// levels.
pub fn due_tick(from: u32, x: i64, upper: i64, lower: i64, s: i64) -> u32
    requires { DueReady from x upper lower s }
    ensures { result ≡ due_tick from x upper lower s }
{
    // M5: "(Q_{k+1} − (x + e·d_x)) / x_v if x_v > 0"
    if s > 0 {
        let distance = upper - x;
        let ticks = divide_up(distance as u64, s as u64);
        return (from as u64 + ticks) as u32;
    }
    // "((x + e·d_x) − (Q_k − ε)) / |x_v| if x_v < 0"
    if s < 0 {
        let distance = x - lower;
        let ticks = divide_up(distance as u64, (-s) as u64);
        return (from as u64 + ticks) as u32;
    }
    // "∞ if x_v = 0"
    State::NEVER
}

// The same function. Zero is tested first, so two cases are left, and the compiler chooses between their operands without a branch; a branch on the sign is
// badly predicted where signs change. It does so only for a slope that is read from an array: of a slope just worked out it knows a range, and then no longer
// that it is not 0. No function calls it yet; it stays as the edit `zero_of_the_position_tested` and the pages that trace it name it.
pub fn due_tick_zero_first(from: u32, x: i64, upper: i64, lower: i64, s: i64) -> u32
    requires { DueReady from x upper lower s }
    ensures { result ≡ due_tick from x upper lower s }
{
    if s == 0 {
        return State::NEVER;
    }
    due_tick(from, x, upper, lower, s)
}

// "x+s×(t−l)"
pub fn position(x: i64, s: i64, l: u32, t: u32) -> i64
    requires { PositionReady x s l t }
    ensures { result ≡ x +ℤ s *ℤ pos (t - l) }
{
    x + s * ((t - l) as i64)
}

// The same of integrator i, as it moves.
pub fn position_at(motion: &Motion, i: usize, t: u32) -> i64
    requires { (i < most_integrators) × PositionReady (int_at motion.now.x i) (int_at motion.now.s i) (nat_at motion.now.l i) t }
    ensures { result ≡ int_at motion.now.x i +ℤ int_at motion.now.s i *ℤ pos (t - nat_at motion.now.l i) }
{
    position(motion.x[i], motion.s[i], motion.l[i], t)
}

// The earliest of a tick and the four due ticks from place i on. The four are compared in pairs, so that only one comparison waits for the least of those
// before. The compiler loads the four at once; in 64 bits it did so too.
fn earliest_of_four(least: u32, d: &[u32; INTEGRATORS], i: usize) -> u32
    requires { i + 4 ≤ most_integrators }
    ensures { result ≡ min least (least_of_four d.now i) }
{
    let first = d[i].min(d[i + 1]);
    let second = d[i + 2].min(d[i + 3]);
    least.min(first.min(second))
}

// The least of the first n due ticks, or never: four at a time, and then the rest. By place and not by `chunks_exact`: the wrong
// bodies `four_taken_of_three`, `fifth_due_passed_over` and `every_other_of_the_rest_passed_over` are of the places.
pub fn least_due(n: usize, d: &[u32; INTEGRATORS]) -> u32
    requires { n ≤ most_integrators }
    ensures { result ≡ least_due d.now n }
{
    let mut least = State::NEVER;
    let fours = n / 4;
    for k in 0..fours {
        least = earliest_of_four(least, d, 4 * k);
    }
    for i in 4 * fours..n {
        least = least.min(d[i]);
    }
    least
}

// "Next instant t: the least of all d and the next command's tick."
pub fn next_tick(
    commands: &Commands,
    count: usize,
    n: usize,
    d: &[u32; INTEGRATORS],
    next: usize,
) -> u32
    requires { (n ≤ most_integrators) × (count ≤ most_commands) }
    ensures { result ≡ min (least_due d.now n) (entry_tick commands.now.ticks count next) }
{
    least_due(n, d).min(entry_tick(commands, count, next))
}
