// The figures of the integrators in a sound state.
#![tactic(auto)]

ghost use Rattle.std.specs.Prelude.{◌≡◌, ◌≤◌};
ghost use Rattle.plan.specs.Numbers.{most_integrators};
ghost use Rattle.plan.specs.Lists.{nat_at, int_at, every};
ghost use Rattle.timing.specs.Ticks.{upper_in, lower_in};
ghost use Rattle.soundintegrators.specs.Figures.{figures_sound, FiguresReady, IntegratorsReady};

use machine::Running;
use plan::{INTEGRATORS, Plan};
use timing::due_tick;

// "l ≤ c < d; .. |x−q| < D; s and d keep Rate and Due", of one integrator with these levels, whose slope has to be `slope`. x may be any number of 64
// bits, so it is compared with the levels and nothing is taken from it. The numbers come one by one: a struct of these eight would be filled for this call alone.
fn figures_sound(
    upper: i64,
    lower: i64,
    slope: i64,
    clock: u32,
    x: i64,
    s: i64,
    l: u32,
    d: u32,
) -> bool
    requires { FiguresReady upper lower slope clock }
    ensures { result ≡ figures_sound upper lower slope clock x s l d }
{
    if l > clock {
        return false;
    }
    if d <= clock {
        return false;
    }
    if x <= lower {
        return false;
    }
    if x >= upper {
        return false;
    }
    if s != slope {
        return false;
    }
    d == due_tick(l, x, upper, lower, s)
}

// Of each integrator.
#[tactic(auto, unfolding(plan::specs::Lists::every))]
pub fn integrators_sound(plan: &Plan, slopes: &[i64; INTEGRATORS], run: &Running) -> bool
    requires { (plan.now.counts.n ≤ most_integrators)
        × IntegratorsReady plan.now.counts.n plan.now.integrators.quanta slopes.now run.now.clocks.clock run.now.q }
    ensures { result ≡ every (λ i. figures_sound (upper_in run.now.q plan.now.integrators.quanta i) (lower_in run.now.q plan.now.integrators.quanta i)
        (int_at slopes.now i) run.now.clocks.clock (int_at run.now.x i) (int_at run.now.s i) (nat_at run.now.l i) (nat_at run.now.d i)) plan.now.counts.n }
{
    let clock = run.clocks.clock;
    for i in 0..plan.counts.n {
        let output = run.q[i];
        let quantum = plan.integrators.quanta[i];
        let upper = output + quantum;
        let lower = output - quantum;
        if !figures_sound(
            upper, lower, slopes[i], clock, run.x[i], run.s[i], run.l[i], run.d[i],
        ) {
            return false;
        }
    }
    true
}
