// The next instant's tick, and the integrators that are due there.
ghost use Rattle.std.specs.Prelude.{◌≡◌, ◌≤◌, ◌<◌, min};
ghost use Rattle.plan.specs.Numbers.{most_integrators, most_commands};
ghost use Rattle.machine.specs.Entries.{entry_tick};
ghost use Rattle.machine.specs.Next.{least_due};
ghost use Rattle.timing.specs.Soonest.{soonest_at, sooner_of};

use crate::entries::entry_tick;
use crate::ticks::next_tick;
use bitset::{Mask, where_equal};
use plan::{Commands, INTEGRATORS};

// A tick, and the mask of the integrators that are due at it.
#[derive(Clone, Copy)]
pub struct Soonest {
    pub tick: u32,
    pub due: u32,
}

// As many integrators as are quicker looked at one by one.
const FEW: usize = 16;

// With integrator i too, whose due tick is d: where it is due sooner than those before, none of them stays.
#[tactic(auto, unfolding(crate::specs::Soonest::sooner_of))]
fn sooner(soonest: Soonest, i: usize, d: u32) -> Soonest
    requires { i < most_integrators }
    ensures { result ≡ sooner_of soonest i d }
{
    let kept = if d < soonest.tick { 0 } else { soonest.due };
    let tick = soonest.tick.min(d);
    let due = if d == tick { kept.with_bit(i) } else { kept };
    Soonest { tick, due }
}

// The first n integrators in one pass, beside a tick that is there without them.
// By place: the place is what goes into the mask.
fn soonest_of_few(n: usize, d: &[u32; INTEGRATORS], first: u32) -> Soonest
    requires { n ≤ most_integrators }
    ensures { result ≡ soonest_at d.now n (min (least_due d.now n) first) }
{
    let mut soonest = Soonest {
        tick: first,
        due: 0,
    };
    for i in 0..n {
        soonest = sooner(soonest, i, d[i]);
    }
    soonest
}

// "Next instant t: the least of all d and the next command's tick", and "The due integrators (d = t)". Above a few integrators in two passes, the tick first.
#[tactic(auto, unfolding(machine::specs::Reach::is_due))]
pub fn soonest_of(
    commands: &Commands,
    count: usize,
    n: usize,
    d: &[u32; INTEGRATORS],
    next: usize,
) -> Soonest
    requires { (n ≤ most_integrators) × (count ≤ most_commands) }
    ensures { result ≡ soonest_at d.now n (min (least_due d.now n) (entry_tick commands.now.ticks count next)) }
{
    if n <= FEW {
        let first = entry_tick(commands, count, next);
        return soonest_of_few(n, d, first);
    }
    let tick = next_tick(commands, count, n, d, next);
    let due = where_equal(n, d, tick);
    Soonest { tick, due }
}
