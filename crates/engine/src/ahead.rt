// What lies ahead of a state: the next instant's tick, the integrators that are due there, and the status.
ghost use Rattle.std.specs.Prelude.{◌≡◌};
ghost use Rattle.engine.specs.Ahead.{ahead_of, AheadReady};

use machine::{Motion, Status};
use plan::{Counts, Plan};
use timing::{soonest_of, status_at};

#[derive(Clone, Copy)]
pub struct Ahead {
    pub tick: u32,
    pub due: u32,
    pub status: Status,
}

pub fn look_ahead(plan: &Plan, motion: &Motion, next: usize) -> Ahead
    requires { AheadReady plan.now motion.now next }
    ensures { result ≡ ahead_of plan.now motion.now next }
{
    let Counts { n, commands, .. } = plan.counts;
    let soonest = soonest_of(&plan.commands, commands, n, &motion.d, next);
    let status = status_at(plan.horizon, n, soonest.tick, soonest.due, motion);
    Ahead {
        tick: soonest.tick,
        due: soonest.due,
        status,
    }
}
