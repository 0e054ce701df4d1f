// "Status is read from the state": by the next instant's tick and the values that due integrators would take there.
ghost use Rattle.std.specs.Prelude.{◌≡◌, ◌^◌, ◌≤◌, ◌<◌};
ghost use Rattle.plan.specs.Numbers.{most_integrators};
ghost use Rattle.plan.specs.Lists.{first_from};
ghost use Rattle.machine.specs.Status.{status_by};
ghost use Rattle.timing.specs.Status.{bars_in, DuePositionsReady};

use crate::ticks::position_at;
use bitset::Mask;
use machine::{Motion, State, Status};

// The lowest of the due integrators whose value at t is beyond ±M, or n. n for none and no `Option`: the clause of `status_at` has it so, by `first_from`.
fn lowest_barring(n: usize, t: u32, due: u32, motion: &Motion) -> usize
    requires { (n ≤ most_integrators) × (due < 2 ^ n) × DuePositionsReady t due motion.now.x motion.now.s motion.now.l }
    ensures { result ≡ first_from (bars_in t due motion.now.x motion.now.s motion.now.l) 0 n }
{
    for i in due.members() {
        let value = position_at(motion, i, t);
        if !(-State::M..=State::M).contains(&value) {
            return i;
        }
    }
    n
}

// "1 finished if t is never or above the horizon; else 2 range if step 1 bars the instant (with the lowest such integrator); else 0 paused."
#[tactic(auto, unfolding(machine::specs::Status::status_by))]
pub fn status_at(horizon: u32, n: usize, t: u32, due: u32, motion: &Motion) -> Status
    requires { (n ≤ most_integrators) × (due < 2 ^ n) × ((t ≤ horizon) → DuePositionsReady t due motion.now.x motion.now.s motion.now.l) }
    ensures { result ≡ status_by horizon n t (first_from (bars_in t due motion.now.x motion.now.s motion.now.l) 0 n) }
{
    if t == State::NEVER {
        return Status::Finished;
    }
    if t > horizon {
        return Status::Finished;
    }
    let lowest = lowest_barring(n, t, due, motion);
    if lowest < n {
        return Status::Range(lowest);
    }
    Status::Paused
}
