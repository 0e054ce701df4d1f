// 1. "The due integrators (d = t) take q = x+s×(t−l)."
ghost use Rattle.std.specs.Prelude.{◌≡◌};
ghost use Rattle.bitset.specs.Mask.{has, each};
ghost use Rattle.timing.specs.Status.{DuePositionsReady};
ghost use Rattle.steps.specs.Outputs.{after_output};

use bitset::Mask;
use machine::Motion;
use plan::SOURCES;
use timing::position_at;

// An output stands in `values` at its source number, which is the integrator's.
pub fn set_outputs(t: u32, due: u32, motion: &Motion, values: &mut [i64; SOURCES])
    requires { DuePositionsReady t due motion.now.x motion.now.s motion.now.l }
    ensures { values.new ≡ each (after_output t motion.now.x motion.now.s motion.now.l) (has due) 32 values.old }
{
    for i in due.members() {
        values[i] = position_at(motion, i, t);
    }
}
