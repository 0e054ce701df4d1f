// The running figures of a state whose plan keeps its rules.
ghost use Rattle.std.specs.Prelude.{◌≡◌, ◌≤◌, length};
ghost use Rattle.integers.specs.Range.{within};
ghost use Rattle.plan.specs.Numbers.{M};
ghost use Rattle.plan.specs.Lists.{int_at, every};
ghost use Rattle.plan.specs.Rules.{PlanRules};
ghost use Rattle.soundness.specs.Testing.{running_tested_of};

use crate::Tested;
use entryrules::value_within_m;
use machine::Running;
use plan::Plan;
use soundintegrators::integrators_sound;
use tables::{Tables, tables_by};
use timing::next_entry;
use unusedentries::running_unused_zero;

// "|q| ≤ M", and "inputs are within ±M".
fn values_within_m(values: &[i64], count: usize) -> bool
    requires { count ≤ length values.now }
    ensures { result ≡ every (λ i. within M (int_at values.now i)) count }
{
    (0..count).all(|i| value_within_m(values[i]))
}

// "c ≤ horizon; .. the next command is the first with tick above c, or the command count if none; instants ≤ c; updates ≤ n×instants"; the other clauses
// are those of the functions called. Outputs and inputs are bounded before a rate is worked out from them, and the instants by the clock before they are
// multiplied.
pub fn running_tested(plan: &Plan, run: &Running) -> Option<Tested>
    requires { PlanRules plan.now }
    ensures { result ≡ running_tested_of plan.now run.now }
{
    let n = plan.counts.n;
    let m = plan.counts.m;
    let clock = run.clocks.clock;
    let next = run.clocks.next;
    let instants = run.clocks.instants;
    let updates = run.clocks.updates;
    if clock > plan.horizon {
        return None;
    }
    if !values_within_m(&run.q, n) {
        return None;
    }
    if !values_within_m(&run.inputs, m) {
        return None;
    }
    let tables = tables_by(plan, &run.q, &run.inputs);
    if !integrators_sound(plan, &tables.slopes, run) {
        return None;
    }
    if next != next_entry(&plan.commands, plan.counts.commands, clock) {
        return None;
    }
    if instants > u64::from(clock) {
        return None;
    }
    if updates > (n as u64) * instants {
        return None;
    }
    if !running_unused_zero(run, n, m) {
        return None;
    }
    let Tables { ranges, values, .. } = tables;
    Some(Tested { ranges, values })
}
