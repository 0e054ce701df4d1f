// The tables that a run looks things up in, and the slopes by them. They are worked out once in a call, by one function.
#![tactic(auto)]

ghost use Rattle.std.specs.Prelude.{◌≡◌};
ghost use Rattle.tables.specs.Columns.{tables_by, TablesReady};

use plan::{Counts, INPUTS, INTEGRATORS, Plan, SOURCES};
use rates::{RANGES, link_ranges, rates};
use values::source_values;

// Where each integrator's links begin, the value of each source, and the slope of each integrator.
#[derive(Clone, Copy)]
pub struct Tables {
    pub ranges: [usize; RANGES],
    pub values: [i64; SOURCES],
    pub slopes: [i64; INTEGRATORS],
}

// The tables of a plan with the outputs q and these input values.
#[tactic(auto, unfolding(rates::specs::Links::ranges_of))]
pub fn tables_by(plan: &Plan, q: &[i64; INTEGRATORS], inputs: &[i64; INPUTS]) -> Tables
    requires { TablesReady plan.now q.now inputs.now }
    ensures { result ≡ tables_by plan.now q.now inputs.now }
{
    let Counts { n, links, .. } = plan.counts;
    let ranges = link_ranges(&plan.links, n, links);
    let values = source_values(plan, q, inputs);
    let slopes = rates(&plan.links, n, &ranges, &values);
    Tables {
        ranges,
        values,
        slopes,
    }
}
