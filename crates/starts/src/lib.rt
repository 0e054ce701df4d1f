// "Start: x = q = start, l = c = 0, slopes and dues by rule, counts 0." The parts come from `tables` and `timing`.
#![tactic(auto)]

ghost use Rattle.std.specs.Prelude.{◌≡◌, ◌≤◌};
ghost use Rattle.plan.specs.Numbers.{most_integrators};
ghost use Rattle.plan.specs.Rules.{PlanRules};
ghost use Rattle.plan.specs.Lists.{row};
ghost use Rattle.machine.specs.Start.{start_of};
ghost use Rattle.starts.specs.Starting.{first_due, StartsReady};

use machine::{Clocks, Running};
use plan::{Counts, INTEGRATORS, Integrators, Plan};
use tables::tables_by;
use timing::{due_tick, next_entry};

// The due tick of each integrator at its start.
// By place: four arrays in step, which `zip` would nest.
fn start_dues(
    integrators: &Integrators,
    n: usize,
    slopes: &[i64; INTEGRATORS],
) -> [u32; INTEGRATORS]
    requires { (n ≤ most_integrators) × StartsReady n integrators.now slopes.now }
    ensures { result ≡ row 0 most_integrators n (first_due integrators.now slopes.now) }
{
    let mut dues = [0; INTEGRATORS];
    for i in 0..n {
        let start = integrators.starts[i];
        let upper = start + integrators.quanta[i];
        let lower = start - integrators.quanta[i];
        dues[i] = due_tick(0, start, upper, lower, slopes[i]);
    }
    dues
}

// The running figures that a plan starts with.
pub fn start(plan: &Plan) -> Running
    requires { PlanRules plan.now }
    ensures { result ≡ start_of plan.now }
{
    let Counts { n, commands, .. } = plan.counts;
    let x = plan.integrators.starts;
    let inputs = plan.inputs.firsts;
    let s = tables_by(plan, &x, &inputs).slopes;
    let d = start_dues(&plan.integrators, n, &s);
    let next = next_entry(&plan.commands, commands, 0);
    Running {
        x,
        q: x,
        s,
        l: [0; INTEGRATORS],
        d,
        inputs,
        clocks: Clocks {
            clock: 0,
            next,
            instants: 0,
            updates: 0,
        },
    }
}
