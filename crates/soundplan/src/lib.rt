// "its plan keeps all rules above", and its "unused entries are 0": the plan's part of a sound state.
#![tactic(auto)]

mod sections;

ghost use Rattle.std.specs.Prelude.{◌≡◌};
ghost use Rattle.machine.specs.SoundTest.{plan_sound};

use crate::sections::{commands_kept, inputs_kept, integrators_kept, links_kept, nodes_kept};
use entryrules::{counts_kept, horizon_kept};
use plan::Plan;

// It asks nothing of the plan: the counts are tested first, so that the sections are handed limited ones; then there is one call for each
// section.
#[tactic(auto, using(crate::proofs::Laws::SectionTests::plan_tests))]
pub fn plan_sound(plan: &Plan) -> bool
    ensures { result ≡ plan_sound plan.now }
{
    let counts = plan.counts;
    let n = counts.n;
    let m = counts.m;
    let k = counts.k;
    if !counts_kept(&counts.in_order()) {
        return false;
    }
    // Node 0 has the source number `base`, and there are `all` sources.
    let base = n + m;
    let all = base + k;
    horizon_kept(plan.horizon)
        && integrators_kept(&plan.integrators, n)
        && inputs_kept(&plan.inputs, m)
        && nodes_kept(&plan.nodes, base, k)
        && links_kept(&plan.links, n, all, counts.links)
        && commands_kept(&plan.commands, plan.horizon, m, counts.commands)
}
