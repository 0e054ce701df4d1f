// The checks of a plan, document 01's refusals 4 to 9: each goes through its section from entry 0 and answers the first fault. They ask that the
// counts are inside their limits, so that every index stays inside its array and every sum inside its type.
// Five loops of one shape: one over closures would say in its contract what each test answers, and `find` with a `match` is no plainer.
ghost use Rattle.std.specs.Prelude.{◌≡◌, ◌+◌, ◌≤◌};
ghost use Rattle.plan.specs.Numbers.{most_integrators, most_inputs, most_nodes, most_links, most_commands};
ghost use Rattle.plan.specs.Tests.{horizon_kept};
ghost use Rattle.plan.specs.Rules.{CountsRule};
ghost use Rattle.plan.specs.Refusals.{unless, plan_finding};
ghost use Rattle.plan.specs.declared.Refusal.TheVariants.{Horizon};
ghost use Rattle.planrules.specs.Checks.{integrators_check, inputs_check, nodes_check, links_check, commands_check};

use entryrules::{
    command_ascends, command_limits_test, horizon_kept, integrator_test, link_ascends,
    link_limits_test, node_test, value_within_m,
};
use plan::{Commands, Inputs, Integrators, Links, Nodes, Plan, Refusal};

// Refusal 4, the horizon.
fn check_horizon(horizon: u32) -> Result<(), Refusal>
    ensures { result ≡ unless (horizon_kept horizon) Horizon }
{
    if horizon_kept(horizon) {
        Ok(())
    } else {
        Err(Refusal::Horizon)
    }
}

// Refusal 5, the integrators.
pub fn check_integrators(integrators: &Integrators, n: usize) -> Result<(), Refusal>
    requires { n ≤ most_integrators }
    ensures { result ≡ integrators_check n integrators.now.starts integrators.now.quanta }
{
    for i in 0..n {
        if !integrator_test(integrators.starts[i], integrators.quanta[i]) {
            return Err(Refusal::Integrator(i));
        }
    }
    Ok(())
}

// Refusal 6, the inputs.
pub fn check_inputs(inputs: &Inputs, m: usize) -> Result<(), Refusal>
    requires { m ≤ most_inputs }
    ensures { result ≡ inputs_check m inputs.now.firsts }
{
    for j in 0..m {
        if !value_within_m(inputs.firsts[j]) {
            return Err(Refusal::Input(j));
        }
    }
    Ok(())
}

// Refusal 7, the nodes. `base` is n + m, the source number of node 0.
pub fn check_nodes(nodes: &Nodes, base: usize, k: usize) -> Result<(), Refusal>
    requires { (base ≤ most_integrators + most_inputs) × (k ≤ most_nodes) }
    ensures { result ≡ nodes_check base k nodes.now.kinds nodes.now.a nodes.now.b nodes.now.lows nodes.now.highs }
{
    for j in 0..k {
        let kept = node_test(
            base + j,
            nodes.kinds[j],
            nodes.a[j],
            nodes.b[j],
            nodes.lows[j],
            nodes.highs[j],
        );
        if !kept {
            return Err(Refusal::Node(j));
        }
    }
    Ok(())
}

// Refusal 8, the links. `all` is n + m + k, the number of sources.
pub fn check_links(links: &Links, n: usize, all: usize, count: usize) -> Result<(), Refusal>
    requires { count ≤ most_links }
    ensures { result ≡ links_check n all count links.now.targets links.now.sources links.now.coefficients }
{
    for e in 0..count {
        if !link_limits_test(
            n,
            all,
            links.targets[e],
            links.sources[e],
            links.coefficients[e],
        ) {
            return Err(Refusal::Link(e));
        }
        if !link_ascends(links, e) {
            return Err(Refusal::Link(e));
        }
    }
    Ok(())
}

// Refusal 9, the commands.
pub fn check_commands(
    commands: &Commands,
    horizon: u32,
    m: usize,
    count: usize,
) -> Result<(), Refusal>
    requires { count ≤ most_commands }
    ensures { result ≡ commands_check horizon m count commands.now.ticks commands.now.inputs commands.now.values }
{
    for e in 0..count {
        if !command_limits_test(
            horizon,
            m,
            commands.ticks[e],
            commands.inputs[e],
            commands.values[e],
        ) {
            return Err(Refusal::Command(e));
        }
        if !command_ascends(commands, e) {
            return Err(Refusal::Command(e));
        }
    }
    Ok(())
}

// The refusals 4 to 9 of a plan whose counts are inside their limits, tried in order. Each answer is taken apart by `let .. else` before the next check, and
// not by `?`: document 01 names that form.
#[tactic(auto, using(crate::proofs::Laws::Findings::stages), unfolding(plan::specs::Refusals::or_else))]
pub fn check_plan(plan: &Plan) -> Result<(), Refusal>
    requires { CountsRule plan.now }
    ensures { result ≡ plan_finding plan.now }
{
    let counts = plan.counts;
    let base = counts.n + counts.m;
    let found = check_horizon(plan.horizon);
    let Ok(()) = found else {
        return found;
    };
    let found = check_integrators(&plan.integrators, counts.n);
    let Ok(()) = found else {
        return found;
    };
    let found = check_inputs(&plan.inputs, counts.m);
    let Ok(()) = found else {
        return found;
    };
    let found = check_nodes(&plan.nodes, base, counts.k);
    let Ok(()) = found else {
        return found;
    };
    let found = check_links(&plan.links, counts.n, base + counts.k, counts.links);
    let Ok(()) = found else {
        return found;
    };
    check_commands(&plan.commands, plan.horizon, counts.m, counts.commands)
}
