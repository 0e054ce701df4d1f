// The sections of a plan, a function for each: "its plan keeps all rules above", which for a section is that its check finds no fault, and
// "unused entries are 0". They ask that the counts are inside their limits.
// Five of one shape: each section has columns of its own, so a trait of the sections would state the same five contracts.
ghost use Rattle.std.specs.Prelude.{◌≡◌, ◌+◌, ◌≤◌};
ghost use Rattle.plan.specs.Numbers.{most_integrators, most_inputs, most_nodes, most_links, most_commands};
ghost use Rattle.soundplan.specs.Sections.{integrators_kept, inputs_kept, nodes_kept, links_kept, commands_kept};

use plan::{Commands, Inputs, Integrators, Links, Nodes};
use planrules::{check_commands, check_inputs, check_integrators, check_links, check_nodes};
use unusedentries::zero_from;

// The integrators, by refusal 5.
#[tactic(auto, unfolding(crate::specs::Sections::integrators_kept, plan::specs::Refusals::is_clean))]
pub fn integrators_kept(integrators: &Integrators, n: usize) -> bool
    requires { n ≤ most_integrators }
    ensures { result ≡ integrators_kept n integrators.now.starts integrators.now.quanta }
{
    check_integrators(integrators, n).is_ok()
        && zero_from(&integrators.starts, n)
        && zero_from(&integrators.quanta, n)
}

// The inputs, by refusal 6.
#[tactic(auto, unfolding(crate::specs::Sections::inputs_kept, plan::specs::Refusals::is_clean))]
pub fn inputs_kept(inputs: &Inputs, m: usize) -> bool
    requires { m ≤ most_inputs }
    ensures { result ≡ inputs_kept m inputs.now.firsts }
{
    check_inputs(inputs, m).is_ok() && zero_from(&inputs.firsts, m)
}

// The nodes, by refusal 7. `base` is n + m, the source number of node 0.
#[tactic(auto, unfolding(crate::specs::Sections::nodes_kept, plan::specs::Refusals::is_clean))]
pub fn nodes_kept(nodes: &Nodes, base: usize, k: usize) -> bool
    requires { (base ≤ most_integrators + most_inputs) × (k ≤ most_nodes) }
    ensures { result ≡ nodes_kept base k nodes.now.kinds nodes.now.a nodes.now.b nodes.now.lows nodes.now.highs }
{
    check_nodes(nodes, base, k).is_ok()
        && zero_from(&nodes.kinds, k)
        && zero_from(&nodes.a, k)
        && zero_from(&nodes.b, k)
        && zero_from(&nodes.lows, k)
        && zero_from(&nodes.highs, k)
}

// The links, by refusal 8. `all` is n + m + k, the number of sources.
#[tactic(auto, unfolding(crate::specs::Sections::links_kept, plan::specs::Refusals::is_clean))]
pub fn links_kept(links: &Links, n: usize, all: usize, count: usize) -> bool
    requires { count ≤ most_links }
    ensures { result ≡ links_kept n all count links.now.targets links.now.sources links.now.coefficients }
{
    check_links(links, n, all, count).is_ok()
        && zero_from(&links.targets, count)
        && zero_from(&links.sources, count)
        && zero_from(&links.coefficients, count)
}

// The commands, by refusal 9.
#[tactic(auto, unfolding(crate::specs::Sections::commands_kept, plan::specs::Refusals::is_clean))]
pub fn commands_kept(commands: &Commands, horizon: u32, m: usize, count: usize) -> bool
    requires { count ≤ most_commands }
    ensures { result ≡ commands_kept horizon m count commands.now.ticks commands.now.inputs commands.now.values }
{
    check_commands(commands, horizon, m, count).is_ok()
        && zero_from(&commands.ticks, count)
        && zero_from(&commands.inputs, count)
        && zero_from(&commands.values, count)
}
