// What a file holds, once its directory keeps its rules: its horizon, its counts and its plan.
ghost use Rattle.std.specs.Prelude.{◌≡◌, ◌≤◌, length};
ghost use Rattle.plan.specs.Numbers.{header_bytes};
ghost use Rattle.plan.specs.Format.{horizon_in, plan_in};
ghost use Rattle.plan.specs.Rules.{CountsRule};
ghost use Rattle.directory.specs.Directory.{Directory};

use crate::readers::{read_commands, read_inputs, read_integrators, read_links, read_nodes};
use directory::{count_in, section_in};
use plan::{
    Counts, Plan, SECTION_COMMANDS, SECTION_INPUTS, SECTION_INTEGRATORS, SECTION_LINKS,
    SECTION_NODES,
};
use words::read_u32;

// The header's first word.
#[tactic(auto, unfolding(plan::specs::Format::horizon_in))]
pub fn horizon_in(file: &[u8]) -> u32
    requires { header_bytes ≤ length file.now }
    ensures { result ≡ horizon_in file.now }
{
    read_u32(file, 0) as u32
}

// How many entries each section has.
#[tactic(auto, unfolding(plan::specs::Format::plan_in))]
pub fn counts_in(file: &[u8]) -> Counts
    requires { Directory file.now }
    ensures { result ≡ (plan_in file.now).counts }
{
    Counts {
        n: count_in(file, SECTION_INTEGRATORS),
        m: count_in(file, SECTION_INPUTS),
        k: count_in(file, SECTION_NODES),
        links: count_in(file, SECTION_LINKS),
        commands: count_in(file, SECTION_COMMANDS),
    }
}

// Each section is handed to its reader as a part of the file.
pub fn decode(file: &[u8]) -> Plan
    requires { Directory file.now }
    ensures answer { result ≡ plan_in file.now }
    ensures counts { CountsRule result }
{
    let counts = counts_in(file);
    Plan {
        horizon: horizon_in(file),
        counts,
        integrators: read_integrators(section_in(file, SECTION_INTEGRATORS), counts.n),
        inputs: read_inputs(section_in(file, SECTION_INPUTS), counts.m),
        nodes: read_nodes(section_in(file, SECTION_NODES), counts.k),
        links: read_links(section_in(file, SECTION_LINKS), counts.links),
        commands: read_commands(section_in(file, SECTION_COMMANDS), counts.commands),
    }
}
