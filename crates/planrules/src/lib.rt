// The section checks of a plan, refusals 4 to 9, and document 01's number and entry of a finding. Reading a plan file and testing a plan that was
// filled by hand use the same checks.
#![tactic(auto)]

mod checks;
mod findings;

pub use checks::{
    check_commands, check_inputs, check_integrators, check_links, check_nodes, check_plan,
};
pub use findings::{entry_of, number_of};
