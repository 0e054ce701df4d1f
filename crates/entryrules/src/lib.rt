// The rules of a plan's parts in code: the limits of the counts, and the rule of one entry of each section. The section checks and the reader of
// a file's directory stand on them, and so does the test of a state that was filled by hand.
#![tactic(auto)]

mod entries;
mod layout;

pub use entries::{
    command_ascends, command_limits_test, horizon_kept, integrator_test, link_ascends,
    link_limits_test, node_test, value_within_m,
};
pub use layout::{count_kept, counts_kept, entry_size};
