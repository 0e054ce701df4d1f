// Runs: what lies ahead of a state, and the loop that takes instants.
#![tactic(auto)]

mod ahead;
mod runs;

pub use ahead::{Ahead, look_ahead};
pub use runs::{Ended, run};
