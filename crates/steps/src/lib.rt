// The steps of one instant that set outputs and inputs and write its events. The step that moves integrators is the crate `moves`.
#![tactic(auto)]

mod entries;
mod events;
mod outputs;

pub use entries::{Obeyed, obey_entries};
pub use events::write_events;
pub use outputs::set_outputs;
