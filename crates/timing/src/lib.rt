// Due ticks, positions, the next instant's tick and command, and the status.
#![tactic(auto)]

mod entries;
mod soonest;
mod status;
mod ticks;

pub use entries::{entry_tick, next_entry};
pub use soonest::{Soonest, soonest_of};
pub use status::status_at;
pub use ticks::{due_tick, due_tick_zero_first, position, position_at};
