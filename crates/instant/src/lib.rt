// One instant of the machine, lazy or eager, made of its steps.
#![tactic(auto)]

mod instants;

pub use instants::{Taken, take_instant};
