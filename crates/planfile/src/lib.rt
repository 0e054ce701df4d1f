// Reading plan files: the section readers; the plan that a file holds; the refusal of any bytes; and of any bytes the plan or the refusal.
#![tactic(auto)]

mod checking;
mod decoding;
mod readers;
mod reading;

pub use checking::finding_of;
pub use reading::read_plan;
