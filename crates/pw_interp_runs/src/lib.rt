//! Runs of linked modules by the meaning of C, and what they are answered as.
#![tactic(auto)]

mod answers;
mod programs;
mod running;

pub use answers::with_line;
pub use running::run_linked;
