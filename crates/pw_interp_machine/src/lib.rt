//! The interpreter's machine: a run of a C program, a step at a time, with what is left to do on the heap, so that neither
//! calls nor phrases of the program nest in calls of the machine.
#![tactic(auto)]

mod calls;
mod machine;
mod results;
mod runs;
mod settling;
mod steps;
mod streams;

pub use machine::Machine;
pub use runs::start;
pub use steps::step;
pub use streams::{receive, sent, transfer_of};
