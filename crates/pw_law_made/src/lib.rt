//! The law of what a debugger knows of a built program: the frames of its functions as they were allocated.
#![tactic(auto)]

pub mod laws;
