//! Laws of the calls and returns that runs of the source note: with a greater bound, or more room on the stack, they go on
//! from what they were.
#![tactic(auto)]

pub mod laws;
