//! What the debugger shows of a program at its k-th call: the call, and the value of each global that is a number.
#![tactic(auto)]

mod entries;
pub mod laws;
mod lines;
mod looking;
mod numbers;
mod running;
mod shown;

pub use looking::{Look, look_at_call};
