//! The test whether a flow graph is lawful.
#![tactic(auto)]

mod distinct;
mod names;
mod valid;

pub use valid::is_valid;
