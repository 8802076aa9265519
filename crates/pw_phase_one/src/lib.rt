//! The first phase of the compiler: from a module's text to its flow graph.
#![tactic(auto)]

pub mod laws;
mod phase;

pub use phase::{PhaseError, phase_one, phase_typed};
