//! The words of a command line: which command they say, or that they say none.
#![tactic(auto)]

mod commands;
mod fault;
pub mod laws;
mod numbers;
mod reader;
mod reading;

pub use commands::Command;
pub use fault::WordsFault;
pub use numbers::{DIGITS_LIMIT, number_in};
pub use reading::{
    SEED_LIMIT, STEPS_LIMIT, USUAL_STACK, USUAL_STEPS, command, limits_of_a_command,
};
