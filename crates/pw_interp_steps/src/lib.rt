//! The interpreter's steps that stay in the call of the function that runs: what is done now, and behind it what the call has
//! left to do.
#![tactic(auto)]

mod controls;

pub use controls::{arguments_step, ask_step, do_step, flowed_step, gave_step};
