//! The command `where`: builds the program of the modules of a store, and shows a call of its run.
#![tactic(auto)]

pub mod laws;
mod showing;

pub use showing::show_call;
