//! The law of the debugger's command: the debugger tells the truth.
#![tactic(auto)]

pub mod laws;
