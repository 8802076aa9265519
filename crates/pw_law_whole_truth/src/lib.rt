//! The law of what the debugger's lines say of full builds: they are true of the texts' program.
#![tactic(auto)]

pub mod laws;
