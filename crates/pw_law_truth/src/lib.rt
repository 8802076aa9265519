//! The law of what the debugger's lines say: at each call of a defined program they are true of it.
#![tactic(auto)]

pub mod laws;
