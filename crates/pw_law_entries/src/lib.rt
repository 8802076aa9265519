//! Laws of a linked program's entries: the addresses at which a debugger counts calls.
#![tactic(auto)]

pub mod laws;
