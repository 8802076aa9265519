//! The law of return addresses: of a linked program the debugger knows the function in whose words a call returns.
#![tactic(auto)]

pub mod laws;
