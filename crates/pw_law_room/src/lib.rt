//! The law of the stack: in a placed run the functions that are active have room on it.
#![tactic(auto)]

pub mod laws;
