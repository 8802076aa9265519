//! The law of bytes: at each call of a program each global object has as many bytes as its type, of eight bits each.
#![tactic(auto)]

pub mod laws;
