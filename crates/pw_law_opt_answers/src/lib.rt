//! A law of optimised forms, without code: each module has one.
#![tactic(auto)]

pub mod laws;
