//! Laws of optimised modules and the rules of linking, without code.
#![tactic(auto)]

pub mod laws;
