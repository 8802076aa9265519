//! Laws of linking, without code: the machine does at each item what the run of lines does.
#![tactic(auto)]

pub mod laws;
