//! Clusters of functions in definitions: which functions work for one other alone, and which registers that one saves for
//! them.
#![tactic(auto)]

pub mod laws;
