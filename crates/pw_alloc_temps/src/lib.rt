//! Allocation, in definitions: temporaries have registers by weight, and those that get none a word of
//! the frame; a function shares some registers with its cluster.
#![tactic(auto)]

pub mod laws;
