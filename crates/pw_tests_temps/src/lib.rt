//! A test of allocation: small functions, whose weights, interference and registers are computed by their
//! definitions.
#![tactic(auto)]
