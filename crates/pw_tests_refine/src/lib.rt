//! A test of lowering's promises: a small program, on which they are computed by their definitions.
#![tactic(auto)]
