//! A test of the runs from flow graphs to words: small programs, whose runs are computed by their definitions.
#![tactic(auto)]
