//! Laws of the machine's calls: the run of lines enters the function that is called, in a state that the machine shows.
#![tactic(auto)]

pub mod laws;
