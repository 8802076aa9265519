//! Laws of the debugger's calls: they are those that the machine's trace notes.
#![tactic(auto)]

pub mod laws;
