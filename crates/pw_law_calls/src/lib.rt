//! Laws of the debugger's calls: they are the program's own, and the values at them are those of its objects.
#![tactic(auto)]

pub mod laws;
