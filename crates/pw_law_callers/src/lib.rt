//! Laws of the functions that are active at a call: they stand one behind another as the debugger's walk meets them.
#![tactic(auto)]

pub mod laws;
