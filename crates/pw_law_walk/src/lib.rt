//! The law of the debugger's walk: it finds each global object where the runs of the machine say that it stands.
#![tactic(auto)]

pub mod laws;
