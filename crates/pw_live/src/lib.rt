//! Liveness and interference in definitions, over the outline of a flow graph: where temporaries are needed, which of them
//! may not share a register, and which are held over calls.
#![tactic(auto)]

pub mod laws;
