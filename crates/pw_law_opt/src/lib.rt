//! Laws of optimised flow graphs, without code: their runs do what the runs of the flow graphs do, and their frames have the
//! same bounds.
#![tactic(auto)]

pub mod laws;
