//! The outlines of flow graphs: what liveness needs of them.
#![tactic(auto)]

pub mod laws;
mod outline;

pub use outline::{
    act_of, end_uses, few, numbers, op_calls, op_defines, op_uses, outline_of, successors,
};
