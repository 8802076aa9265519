//! The checker's rules of postfix operators (C90 6.3.2): subscripts, calls and members.
#![tactic(auto)]

pub mod calls;
pub mod members;
pub mod subscripts;

pub use calls::call_rule;
pub use members::{arrow_rule, dot_rule};
pub use subscripts::index_rule;
