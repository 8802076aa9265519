//! The checker's rules of declared objects, each with its initialiser (C90 6.5.7, 6.7.2).
#![tactic(auto)]

pub mod globals;
pub mod locals;
pub mod statics;

pub use globals::{global_rule, linked_only};
pub use locals::local_rule;
pub use statics::static_rule;
