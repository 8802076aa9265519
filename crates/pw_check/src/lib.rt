//! The checker of a module (C90 6.1 to 6.7): its typed tree, or its first fault.
#![tactic(auto)]

mod modules;

pub use modules::check;
pub use pw_check_walk::{CheckFault, CheckKind, Which};
