//! Lowering of statements, functions and modules.
#![tactic(auto)]

pub mod functions;
pub mod lowering;
pub mod modules;
pub mod statements;

pub use lowering::{Lowering, lower_expr};
pub use modules::lower_module;
pub use pw_lower::LocalPlace;
