//! Laws of lowering: what the flow graphs of functions and of modules keep, as the contracts of functions that do
//! nothing.
#![tactic(auto)]

pub mod functions;
pub mod modules;

pub use functions::{frames_fit, functions_are_lawful, functions_stay_in_range, later_code_keeps};
pub use modules::modules_are_lawful;
