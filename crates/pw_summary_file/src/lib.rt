//! The summary file of a module, read and written.
#![tactic(auto)]

pub mod laws;
mod names;
mod reading;
mod writing;

pub use reading::read;
pub use writing::write;
