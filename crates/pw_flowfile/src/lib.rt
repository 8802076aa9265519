//! The flow file: a flow graph as bytes, read and written.
#![tactic(auto)]

mod globals;
mod graphs;
pub mod laws;
mod met;
mod reading;
mod used;
mod writing;

pub use globals::read_global_body;
pub use reading::{KIND, VERSION, read};
pub use used::add_globals;
pub use writing::{push_global, push_global_body, write};
