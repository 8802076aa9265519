//! The registers that a function shares with others, as a database's file has them, read and written.
#![tactic(auto)]

mod reading;
mod writing;

pub use reading::{Sharing, read_sharing};
pub use writing::push_sharing;
