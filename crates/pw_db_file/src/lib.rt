//! The file of a database of directives, and the payload alone, read and written.
#![tactic(auto)]

pub mod laws;
mod names;
mod reading;
mod seen;
mod storing;
mod writing;

pub use reading::{read, read_payload};
pub use storing::payload;
pub use writing::{write, write_functions};
