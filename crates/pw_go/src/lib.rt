//! The command `go`: builds the program of the modules of a store, and runs it.
#![tactic(auto)]

mod going;
pub mod laws;

pub use going::go;
