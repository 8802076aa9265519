//! The command `interp`: builds the program of the modules of a store without a put, and runs the modules by the meaning of C.
#![tactic(auto)]

mod interpreting;
pub mod laws;
mod telling;

pub use interpreting::interpret_modules;
