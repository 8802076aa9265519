//! Programs made from a number, for measuring: modules whose functions count in the globals of one another, and a main.
#![tactic(auto)]

mod functions;
mod modules;

pub use functions::{FUNCTIONS, functions_of_a_module};
pub use modules::generate;
