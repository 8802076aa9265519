//! The optimiser of flow graphs: constants, copies and operations that nothing needs.
#![tactic(auto)]

mod again;
mod functions;
mod laws;
mod modules;

pub use laws::optimised_forms_are_one;
pub use modules::optimise;
