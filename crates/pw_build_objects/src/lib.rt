//! The build's objects: from the flow graphs of modules to their program, the database of the modules, the object of
//! each, which may be one that was kept, and the linked image.
#![tactic(auto)]

mod analysing;
mod forms;
pub mod laws;
mod making;
mod objects;
mod remade;
mod shown;
mod steps;

pub use making::{Built, complete};
pub use remade::Made;
pub use steps::Steps;
