//! What the interpreter's calls share: how a run ends, what does not change in it, and where an expression or a statement
//! stands.
#![tactic(auto)]

pub mod ending;
pub mod env;
pub mod world;

pub use ending::{Ending, Stop};
pub use env::Env;
pub use world::World;
