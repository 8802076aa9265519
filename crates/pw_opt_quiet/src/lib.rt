//! Global objects of a module whose reading nobody sees, and operations that do no more than define a temporary.
#![tactic(auto)]

mod quiet;

pub use quiet::Quiet;
