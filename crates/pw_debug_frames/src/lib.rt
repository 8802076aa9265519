//! What the debugger knows of the functions of a program's objects: their frames, what they save and where, and their webs.
#![tactic(auto)]

mod knowing;
pub mod laws;
mod reading;
mod saving;

pub use knowing::frames;
pub use saving::save_places;
