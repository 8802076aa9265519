//! The database of directives: which globals each function keeps in which registers, and which registers it shares with
//! others.
#![tactic(auto)]

mod choosing;
mod database;
pub mod laws;
pub mod limits;

pub use choosing::of_module;
pub use database::{Database, Directives, FIRST, KIND, Role, VERSION, Web};
pub use limits::{COLOUR_LIMIT, FIRST_REGISTER, LAST_REGISTER, LAST_TEMPORARY};
