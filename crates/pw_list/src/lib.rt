//! The text of programs and databases, for the commands that show them.
#![tactic(auto)]

mod database;
pub mod laws;
mod lines;
mod programs;
mod sharing;

pub use database::db_text;
pub use programs::{image_text, listing};
