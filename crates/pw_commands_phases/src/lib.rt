//! The commands `phase1` and `phase2`: from a module's text to its flow graph and summary, and from its flow graph and
//! the database to its object.
#![tactic(auto)]

mod files;
mod flows;
mod sources;
mod texts;

pub use flows::compile_flow;
pub use sources::compile_text;
