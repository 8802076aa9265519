//! The top call: what the program `pawc` does with its words, its store and its streams.
#![tactic(auto)]

pub mod laws;
mod top;

pub use pw_law_session::full_builds_have_a_program;
pub use pw_top_answer::{Answer, status};
pub use top::pawc_top;
