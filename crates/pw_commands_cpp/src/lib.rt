//! The command `cpp`: from the text of a C module and the headers of a store to the text that is compiled; and what is told of a C module
//! that a build refuses.
#![tactic(auto)]

mod laws;
mod sources;
mod telling;

pub use laws::{a_source_has_one_output, answers_are_told_in_one_way};
pub use sources::preprocess_module;
pub use telling::{source_output, tell_source};
