//! Operations of flow graphs on words that are known: the word that comes of them, or that anything may.
#![tactic(auto)]

mod words;

pub use words::{of_binary, of_extension, of_unary};
