//! Laws of linked programs, without code: the image is lawful, words and data stand at their addresses, and the
//! machine's memory holds them at the start.
#![tactic(auto)]

pub mod laws;
