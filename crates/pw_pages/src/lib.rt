//! The machine's memory: pages of words, which is a list of bytes to those who use it.
#![tactic(auto)]

mod pages;
mod parts;

pub use pages::{PAGE_BYTES, Pages};
