//! Constants and strings: their values, types and bytes (C90 6.1.3, 6.1.4).
#![tactic(auto)]

mod characters;
mod integers;

pub use characters::{character_constant, push_characters};
pub use integers::{IntegerConstant, integer_constant};
pub use std::alloc::AllocError as NoMemory;
