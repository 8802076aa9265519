//! Placement: from the lines of a function's code to its words and relocations.
#![tactic(auto)]

mod code;
mod filling;
mod items;
pub mod laws;
mod laying;
mod marking;
mod placing;
mod registers;
mod slotting;

pub use code::Code;
pub use items::{Item, Relocation, Turn, Word};
pub use marking::Blocks;
pub use placing::{FUNCTION_WORD_LIMIT, SHORT_LIMIT, limits_of_code, place};
pub use slotting::copy_symbol;
