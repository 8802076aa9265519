//! The parser of C90 as a function on lists of tokens, and its laws.
#![tactic(auto)]

mod laws;
mod place;
mod word;

pub use laws::{
    one_fault, one_tree, one_tree_but_for_numbers, reading_is_exact, what_is_read_is_written,
    what_is_written_is_read, where_reading_stops,
};
pub use place::Place;
pub use word::SpecifierWord;
