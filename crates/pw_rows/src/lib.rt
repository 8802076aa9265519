//! Programs over tables of rows: each line of the input is a row, and what a program answers to it is put out. The answers
//! stand in one text that remembers whether memory was refused, so that no piece of them is a place to leave a function.
#![tactic(auto)]

mod table;
mod text;

pub use table::{Program, answer_rows};
pub use text::Text;
