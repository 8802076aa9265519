//! Laws of delay slots, without code: a word that moves into the slot of a branch does there what it does before it, and so
//! the run of items with filled slots does what the run of the items does.
#![tactic(auto)]

mod runs;
mod turns;
mod words;

pub use runs::{filling_keeps_runs, placement_keeps_runs};
pub use turns::{
    filled_items_lead_alike, filled_programs_name_alike, loops_go_over_words, turns_take_words,
};
pub use words::{
    moved_words_go_on, settled_words_move_alike, words_keep_registers, words_pass_registers,
};
