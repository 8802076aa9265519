//! Laws of code: of selection, placement and the linker's addresses, and of the machine.
#![tactic(auto)]

pub mod code;
pub mod machine;

pub use machine::{
    other_places_stay, runs_keep_lawful_states, stores_are_read, words_of_the_text_stay,
};
