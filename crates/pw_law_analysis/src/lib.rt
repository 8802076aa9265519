//! Laws of the analyser: the call graph of summaries, and what the analyser gives the layers between C and words.
#![tactic(auto)]

pub mod analyser;
pub mod owed;
pub mod summaries;

pub use analyser::{
    coloured_globals_are_covered, databases_are_lawful, databases_are_sound_by_name,
    databases_serve, layers_give_all, named_graphs_say_the_same, roots_keep_registers,
};
pub use owed::{all_laws_compose, analyses_compose};
pub use summaries::{accepted_programs_have_shapes, summaries_say_the_same};
