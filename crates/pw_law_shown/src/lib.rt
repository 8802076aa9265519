//! Laws of what modules show to linking: their flow graphs, their summaries and their objects come to the same.
#![tactic(auto)]

mod linking;

pub use linking::{
    flow_graphs_and_summaries_are_refused_alike, objects_show_their_modules,
    summaries_and_objects_are_refused_alike,
};
