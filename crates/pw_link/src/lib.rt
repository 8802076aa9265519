//! Linking: from object files to an image, as a plain function.
#![tactic(auto)]

mod data;
mod image;
mod layout;
mod linking;
mod order;
mod sites;
mod text;
mod words;

pub use linking::{link, link_checked, link_each};
