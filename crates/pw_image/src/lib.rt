//! The image file of a linked program: what a machine starts with, and the map of its names.
#![tactic(auto)]

mod image;
pub mod laws;
mod load;
mod reading;
mod writing;

pub use image::{DataItem, Function, GlobalObject, Image, Memory, data_start};
pub use load::{LoadError, Map, read_map};
pub use reading::{KIND, VERSION, read_image};
pub use writing::write_image;
