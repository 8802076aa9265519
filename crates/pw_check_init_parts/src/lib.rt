//! Which part of an object an initialiser is for, and what single values and strings give to it.
#![tactic(auto)]

pub mod cursor;
mod filled;
mod forms;
mod items;
pub mod parts;
pub mod reaching;
mod strings;

pub use cursor::{elements_given, innermost, next_target, passed, takes_braces, within_braces};
pub use filled::{Context, Filled, value_filled};
pub use forms::{braced_string, filling_string, string_form};
pub use parts::{Frame, Target, frame_of, has_part, next_part, one_on};
pub use reaching::{Reached, Takes, behind, meets_characters, reach};
pub use strings::{bytes_filled, string_filled};
