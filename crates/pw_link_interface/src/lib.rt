//! The interface of an object file: what a module as words shows to the others of its program.
#![tactic(auto)]

mod mains;
mod names;
mod objects;
mod used;

pub use objects::interfaces;
pub use pw_object::{Object, ObjectFn};
