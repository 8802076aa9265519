//! A `Vec` and a `Box` that contracts see as the list of its items and as the value in it, so that a type that holds
//! them is plain data there; and a list of references to items.
#![tactic(auto)]

mod boxed;
mod items;
mod refs;

pub use boxed::Boxed;
pub use items::Items;
pub use refs::refs_of;
