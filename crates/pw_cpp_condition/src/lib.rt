//! The constant expressions of `#if` (ISO/IEC 9899:1990, 6.8.1): whether items spell one, and what it comes to.
#![tactic(auto)]

mod evaluation;
mod frame;
mod laws;
mod word;

pub use evaluation::evaluate;
pub use laws::one_meaning;
pub use word::{Infix, Item, item_of};
