//! The checker's rules of primary expressions, unary operators and casts (C90 6.3.1, 6.3.3, 6.3.4), which take the
//! checkers of the phrases within.
#![tactic(auto)]

mod names;
mod primaries;
mod unaries;

pub use names::{cast, size_of_type};
pub use primaries::primary;
pub use unaries::unary;
