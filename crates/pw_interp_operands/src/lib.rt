//! The interpreter's steps of expressions behind an operand that was evaluated: what is left of the expression.
#![tactic(auto)]

mod answers;
mod last;
mod operand;
mod places;

pub use operand::behind;
