//! Expressions that the interpreter evaluates at once: those that are small, and neither call a function nor choose between
//! operands. What is larger goes by steps, so that no call of this crate nests deeper than the limit.
#![tactic(auto)]

mod sizes;
mod values;

pub use sizes::is_direct;
pub use values::answer_of;
