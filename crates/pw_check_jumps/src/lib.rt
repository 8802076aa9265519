//! The checker's rules of jumps (C90 6.6.6) and of the values that statements take, which take the checkers of the
//! phrases within.
#![tactic(auto)]

mod jumps;
mod values;

pub use jumps::{break_rule, continue_rule, goto_rule, return_rule};
pub use values::{condition_rule, optional_condition, optional_rule, switch_rule};
