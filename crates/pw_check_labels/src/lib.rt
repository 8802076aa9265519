//! The checker's rules of labels (C90 6.6.1), and the trait by which the rules of statements take the checkers of the
//! phrases within.
#![tactic(auto)]

mod labels;
mod names;
mod parts;

pub use labels::labels_rule;
pub use names::labels_in_block;
pub use parts::BodyParts;
