//! The interpreter's steps into lists, arms and loops, which are entered at their beginning or at a label in them: what is left
//! of them.
#![tactic(auto)]

mod contents;
mod labels;
mod lists;
mod loops;

pub use contents::{arms_in, initialisers_in, members_in, otherwise_in};
pub use labels::{holds, is_among, is_in_if, is_in_rest};
pub use lists::{arms, members, taking};
pub use loops::{back, counted, met, tail_of, top, turn};
