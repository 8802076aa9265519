//! The constraints of C90 with their clauses, the least fault among those of a point, walks, and rules that go over
//! a list.
#![tactic(auto)]

mod constraints;
mod finding;
mod turn_laws;
mod walk_laws;

pub use constraints::{CheckFault, CheckKind, Which};
pub use finding::{Finding, fault, typing};
pub use turn_laws::turns_follow;
pub use walk_laws::{memory_is_no_fault, one_answer, walks_follow};
