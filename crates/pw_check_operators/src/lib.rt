//! The checker's rules of unary, binary, conditional and assignment operators (C90 6.3.3 to 6.3.17): what each asks of
//! its operands, and the node that it makes of them.
#![tactic(auto)]

pub mod assigning;
pub mod choosing;
pub mod nodes;
pub mod operations;
pub mod pointers;
pub mod sizes;
pub mod unaries;

pub use assigning::{assign_rule, assignment_rule, compound_rule};
pub use choosing::conditional_rule;
pub use nodes::sum_node;
pub use operations::{binary_rule, logic_rule, operation_rule};
pub use pointers::{address_rule, deref, deref_rule};
pub use sizes::{size_rule, type_size_rule};
pub use unaries::{cast_rule, sign_rule, step_rule};
