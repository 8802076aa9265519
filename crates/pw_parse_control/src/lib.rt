//! The parser of C90's selection and iteration statements (ISO/IEC 9899:1990, 6.6.4, 6.6.5), and of expressions within statements.
#![tactic(auto)]

mod choice;
mod expressions;
mod loops;
mod parts;

pub use choice::{if_stmt, switch_stmt};
pub use expressions::{boxed_expr, unboxed, up_to};
pub use loops::{do_stmt, for_stmt, while_stmt};
pub use parts::StmtParts;
