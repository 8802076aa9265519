//! The parser of C90's statements (ISO/IEC 9899:1990, 6.6).
#![tactic(auto)]

mod stmt;

pub use pw_parse_control::StmtParts;
pub use stmt::{block, stmt_of};
