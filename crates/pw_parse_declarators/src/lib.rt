//! The parser of C90's declarators (ISO/IEC 9899:1990, 6.5.4, 6.5.5).
#![tactic(auto)]

mod declarator;

pub use declarator::declarator_of;
