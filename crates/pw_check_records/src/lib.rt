//! The checker's structures and unions: their tags, their members, and what their definitions come to (C90 6.5.2.1,
//! 6.5.2.3).
#![tactic(auto)]

pub mod closing;
pub mod member;
pub mod members;
pub mod records;

pub use closing::closing_rule;
pub use member::member_rule;
pub use members::MemberList;
pub use records::{alone_rule, opening_rule, record_kind, reference_rule};
