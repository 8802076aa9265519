//! The checker's rules of declarations (C90 6.5, 6.7).
#![tactic(auto)]

mod bare;
pub mod decls;

pub use decls::{decl_rule, decls_rule};
pub use pw_check_decl_names::{is_extern, is_static};
