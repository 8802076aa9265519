//! The checker's rules of function definitions (C90 6.7.1), and the knot of the statements within them.
#![tactic(auto)]

mod functions;
mod knot;

pub use functions::function_rule;
pub use knot::{LEVELS_WITHIN_A_NEST, PHRASE_DEPTH, limits_of_phrases, phrases};
pub use pw_check_decl::decl_rule;
