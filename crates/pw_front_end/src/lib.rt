//! The parsing half of the front end: from the text of a module to its syntax tree, or to the fault of the first of its
//! tests (lexing, tokens that are left out, depth, syntax) and the line on which that stands.
#![tactic(auto)]

mod laws;
mod module;
mod place;
mod refusal;

pub use laws::{front_is_exact, lexed_is_exact};
pub use module::front;
pub use place::refusal_line;
pub use pw_parse::ParseFault;
pub use refusal::{FrontEndFault, Refusal};
