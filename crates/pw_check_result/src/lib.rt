//! The checker's result behind the last external declaration of a module (C90 6.7): its types, its objects and
//! functions, and what it declares.
#![tactic(auto)]

mod results;

pub use results::{final_type, module_in};
