//! Macros of the preprocessor (ISO/IEC 9899:1990, 6.8.3): what a `#define` says, and the macros that there are at a place of a text.
#![tactic(auto)]

mod definition;
mod laws;
mod table;
mod word;

pub use definition::{DefineFault, Definition, Macro, PARAMETER_LIMIT, definition_of};
pub use laws::{limits_of_macros, parameters_are_apart};
pub use table::{MACRO_LIMIT, MacroFault, Macros};
pub use word::{is_spelled, is_word, spelled};
