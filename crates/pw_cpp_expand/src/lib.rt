//! Macro expansion (ISO/IEC 9899:1990, 6.8.3): the text lines of a file, and the tokens of a `#if`.
#![tactic(auto)]

mod ahead;
mod arguments;
mod expansion;
mod laws;
mod progress;
mod result;

pub use ahead::{fresh, read_line};
pub use expansion::{expand_alone, expand_text};
pub use laws::{
    faults_within, line_in_order, one_outcome, one_reading, text_goes_on, tokens_in_order,
};
pub use progress::{ExpandFault, Lexeme, Mode, OUTPUT_LIMIT, PRODUCED_LIMIT, Progress};
