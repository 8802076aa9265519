//! The logical lines of a C text as the preprocessor reads them (ISO/IEC 9899:1990, 6.8): their tokens, what a line is, and
//! lines that are passed over.
#![tactic(auto)]

mod head;
mod laws;
mod line;
mod passing;
mod quotes;

pub use head::{Head, Span, head_of, header_name};
pub use laws::{heads_stand_behind, lines_go_on, one_end, one_head, one_line};
pub use line::{Line, LineFault, lex_line};
pub use passing::{pass_line, pass_rest, pass_space};
