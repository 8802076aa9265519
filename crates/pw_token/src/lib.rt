//! The lexer: cuts the text of a C module into the tokens of C90 (ISO/IEC 9899:1990, 6.1), and tests
//! the tokens for features that are left out and for their nesting.
#![tactic(auto)]

mod bytes;
mod constants;
mod features;
mod laws;
mod levels;
mod lexer;
mod literals;
mod marks;
mod nesting;
mod piece;
mod place;
mod roles;
mod symbol;
mod token;

pub use bytes::{Class, byte_at, is_in, simple_escape, text_from};
pub use features::unsupported;
pub use laws::{limits_of_a_text, one_cutting, piece_at_is_exact, tokens_stand_in_order};
pub use lexer::{TEXT_LIMIT, TOKEN_LIMIT, lex};
pub use nesting::{NEST_LIMIT, nest_fault};
pub use piece::{PieceKind, piece_at};
pub use place::line_at;
pub use roles::spelling;
pub use symbol::{Keyword, Mark};
pub use token::{Feature, LexFault, Token, TokenKind};
