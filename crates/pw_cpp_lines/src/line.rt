//! Lines as tokens.

ghost use Rattle.std.specs.Prelude.{◌≡◌, ◌≤◌, ◌++◌, length, IfOk, OnOk};
ghost use Rattle.pw_token.specs.Tokenization.{token_in};
ghost use Rattle.pw_cpp_lines.specs.Lines.{AnswersLine, behind_line, is_line_end, is_space};

use pw_items::Items;
use pw_token::{PieceKind, Token, byte_at, piece_at};
use std::alloc::{AllocError, Global};

/// The tokens of a logical line, and where the next line begins.
#[derive(Drop)]
pub struct Line {
    pub tokens: Items<Token>,
    pub next: usize,
}

/// Why a line has no tokens.
#[derive(Clone, Copy, Debug, PartialEq, Eq)]
pub enum LineFault {
    /// The first byte at which no token, blank or comment starts.
    Bad { at: usize },
    /// There was no memory for the tokens.
    NoMemory,
}

impl From<AllocError> for LineFault {
    ghost use Rattle.pw_cpp_lines.specs.declared.line.LineFault.TheVariants.{NoMemory};

    ghost from_gives = { λ _ fault. fault ≡ NoMemory };

    fn from(_error: AllocError) -> Self {
        LineFault::NoMemory
    }
}

/// Whether a line ends at offset `at` of a text: a newline stands there, or the text is over.
pub fn is_line_end(text: &[u8], at: usize) -> bool
    ensures { result ≡ is_line_end text.now at }
{
    text.len() <= at || byte_at(text, at) == b'\n'
}

/// Where the next line begins, of a line that ends at offset `end`: behind its newline, where it has one.
pub fn behind_line(text: &[u8], end: usize) -> usize
    ensures { result ≡ behind_line text.now end }
{
    if text.len() <= end { end } else { end + 1 }
}

/// Whether a piece is a blank or a comment.
pub fn is_space(kind: PieceKind) -> bool
    ensures { result ≡ is_space kind }
{
    matches!(kind, PieceKind::Blank | PieceKind::Comment)
}

/// Adds the token that a piece is, if it is one.
fn keep(tokens: &mut Items<Token>, kind: PieceKind, at: usize, len: usize) -> Result<(), AllocError>
    ensures { OnOk result (tokens.new ≡ tokens.old ++ token_in kind at len) }
{
    if let PieceKind::Token(kind) = kind {
        tokens.push(Token { kind, at, len })?;
    }
    Ok(())
}

/// The tokens of the line that begins at a place, and where the next line begins. A `#` at the beginning of the line is a token
/// as any other.
///
/// # Errors
///
/// `Bad` with the first place of the line at which no token, blank or comment starts.
pub fn lex_line(alloc: Global, text: &[u8], at: usize) -> Result<Line, LineFault>
    requires { at ≤ length text.now }
    ensures answers { AnswersLine text.now at result }
    ensures within { IfOk result (λ line. line.next ≤ length text.now) }
{
    let mut tokens = Items::new(alloc);
    let mut end = at;
    while !is_line_end(text, end) {
        let Some((kind, len)) = piece_at(false, &text[end..]) else {
            return Err(LineFault::Bad { at: end });
        };
        keep(&mut tokens, kind, end, len)?;
        end += len;
    }
    let next = behind_line(text, end);
    Ok(Line { tokens, next })
}
