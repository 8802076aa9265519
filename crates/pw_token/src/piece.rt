//! The piece at the beginning of a text: a blank, a comment, a line marker or a token.

ghost use Rattle.std.specs.Prelude.{◌≡◌, ◌<◌, ◌≤◌, ◌↔◌, ℕ, Some, IfSome, false, length, slice_index};
ghost use Rattle.pw_token.specs.Bytes.{is_in, is_nondigit};
ghost use Rattle.pw_token.specs.declared.bytes.Class.TheVariants.{Digit};
ghost use Rattle.pw_token.specs.Pieces as spec;
ghost use Rattle.pw_token.specs.Tokenization.{BeginsWith};
ghost use Rattle.pw_token.specs.declared.piece.PieceKind.{PieceKind};

use crate::bytes::{Class, byte_at, is_in, is_nondigit, run_of, text_from};
use crate::constants::{floating_len, integer_len, word_len};
use crate::literals::{comment_len, is_splice, literal_len, wide_len};
use crate::marks::{is_keyword, mark_len};
use crate::token::TokenKind;

/// What a text is cut into.
#[derive(Clone, Copy)]
pub enum PieceKind {
    /// A space, tab, newline, carriage return, form feed or vertical tab, or a backslash before a newline.
    Blank,
    /// A comment (C90 6.1.9).
    Comment,
    /// A line that begins with `#` and a digit, with blanks before each, up to its newline.
    LineMarker,
    /// A token.
    Token(TokenKind),
}

type Found = (TokenKind, usize);

fn longer(first: Found, second: Found) -> Found
    ensures { result ≡ spec.longer first second }
{
    if first.1 < second.1 { second } else { first }
}

fn word_at(text: &[u8]) -> Found
    ensures value { result ≡ spec.word_at text.now }
    ensures within { result.1 ≤ length text.now }
{
    let len = word_len(text);
    let kind = if is_keyword(&text[..len]) {
        TokenKind::Keyword
    } else {
        TokenKind::Identifier
    };
    (kind, len)
}

/// A kind with no length, where no token stands.
const NOTHING: Found = (TokenKind::Identifier, 0);

/// The longest token that begins with this byte, which is no letter, no underscore and no digit.
fn other_at(first: u8, text: &[u8]) -> Found
    requires first { first ≡ slice_index text.now 0 }
    requires no_letter { is_nondigit first ≡ false }
    requires no_digit { is_in Digit first ≡ false }
    ensures value { result ≡ spec.longest_at text.now }
    ensures within { result.1 ≤ length text.now }
{
    match first {
        b'.' => {
            let floating = longer(NOTHING, (TokenKind::Floating, floating_len(text)));
            longer(floating, (TokenKind::Mark, mark_len(text)))
        }
        b'\'' => longer(NOTHING, (TokenKind::Character, literal_len(b'\'', text))),
        b'"' => longer(NOTHING, (TokenKind::Text, literal_len(b'"', text))),
        _ => longer(NOTHING, (TokenKind::Mark, mark_len(text))),
    }
}

/// The longest token, of the kinds that begin with the first byte.
fn longest_at(text: &[u8]) -> Found
    ensures value { result ≡ spec.longest_at text.now }
    ensures within { result.1 ≤ length text.now }
{
    let first = byte_at(text, 0);
    if is_nondigit(first) {
        let word = word_at(text);
        if first == b'L' {
            longer(word, (TokenKind::Wide, wide_len(text)))
        } else {
            word
        }
    } else if is_in(Class::Digit, first) {
        let number = longer(NOTHING, (TokenKind::Number, integer_len(text)));
        longer(number, (TokenKind::Floating, floating_len(text)))
    } else {
        other_at(first, text)
    }
}

fn found_piece(kind: PieceKind, len: usize) -> Option<(PieceKind, usize)>
    ensures { result ≡ spec.found_piece kind len }
{
    if len == 0 { None } else { Some((kind, len)) }
}

#[tactic(auto, unfolding(crate::specs::Pieces::token_at))]
fn token_at(text: &[u8]) -> Option<(PieceKind, usize)>
    ensures { result ≡ spec.token_at text.now }
{
    let (kind, len) = longest_at(text);
    found_piece(PieceKind::Token(kind), len)
}

fn hash_line_at(text: &[u8]) -> Option<(PieceKind, usize)>
    ensures { result ≡ spec.hash_line_at text.now }
{
    let gap = run_of(Class::Gap, text_from(text, 1));
    let kind = if is_in(Class::Digit, byte_at(text, 1 + gap)) {
        PieceKind::LineMarker
    } else {
        PieceKind::Token(TokenKind::Directive)
    };
    Some((kind, run_of(Class::InLine, text)))
}

#[tactic(auto, unfolding(crate::specs::Pieces::piece_at))]
fn find_piece(line_start: bool, text: &[u8]) -> Option<(PieceKind, usize)>
    ensures { result ≡ spec.piece_at line_start text.now }
{
    let (first, second) = (byte_at(text, 0), byte_at(text, 1));
    if is_in(Class::Gap, first) || first == b'\n' {
        Some((PieceKind::Blank, 1))
    } else if is_splice(text) {
        Some((PieceKind::Blank, 2))
    } else if first == b'/' && second == b'*' {
        found_piece(PieceKind::Comment, comment_len(text))
    } else if line_start && first == b'#' {
        hash_line_at(text)
    } else {
        token_at(text)
    }
}

/// The piece at the beginning of a text and its length in bytes, or None where nothing that C90 knows stands there, as in
/// an empty text. `line_start` says that only blanks stand before it in its line.
pub fn piece_at(line_start: bool, text: &[u8]) -> Option<(PieceKind, usize)>
    ensures value { result ≡ spec.piece_at line_start text.now }

    // A kind and a length are answered exactly where a piece of that kind and length stands.
    ensures exact { (kind : PieceKind) (len : ℕ) → (result ≡ Some (kind, len)) ↔ BeginsWith line_start kind len text.now }
    ensures within { IfSome result (λ found. (0 < found.1) × (found.1 ≤ length text.now)) }
{
    find_piece(line_start, text)
}
