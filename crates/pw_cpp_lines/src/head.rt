//! How a line begins, and the name of a header.

ghost use Rattle.std.specs.Prelude.{◌≡◌, ◌≤◌, ◌+◌, ◌<◌, drop, length, slice_index, IsTrue, ◌↔◌};
ghost use Rattle.std.specs.List.{prefix_len};
ghost use Rattle.pw_token.specs.Bytes.{is_in};
ghost use Rattle.pw_token.specs.declared.bytes.Class.TheVariants.{Word};
ghost use Rattle.pw_cpp_lines.specs.Heads.{IsHead, IsMarker, IsWordAt, closing_quote, header_name, is_line_marker, is_name_byte};

use crate::passing::pass_space;
use pw_token::{Class, PieceKind, byte_at, is_in, piece_at, text_from};

/// Bytes of a text: the first one's place counted from 0, and how many there are.
#[derive(Clone, Copy)]
pub struct Span {
    pub at: usize,
    pub len: usize,
}

/// What a line is, with the place of its `#`.
#[derive(Clone, Copy)]
pub enum Head {
    /// Text.
    Text,
    /// A line marker.
    Marker { hash: usize },
    /// A directive with its name, which may be empty.
    Directive { hash: usize, name: Span },
}

/// How many letters, digits and underscores a text begins with.
fn word_len(text: &[u8]) -> usize
    ensures value { result ≡ prefix_len (is_in Word) text.now }
    ensures within { result ≤ length text.now }
{
    let mut len = 0;
    let mut rest = text;
    while let [first, after @ ..] = rest {
        if !is_in(Class::Word, *first) {
            return len;
        }
        len += 1;
        rest = after;
    }
    len
}

fn is_line_marker(found: Option<(PieceKind, usize)>) -> bool
    ensures { result ≡ is_line_marker found }
{
    matches!(found, Some((PieceKind::LineMarker, _)))
}

fn is_marker(text: &[u8], at: usize) -> bool
    requires { at ≤ length text.now }
    ensures { IsTrue result ↔ IsMarker text.now at }
{
    is_line_marker(piece_at(true, &text[at..]))
}

/// What the line is that begins at a place.
pub fn head_of(text: &[u8], at: usize) -> Head
    requires { at ≤ length text.now }
    ensures { IsHead text.now at result }
{
    let hash = pass_space(text, at);
    if byte_at(text, hash) != b'#' {
        return Head::Text;
    }
    if is_marker(text, hash) {
        return Head::Marker { hash };
    }
    let at = pass_space(text, hash + 1);
    let len = word_len(text_from(text, at));
    Head::Directive {
        hash,
        name: Span { at, len },
    }
}

fn closing_quote(byte: u8) -> Option<u8>
    ensures { result ≡ closing_quote byte }
{
    match byte {
        b'"' => Some(b'"'),
        b'<' => Some(b'>'),
        _ => None,
    }
}

/// How many bytes a text has before the quote, or before its first newline.
fn name_len(quote: u8, text: &[u8]) -> usize
    ensures value { result ≡ prefix_len (is_name_byte quote) text.now }
    ensures within { result ≤ length text.now }
{
    let mut len = 0;
    let mut rest = text;
    while let [first, after @ ..] = rest {
        if *first == quote || *first == b'\n' {
            return len;
        }
        len += 1;
        rest = after;
    }
    len
}

/// The name of the header that stands at a place between two `"`, or between `<` and `>`, or None where none does. It goes up to
/// the first closing quote of its line.
pub fn header_name(text: &[u8], at: usize) -> Option<Span>
    requires { at < length text.now }
    ensures { result ≡ header_name text.now at }
{
    let quote = closing_quote(byte_at(text, at))?;
    let at = at + 1;
    let len = name_len(quote, text_from(text, at));
    if byte_at(text, at + len) == quote {
        Some(Span { at, len })
    } else {
        None
    }
}
