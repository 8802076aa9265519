//! Lengths of character constants, string literals and comments at the beginning of a text, 0 where none stands there.

ghost use Rattle.std.specs.Prelude.{◌≡◌, ◌≢◌, ◌<◌, ◌≤◌, ◌+◌, ◌^◌, length, slice_index, true};
ghost use Rattle.pw_token.specs.Scanning as spec;

use crate::bytes::{Class, byte_at, is_in, simple_escape, text_from};

/// Where a reader of a constant stands.
#[derive(Clone, Copy)]
pub enum Mode {
    /// Between two characters.
    Plain,
    /// Behind the backslash of an escape.
    Escaped,
    /// Behind the `\x` of an escape.
    Hexadecimal,
    /// Behind the closing quote.
    Closed,
    /// Behind what no constant has.
    Broken,
}

fn next_mode(quote: u8, mode: Mode, byte: u8) -> Mode
    ensures { result ≡ spec.next_mode quote mode byte }
{
    match mode {
        Mode::Plain if byte == quote => Mode::Closed,
        Mode::Plain if byte == b'\\' => Mode::Escaped,
        Mode::Plain if byte == b'\n' => Mode::Broken,
        Mode::Plain => Mode::Plain,
        Mode::Escaped if simple_escape(byte).is_some() || is_in(Class::OctalDigit, byte) =>
            Mode::Plain,
        Mode::Escaped if byte == b'x' => Mode::Hexadecimal,
        Mode::Hexadecimal if is_in(Class::HexDigit, byte) => Mode::Plain,
        Mode::Closed => Mode::Closed,
        Mode::Escaped | Mode::Hexadecimal | Mode::Broken => Mode::Broken,
    }
}

fn is_closed(mode: Mode) -> bool
    ensures { result ≡ spec.is_closed mode }
{
    matches!(mode, Mode::Closed)
}

fn is_broken(mode: Mode) -> bool
    ensures { result ≡ spec.is_broken mode }
{
    matches!(mode, Mode::Broken)
}

/// A backslash before a newline stands at the beginning.
pub fn is_splice(text: &[u8]) -> bool
    ensures value { result ≡ spec.is_splice text.now }
    ensures within { result ≡ true → 2 ≤ length text.now }
{
    byte_at(text, 0) == b'\\' && byte_at(text, 1) == b'\n'
}

/// The length through the closing quote, behind the opening quote.
fn closing(quote: u8, text: &[u8]) -> usize
    requires { length text.now < 2 ^ 63 }
    ensures value { result ≡ spec.closing quote Mode.Plain 1 text.now }
    ensures within { result ≤ length text.now + 1 }
{
    let mut mode = Mode::Plain;
    let mut count = 1;
    let mut rest = text;
    while let [first, ..] = rest {
        if is_splice(rest) {
            rest = text_from(rest, 2);
            count += 2;
        } else {
            mode = next_mode(quote, mode, *first);
            rest = text_from(rest, 1);
            count += 1;
            if is_closed(mode) {
                return count;
            }
            if is_broken(mode) {
                return 0;
            }
        }
    }
    0
}

/// The length of the character constant or string literal (C90 6.1.3.4, 6.1.4) with this quote that begins the text,
/// 0 where none does.
#[tactic(auto, unfolding(crate::specs::Scanning::literal_len))]
pub fn literal_len(quote: u8, text: &[u8]) -> usize
    ensures value { result ≡ spec.literal_len quote text.now }
    ensures within { result ≤ length text.now }
{
    if byte_at(text, 0) == quote && !text.is_empty() {
        closing(quote, text_from(text, 1))
    } else {
        0
    }
}

/// The length of the wide character constant or wide string literal that begins the text, its `L` included, 0 where
/// none does.
#[tactic(auto, unfolding(crate::specs::Scanning::wide_len))]
pub fn wide_len(text: &[u8]) -> usize
    ensures value { result ≡ spec.wide_len text.now }
    ensures within { result ≤ length text.now }
{
    if byte_at(text, 0) != b'L' {
        return 0;
    }
    let rest = text_from(text, 1);
    let string = literal_len(b'"', rest);
    let len = if string == 0 {
        literal_len(b'\'', rest)
    } else {
        string
    };
    if len == 0 { 0 } else { len + 1 }
}

/// The length of the comment (C90 6.1.9) whose first two bytes begin the text, 0 where it does not end.
#[tactic(auto, unfolding(crate::specs::Scanning::comment_len))]
pub fn comment_len(text: &[u8]) -> usize
    ensures value { result ≡ spec.comment_len text.now }
    ensures within { result ≤ length text.now }
{
    let mut count = 2;
    let mut rest = text_from(text, 2);
    while let [first, after @ ..] = rest {
        count += 1;
        if *first == b'*' && byte_at(after, 0) == b'/' {
            return count + 1;
        }
        rest = after;
    }
    0
}
