//! Bytes of a text: their classes, and runs of one class.

ghost use Rattle.std.specs.Prelude.{◌≡◌, ◌≢◌, ◌<◌, ◌≤◌, drop, length, slice_index};
ghost use Rattle.std.specs.List.{prefix_len};
ghost use Rattle.pw_token.specs.Bytes as spec;

/// A class of bytes that a spelling names.
#[derive(Clone, Copy)]
pub enum Class {
    /// A blank within a line: space, tab, vertical tab, form feed, carriage return.
    Gap,
    Digit,
    OctalDigit,
    HexDigit,
    /// A letter, a digit or an underscore.
    Word,
    /// Any byte but a newline.
    InLine,
}

/// Whether a byte is of a class.
pub fn is_in(class: Class, byte: u8) -> bool
    ensures { result ≡ spec.is_in class byte }
{
    match class {
        Class::Gap => byte == b' ' || byte == b'\t' || (11 <= byte && byte <= 13),
        Class::Digit => byte.is_ascii_digit(),
        Class::OctalDigit => b'0' <= byte && byte <= b'7',
        Class::HexDigit => byte.is_ascii_hexdigit(),
        Class::Word => is_nondigit(byte) || byte.is_ascii_digit(),
        Class::InLine => byte != b'\n',
    }
}

/// A letter or an underscore.
pub fn is_nondigit(byte: u8) -> bool
    ensures { result ≡ spec.is_nondigit byte }
{
    byte.is_ascii_alphabetic() || byte == b'_'
}

/// One of the two bytes, as a letter in either case.
pub fn is_either(byte: u8, lower: u8, upper: u8) -> bool
    ensures { result ≡ spec.is_either byte lower upper }
{
    byte == lower || byte == upper
}

/// What an escape of one byte behind the backslash stands for (C90 6.1.3.4), or None where there is no such escape.
pub fn simple_escape(byte: u8) -> Option<u8>
    ensures { result ≡ spec.simple_escape byte }
{
    match byte {
        b'\'' | b'"' | b'?' | b'\\' => Some(byte),
        b'a' => Some(7),
        b'b' => Some(8),
        b'f' => Some(12),
        b'n' => Some(10),
        b'r' => Some(13),
        b't' => Some(9),
        b'v' => Some(11),
        _ => None,
    }
}

/// The byte at a place, or 0 past the end.
pub fn byte_at(text: &[u8], at: usize) -> u8
    ensures value { result ≡ slice_index text.now at }
    ensures within { result ≢ 0 → at < length text.now }
{
    if at < text.len() { text[at] } else { 0 }
}

/// What is left of a text from offset `at` on: nothing, where it is past the end.
pub fn text_from(text: &[u8], at: usize) -> &[u8]
    ensures { result.now ≡ drop at text.now }
{
    if at < text.len() { &text[at..] } else { &[] }
}

/// How many bytes of the class stand at the beginning.
pub fn run_of(class: Class, text: &[u8]) -> usize
    ensures value { result ≡ prefix_len (spec.is_in class) text.now }
    ensures within { result ≤ length text.now }
{
    let mut count = 0;
    let mut rest = text;
    while let [first, after @ ..] = rest {
        if !is_in(class, *first) {
            return count;
        }
        count += 1;
        rest = after;
    }
    count
}
