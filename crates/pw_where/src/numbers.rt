//! Which globals are numbers, and numbers in decimal.

ghost use Rattle.std.specs.Prelude.{◌≡◌, ◌++◌, OnOk};
ghost use Rattle.pw_where.specs.Shown.{number_of_letter, number_of_shape, number_text, is_hidden, begins_with_dot, signed_number, unsigned_number};

use pw_value::{Kind, Shape, push_decimal};
use std::alloc::AllocError;

/// A type of numbers: how they stand in memory, and whether they are signed.
#[derive(Clone, Copy)]
pub struct Number {
    pub kind: Kind,
    pub is_signed: bool,
}

/// Signed numbers of a kind.
fn signed(kind: Kind) -> Number
    ensures { result ≡ signed_number kind }
{
    Number {
        kind,
        is_signed: true,
    }
}

/// Unsigned numbers of a kind.
fn unsigned(kind: Kind) -> Number
    ensures { result ≡ unsigned_number kind }
{
    Number {
        kind,
        is_signed: false,
    }
}

/// The type of numbers with this letter in shapes.
fn number_of_letter(letter: u8) -> Option<Number>
    ensures { result ≡ number_of_letter letter }
{
    if letter == b'c' || letter == b'a' {
        Some(signed(Kind::S8))
    } else if letter == b'h' {
        Some(unsigned(Kind::U8))
    } else if letter == b's' {
        Some(signed(Kind::S16))
    } else if letter == b't' {
        Some(unsigned(Kind::U16))
    } else if letter == b'i' || letter == b'l' {
        Some(signed(Kind::W32))
    } else if letter == b'j' || letter == b'm' {
        Some(unsigned(Kind::W32))
    } else {
        None
    }
}

/// The type of numbers with this shape, volatile or not.
pub(crate) fn number_of_shape(shape: &Shape) -> Option<Number>
    ensures { result ≡ number_of_shape shape.now }
{
    match shape.as_bytes() {
        [letter] => number_of_letter(*letter),
        [mark, letter] => if *mark == b'!' {
            number_of_letter(*letter)
        } else {
            None
        },
        _ => None,
    }
}

/// Whether a name is that of what a function or an initialiser has for itself: it holds `:.`.
pub(crate) fn is_hidden(name: &[u8]) -> bool
    ensures { result ≡ is_hidden name.now }
{
    let mut rest = name;
    while let [first, after @ ..] = rest {
        if *first == b':' && begins_with_dot(after) {
            return true;
        }
        rest = after;
    }
    false
}

/// Whether a dot is first.
fn begins_with_dot(text: &[u8]) -> bool
    ensures { result ≡ begins_with_dot text.now }
{
    match text {
        [first, ..] => *first == b'.',
        [] => false,
    }
}

/// Puts a word as a number in decimal behind a text.
pub(crate) fn push_number(text: &mut Vec<u8>, is_signed: bool, word: u32) -> Result<(), AllocError>
    ensures { OnOk result (text.new.items ≡ text.old.items ++ number_text is_signed word) }
{
    if is_signed && word >= 0x8000_0000 {
        text.push(b'-')?;
        push_decimal(text, 0x1_0000_0000 - u64::from(word))
    } else {
        push_decimal(text, u64::from(word))
    }
}
