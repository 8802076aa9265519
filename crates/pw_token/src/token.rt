//! The values that the lexer answers: tokens, faults of a text, and features that are left out.

ghost use Rattle.std.specs.Prelude.{◌≡◌};

use std::alloc::{AllocError, AllocFailed};

/// What a token is (C90 6.1).
#[derive(Clone, Copy, PartialEq, Eq)]
pub enum TokenKind {
    /// A word that is no keyword (6.1.2).
    Identifier,
    /// One of the 32 keywords (6.1.1).
    Keyword,
    /// An integer constant (6.1.3.2).
    Number,
    /// A floating constant (6.1.3.1).
    Floating,
    /// A character constant (6.1.3.4), also an empty one or one of several characters.
    Character,
    /// A string literal (6.1.4).
    Text,
    /// A wide character constant or a wide string literal, which begin with `L`.
    Wide,
    /// An operator or a punctuator (6.1.5, 6.1.6).
    Mark,
    /// A line that begins with `#` after blanks and is no line marker.
    Directive,
}

/// A token of a text: its kind, its first byte's place counted from 0, and its length in bytes.
#[derive(Clone, Copy)]
pub struct Token {
    pub kind: TokenKind,
    pub at: usize,
    pub len: usize,
}

/// Why a text has no tokens.
#[derive(Clone, Copy, Debug, PartialEq, Eq)]
pub enum LexFault {
    /// The first byte at which no token, blank, comment or line marker starts.
    Bad { at: usize },
    /// The text has more than `TEXT_LIMIT` bytes.
    TooLong,
    /// The first byte of the token behind the last that a text may have.
    TooMany { at: usize },
    /// There was no memory for the tokens.
    NoMemory,
}

impl From<AllocError> for LexFault {
    ghost use Rattle.pw_token.specs.declared.token.LexFault.TheVariants.{NoMemory};

    ghost from_gives = { λ _ fault. fault ≡ NoMemory };

    fn from(_error: AllocError) -> Self {
        LexFault::NoMemory
    }
}

impl<T: Drop> From<AllocFailed<T>> for LexFault {
    ghost use Rattle.pw_token.specs.declared.token.LexFault.TheVariants.{NoMemory};

    ghost from_gives = { λ _ fault. fault ≡ NoMemory };

    fn from(_error: AllocFailed<T>) -> Self {
        LexFault::NoMemory
    }
}

/// What a text may have and the compiler leaves out, or leaves out for now.
#[derive(Clone, Copy, Debug, PartialEq, Eq)]
pub enum Feature {
    /// A floating constant or the word `float` or `double`.
    Float,
    /// A wide character constant or a wide string literal.
    Wide,
    /// The mark `...`.
    Variadic,
    /// A directive line.
    Directive,
    /// A bit-field.
    BitField,
    /// A parameter list of identifiers.
    OldStyle,
    /// A struct or a union that is passed or returned by value.
    StructByValue,
    /// A cast between a pointer and a whole number.
    PointerCast,
}
