//! What is expanded, and how far it has come.

ghost use Rattle.std.specs.Prelude.{◌≡◌};
ghost use Rattle.pw_cpp_expand.specs.Lookahead as spec;

use pw_cpp_lines::LineFault;
use pw_items::Items;
use pw_token::Token;
use std::alloc::AllocError;

/// The greatest number of tokens that replacements produce in a run.
pub const PRODUCED_LIMIT: usize = 1_000_000;

/// The greatest length of an output, in bytes.
pub const OUTPUT_LIMIT: usize = 1_048_576;

/// Whether text lines are read on where tokens end.
#[derive(Clone, Copy, PartialEq, Eq)]
pub enum Mode {
    /// They are, up to the next directive, and what stands is put out.
    InText,
    /// They are not: in an argument by itself, and in `#if`.
    Alone,
}

/// A token while it is expanded.
#[derive(Clone, Copy)]
pub struct Lexeme {
    /// The token, spelled where it was written.
    pub token: Token,
    /// The number of the set of names that it may not be replaced by.
    pub hidden: usize,
    /// Where it stands in the file: its own place, or that of the macro's name that it came from.
    pub place: usize,
}

/// How far a text has come.
#[derive(Drop)]
pub struct Progress {
    /// The place of the next line.
    pub next: usize,
    /// Where the text lines begin that were read.
    pub rows: Items<usize>,
    /// How many tokens replacements have produced.
    pub produced: usize,
    /// How long the output is, in bytes.
    pub size: usize,
}

/// Why text is not expanded, with its place.
#[derive(Clone, Copy, Debug, PartialEq, Eq)]
pub enum ExpandFault {
    /// A line that had to be read has at this place nothing that C90 knows.
    Lex { at: usize },
    /// A call of the macro whose name stands at this place has no closing `)`, or another count of arguments.
    Call { at: usize },
    /// Replacements produce more than `PRODUCED_LIMIT` tokens, first that of the name at this place.
    Produced { at: usize },
    /// The output passes `OUTPUT_LIMIT`, first at the line, or by the token, at this place.
    Length { at: usize },
    /// There was no memory.
    NoMemory,
}

impl From<AllocError> for ExpandFault {
    ghost use Rattle.pw_cpp_expand.specs.declared.progress.ExpandFault.TheVariants.{NoMemory};

    ghost from_gives = { λ _ fault. fault ≡ NoMemory };

    fn from(_error: AllocError) -> Self {
        ExpandFault::NoMemory
    }
}

/// The fault of a line that has to be read.
pub fn of_line(fault: LineFault) -> ExpandFault
    ensures { result ≡ spec.of_line fault }
{
    match fault {
        LineFault::Bad { at } => ExpandFault::Lex { at },
        LineFault::NoMemory => ExpandFault::NoMemory,
    }
}
