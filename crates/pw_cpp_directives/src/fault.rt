//! What may be wrong with a file.

use pw_value::Name;

/// The limit that a file passes.
#[derive(Clone, Copy, Debug, PartialEq, Eq)]
pub enum CppWhich {
    /// How deep includes nest.
    Depth,
    /// Macros at once.
    Macros,
    /// Parameters of a macro.
    Parameters,
    /// Tokens that replacements produce.
    Produced,
    /// Bytes of a file or of the output.
    Length,
}

/// What is wrong with a file that is preprocessed.
#[derive(Debug, Drop)]
pub enum CppKind {
    /// Nothing that C90 knows starts at a byte.
    Lex,
    /// An unknown directive, or one that has not its form.
    Directive,
    /// A definition or a call of a macro.
    Macro,
    /// A group, or the expression of a `#if`.
    Condition,
    /// There is no header of this name.
    Include(Name),
    /// A `#error`.
    Error,
    /// A limit is passed, first by this number.
    Limit(CppWhich, u64),
    /// There was no memory.
    NoMemory,
}
