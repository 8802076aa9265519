//! What a keyword at the beginning of a declaration is.

use pw_tree::{BasicType, Qualifier, RecordKind, StorageClass};

/// What a keyword at the beginning of a declaration is (C90 6.5.1 to 6.5.3).
#[derive(Clone, Copy)]
pub enum SpecifierWord {
    /// The keyword of a storage class.
    Storage(StorageClass),
    /// The keyword of a type qualifier.
    Qualified(Qualifier),
    /// A type specifier that is this keyword alone.
    Basic(BasicType),
    /// `struct` or `union`.
    Record(RecordKind),
    /// `enum`.
    Enum,
}
