//! Faults that several layers answer.

ghost use Rattle.std.specs.Prelude.{◌≡◌};

use crate::name::Name;
use std::alloc::AllocError;

/// Why bytes are no file of the wanted form, or there is no memory. `at` is the offset of the first
/// field, in order, that is short or breaks its rule.
#[derive(Clone, Copy, PartialEq, Eq, Debug)]
pub enum FileError {
    FileFault { at: usize },
    NoMemory,
}

impl From<AllocError> for FileError {
    ghost use Rattle.pw_value.specs.declared.fault.FileError.TheVariants.{NoMemory};

    ghost from_gives = { λ _ fault. fault ≡ NoMemory };

    fn from(_none: AllocError) -> FileError {
        FileError::NoMemory
    }
}

/// What there can be too much of in a program: modules, bytes of their texts together, functions,
/// objects with static lifetime.
#[derive(Clone, Copy, Debug)]
pub enum What {
    Modules,
    TextBytes,
    Functions,
    Globals,
}

/// Why modules do not make a program.
#[derive(Debug, Drop)]
pub enum LinkFault {
    /// A name is used and defined nowhere.
    Undefined(Name),
    /// A name is defined twice: the name, and the first two modules that define it.
    Duplicate(Name, Name, Name),
    /// Two modules declare a name with shapes that do not agree: the name, and the two modules.
    Conflict(Name, Name, Name),
    /// No module defines `main` as a function of no parameters that returns an int.
    NoMain,
    /// The machine's text would take so many bytes.
    TextTooLarge(u64),
    /// The stack would end at this address.
    MemoryTooLarge(u64),
    NoMemory,
    /// There are so many of these.
    TooMany(What, u64),
}

impl From<AllocError> for LinkFault {
    ghost use Rattle.pw_value.specs.declared.fault.LinkFault.TheVariants.{NoMemory};

    ghost from_gives = { λ _ fault. fault ≡ NoMemory };

    fn from(_none: AllocError) -> LinkFault {
        LinkFault::NoMemory
    }
}
