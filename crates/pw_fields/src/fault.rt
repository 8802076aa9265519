//! Why a field could not be read.

ghost use Rattle.std.specs.Prelude.{◌≡◌};
ghost use Rattle.pw_fields.specs.declared.fault.FieldFault.TheVariants.{NoMemory};

use pw_value::FileError;
use std::alloc::{AllocError, AllocFailed};

/// A field is short or breaks its rule, with `left` bytes left where it begins, or there is no memory.
#[derive(Clone, Copy, Debug)]
pub enum FieldFault {
    Fault { left: usize },
    NoMemory,
}

impl From<AllocError> for FieldFault {
    ghost from_gives = { λ _ e. e ≡ NoMemory };

    fn from(_e: AllocError) -> FieldFault {
        FieldFault::NoMemory
    }
}

impl<T: Drop> From<AllocFailed<T>> for FieldFault {
    ghost from_gives = { λ _ e. e ≡ NoMemory };

    fn from(_e: AllocFailed<T>) -> FieldFault {
        FieldFault::NoMemory
    }
}

impl FieldFault {
    ghost use Rattle.pw_fields.specs.FieldFaults.{told_at};

    /// The same fault, told by its offset, where the bytes that were read end at the offset `end`.
    pub fn at(self, end: usize) -> FileError
        ensures { result ≡ told_at end self }
    {
        match self {
            FieldFault::Fault { left } => FileError::FileFault {
                at: end.saturating_sub(left),
            },
            FieldFault::NoMemory => FileError::NoMemory,
        }
    }
}
