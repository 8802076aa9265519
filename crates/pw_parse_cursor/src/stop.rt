//! Why a rule gave up.

use std::alloc::{AllocError, AllocFailed};

/// Why a rule gave up.
#[derive(Clone, Copy)]
pub enum Stop {
    /// No rule goes on with the next token.
    Fault,
    /// There was no memory for the tree.
    NoMemory,
}

impl From<AllocError> for Stop {
    ghost use Rattle.std.specs.Prelude.{◌≡◌};
    ghost use Rattle.pw_parse_cursor.specs.declared.stop.Stop.TheVariants.{NoMemory};

    ghost from_gives = { λ _ stop. stop ≡ NoMemory };

    fn from(_error: AllocError) -> Self {
        Stop::NoMemory
    }
}

impl<T: Drop> From<AllocFailed<T>> for Stop {
    ghost use Rattle.std.specs.Prelude.{◌≡◌};
    ghost use Rattle.pw_parse_cursor.specs.declared.stop.Stop.TheVariants.{NoMemory};

    ghost from_gives = { λ _ stop. stop ≡ NoMemory };

    fn from(_error: AllocFailed<T>) -> Self {
        Stop::NoMemory
    }
}
