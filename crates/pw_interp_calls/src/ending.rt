//! How a run ends.

use pw_cmean::Undef;
use pw_value::Name;
use std::alloc::{AllocError, AllocFailed};

/// How a run ends: at an undefined operation, by the module and the token of the node that met it; because the stack is
/// full; with a status; or not within the bound. `Wrong` is where a typed tree of no accepted program would lead.
#[derive(Clone, Copy)]
pub enum Ending<'a> {
    /// An undefined operation, with the module and the token of the node that met it.
    Undefined(Undef, &'a Name, usize),
    /// The stack is full.
    StackFull,
    /// The program ended with this status.
    Exit(u8),
    /// The run did not end within the bound.
    Bound,
    /// A typed tree of no accepted program led here.
    Wrong,
}

/// Why a run does not go on: it ended, or there was no memory for it.
#[derive(Clone, Copy)]
pub enum Stop<'a> {
    /// The run ended so.
    Ended(Ending<'a>),
    /// Memory ran out.
    NoMemory,
}

impl<'a> From<AllocError> for Stop<'a> {
    ghost use Rattle.std.specs.Prelude.{◌≡◌};
    ghost use Rattle.pw_interp_calls.specs.declared.ending.Stop.TheVariants.{NoMemory};

    ghost from_gives = { λ _ stop. stop ≡ NoMemory };

    fn from(_error: AllocError) -> Self {
        Stop::NoMemory
    }
}

impl<'a, T: Drop> From<AllocFailed<T>> for Stop<'a> {
    ghost use Rattle.std.specs.Prelude.{◌≡◌};
    ghost use Rattle.pw_interp_calls.specs.declared.ending.Stop.TheVariants.{NoMemory};

    ghost from_gives = { λ _ stop. stop ≡ NoMemory };

    fn from(_error: AllocFailed<T>) -> Self {
        Stop::NoMemory
    }
}
