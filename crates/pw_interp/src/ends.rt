//! How runs end, and why one is given up.

ghost use Rattle.std.specs.Prelude.{◌≡◌, IfErr, IfOk};
ghost use Rattle.pw_interp_calls.specs.Endings.{view_ending};
ghost use Rattle.pw_interp.specs.declared.ends.InterpFault.TheVariants.{NoMemory};
ghost use Rattle.pw_interp.specs.Ends as spec;
ghost use Rattle.pw_interp.specs.Ends.{view_end};

use pw_cmean::Undef;
use pw_interp_calls::{Ending, Stop};
use pw_value::Name;
use std::alloc::{AllocError, Global};

/// How a run ended: with a status; because the stack is full; at an undefined operation, by the module and the token of the
/// node that met it; or not within the bound.
#[derive(Drop)]
pub enum CEnd {
    /// The program ended with this status.
    Ended(u8),
    /// The stack is full.
    Stack,
    /// An undefined operation, with the module and the token of the node that met it.
    Undefined(Undef, Name, usize),
    /// The run did not end within the bound.
    Bound,
}

/// Why a run was given up: its input or its output had a fault, or there was no memory.
#[derive(Clone, Copy, Debug)]
pub enum InterpFault {
    /// The input had a fault.
    ReadFault,
    /// The output had a fault.
    WriteFault,
    /// Memory ran out.
    NoMemory,
}

impl From<AllocError> for InterpFault {
    ghost use Rattle.std.specs.Prelude.{◌≡◌};
    ghost use Rattle.pw_interp.specs.declared.ends.InterpFault.TheVariants.{NoMemory};

    ghost from_gives = { λ _ fault. fault ≡ NoMemory };

    fn from(_error: AllocError) -> InterpFault {
        InterpFault::NoMemory
    }
}

/// How a run ended that came to this.
pub(crate) fn ending_of<'a>(stop: Stop<'a>) -> Result<Ending<'a>, InterpFault>
    ensures { result ≡ spec.ending_of stop.entry }
{
    match stop {
        Stop::Ended(ending) => Ok(ending),
        Stop::NoMemory => Err(InterpFault::NoMemory),
    }
}

/// An end with a name of its own. Where no accepted program comes a run is given up.
pub(crate) fn owned(alloc: Global, ending: Ending) -> Result<CEnd, InterpFault>
    ensures end { IfOk result (λ end. view_end end ≡ view_ending ending.entry) }
    ensures fault { IfErr result (λ fault. fault ≡ NoMemory) }
{
    match ending {
        Ending::Undefined(operation, home, token) => {
            Ok(CEnd::Undefined(operation, home.copy(alloc)?, token))
        }
        Ending::StackFull => Ok(CEnd::Stack),
        Ending::Exit(status) => Ok(CEnd::Ended(status)),
        Ending::Bound => Ok(CEnd::Bound),
        Ending::Wrong => Err(InterpFault::NoMemory),
    }
}
