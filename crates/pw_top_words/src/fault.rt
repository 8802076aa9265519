//! Why words say no command.

ghost use Rattle.std.specs.Prelude.{◌≡◌};
ghost use Rattle.clap.specs.Values.{kind_of};
ghost use Rattle.pw_top_words.specs.Reading.{fault_of_kind};

use clap::Error;
use clap::error::ErrorKind;
use std::alloc::AllocError;

/// Why there is no command: the words are no command line, or there is no memory.
#[derive(Clone, Copy)]
pub enum WordsFault {
    /// The words are no command line.
    Usage,
    /// Memory ran out.
    NoMemory,
}

impl From<AllocError> for WordsFault {
    ghost use Rattle.pw_top_words.specs.declared.fault.WordsFault.TheVariants.{NoMemory};

    ghost from_gives = { λ _ fault. fault ≡ NoMemory };

    fn from(_none: AllocError) -> WordsFault {
        WordsFault::NoMemory
    }
}

/// What an error of `clap` comes to: its text is never shown.
pub fn fault_of(error: &Error) -> WordsFault
    ensures { result ≡ fault_of_kind (kind_of error.now) }
{
    match error.kind() {
        ErrorKind::OutOfMemory => WordsFault::NoMemory,
        _ => WordsFault::Usage,
    }
}
