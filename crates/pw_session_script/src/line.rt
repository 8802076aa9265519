//! Lines of a script.

use pw_io::Failed;
use std::alloc::AllocError;

/// A line of a session's script, with the text that stands behind it.
#[derive(Drop)]
pub enum Line {
    /// `put FILE COUNT`: the name of a module's file or of a header, and the text that stands behind the line.
    Put(String, Vec<u8>),
    /// `remove FILE`: the name of such a file.
    Remove(String),
    /// `build`.
    Build,
    /// `run COUNT`: the input that stands behind the line.
    Run(Vec<u8>),
}

/// A line, and how many bytes of the script it took, with those that stand behind it.
#[derive(Drop)]
pub struct TakenLine {
    pub line: Line,
    pub length: u64,
}

/// Why no line was read.
#[derive(Clone, Copy)]
pub enum ScriptFault {
    /// No lawful line stands there.
    BadLine,
    /// The input had a fault.
    ReadFault,
    /// Memory ran out.
    NoMemory,
}

impl From<AllocError> for ScriptFault {
    ghost use Rattle.std.specs.Prelude.{◌≡◌};
    ghost use Rattle.pw_session_script.specs.declared.line.ScriptFault.TheVariants.{NoMemory};

    ghost from_gives = { λ _ fault. fault ≡ NoMemory };

    fn from(_none: AllocError) -> ScriptFault {
        ScriptFault::NoMemory
    }
}

impl From<Failed> for ScriptFault {
    ghost use Rattle.std.specs.Prelude.{◌≡◌};
    ghost use Rattle.pw_session_script.specs.declared.line.ScriptFault.TheVariants.{ReadFault};

    ghost from_gives = { λ _ fault. fault ≡ ReadFault };

    fn from(_failed: Failed) -> ScriptFault {
        ScriptFault::ReadFault
    }
}
