//! What checking answers where it refuses a module.

use pw_token::Feature;
use std::alloc::{AllocError, AllocFailed};

/// The limit that a count passes.
#[derive(Clone, Copy, Debug, PartialEq, Eq)]
pub enum Which {
    /// The bytes of an identifier.
    NameLength,
    /// The nodes of a function's typed tree.
    Nodes,
    /// The bytes of an object, and of every other complete type.
    ObjectSize,
    /// The bytes of the shape of a record or of a declared name.
    ShapeLength,
    /// The room of a function, in bytes.
    Room,
    /// The pointers, arrays, functions and records of a type, one inside the other.
    TypeDepth,
    /// The parameters of a function.
    Parameters,
}

/// Why a module is refused. Where several kinds meet at one point, the first of this list is answered.
#[derive(Clone, Copy, Debug, PartialEq, Eq)]
pub enum CheckKind {
    /// A name, tag, member or label that is not declared.
    UnknownName,
    /// A second declaration or definition that is not allowed, or one that does not fit the first.
    Redeclared,
    /// What breaks a constraint on types, operands, statements or declarations.
    Typing,
    /// A constant, or what has to be one, and is not or has no value.
    Constant,
    /// What the language has and the compiler leaves out.
    Unsupported(Feature),
    /// A count above its limit.
    Limit(Which, u64),
    /// Memory ran out.
    NoMemory,
}

/// The first fault of a module, at a token counted from 1.
#[derive(Clone, Copy, Debug, PartialEq, Eq)]
pub struct CheckFault {
    pub kind: CheckKind,
    pub token: usize,
}

impl From<AllocError> for CheckFault {
    ghost use Rattle.std.specs.Prelude.{◌≡◌};
    ghost use Rattle.pw_check_walk.specs.declared.constraints.CheckKind.TheVariants.{NoMemory};

    ghost from_gives = { λ _ fault. fault.kind ≡ NoMemory };

    fn from(_none: AllocError) -> CheckFault {
        CheckFault {
            kind: CheckKind::NoMemory,
            token: 0,
        }
    }
}

impl<T: Drop> From<AllocFailed<T>> for CheckFault {
    ghost use Rattle.std.specs.Prelude.{◌≡◌};
    ghost use Rattle.pw_check_walk.specs.declared.constraints.CheckKind.TheVariants.{NoMemory};

    ghost from_gives = { λ _ fault. fault.kind ≡ NoMemory };

    fn from(_none: AllocFailed<T>) -> CheckFault {
        CheckFault {
            kind: CheckKind::NoMemory,
            token: 0,
        }
    }
}
