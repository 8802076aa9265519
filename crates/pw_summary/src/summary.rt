//! The summary of a module.

ghost use Rattle.std.specs.Prelude.{◌≡◌};
ghost use Rattle.pw_summary.specs.Summary.{whole_summary};

use pw_items::Items;
use pw_value::{Kind, Name, Shape};

/// What one function uses. Each list is in byte order without repeats.
#[derive(Drop)]
pub struct Uses {
    /// The functions that it calls by name.
    pub calls: Items<Name>,
    /// The shapes of its calls through values.
    pub shapes: Items<Shape>,
    /// The globals that it reads or writes by name, with their weighted reads and weighted writes, each
    /// at most 4,294,967,295.
    pub refs: Items<(Name, u64, u64)>,
    /// How many registers it needs beside the two that every call may change, at most `NEED_LIMIT`.
    pub need: u8,
}

/// `PAWS`, the first four bytes of a summary file.
pub const KIND: u32 = 0x5041_5753;

/// The first version of the form of a summary file, in which no function needs registers.
pub const FIRST: u32 = 1;

/// The last one.
pub const VERSION: u32 = 2;

/// What a weight is below.
pub const WEIGHT_BOUND: u64 = 4_294_967_296;

/// What a function's need is at most.
pub const NEED_LIMIT: u8 = 4;

/// What the program analyser needs to know of a module. Each list but the last is in byte order of the
/// names, without repeats.
#[derive(Drop)]
pub struct Summary {
    /// The version of the form of its file.
    pub version: u32,
    pub module: Name,
    /// The globals that it defines: shape, kind where it is a scalar, and whether it is volatile.
    pub globals: Items<(Name, Shape, Option<Kind>, bool)>,
    /// The functions that it defines.
    pub functions: Items<(Name, Shape)>,
    /// The external names that it declares or defines.
    pub declared: Items<(Name, Shape)>,
    /// The names that it uses.
    pub used: Items<Name>,
    /// The functions whose address it takes.
    pub taken: Items<(Name, Shape)>,
    /// The globals whose address it takes.
    pub escaped: Items<Name>,
    /// What each function uses, in the order of `functions`.
    pub uses: Items<Uses>,
}

/// What a module defines and declares, each list as `Summary` has it.
#[derive(Drop)]
pub struct Defined {
    pub globals: Items<(Name, Shape, Option<Kind>, bool)>,
    pub functions: Items<(Name, Shape)>,
    pub declared: Items<(Name, Shape)>,
}

/// What a module uses, each list as `Summary` has it.
#[derive(Drop)]
pub struct Used {
    pub used: Items<Name>,
    pub taken: Items<(Name, Shape)>,
    pub escaped: Items<Name>,
    pub uses: Items<Uses>,
}

/// The summary of the module of this name, of a version.
pub fn summary_of(version: u32, name: Name, defined: Defined, used: Used) -> Summary
    ensures { result ≡ whole_summary version name defined used }
{
    let Defined {
        globals,
        functions,
        declared,
    } = defined;
    let Used {
        used,
        taken,
        escaped,
        uses,
    } = used;
    Summary {
        version,
        module: name,
        globals,
        functions,
        declared,
        used,
        taken,
        escaped,
        uses,
    }
}
