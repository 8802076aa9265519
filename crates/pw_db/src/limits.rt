//! How many registers webs may have, and which registers webs and temporaries may have.

ghost use Rattle.std.specs.Prelude.{◌≡◌};
ghost use Rattle.pw_db.specs.Limits.{colour_limit, first_register, last_register, last_temporary};

/// The greatest count of registers that the webs of a whole program may have.
pub const COLOUR_LIMIT: u8 = 8;

/// The first of the registers that a callee keeps. The register of a web is one of them.
pub const FIRST_REGISTER: u8 = 3;

/// The last of these registers.
pub const LAST_REGISTER: u8 = 18;

/// The last of the registers that temporaries may have: those that a callee keeps, and behind them some
/// that it does not.
pub const LAST_TEMPORARY: u8 = 20;

/// The limit is the one that its definition speaks of.
pub fn limit_of_webs()
    ensures colours { COLOUR_LIMIT ≡ colour_limit }
{}

/// The registers are those that their definitions speak of.
pub fn registers_of_webs()
    ensures first { FIRST_REGISTER ≡ first_register }
    ensures last { LAST_REGISTER ≡ last_register }
    ensures last_of_temporaries { LAST_TEMPORARY ≡ last_temporary }
{}
