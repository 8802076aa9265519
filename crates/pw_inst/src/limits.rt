//! The limits that instructions set, and the count of the routines.

ghost use Rattle.std.specs.Prelude.{◌≡◌};
ghost use Rattle.pw_inst.specs.Limits.{near_least, near_limit, routine_count};

/// The greatest displacement of a load, a store or LDO.
pub const NEAR_LIMIT: u32 = 8191;

/// How far the displacement of a load, a store or LDO may go below 0.
pub const NEAR_LEAST: u32 = 8192;

/// The count of the routines that a symbol may be: `$divs`, `$divu`, `$mul`, `$rems` and `$remu`.
pub const ROUTINE_COUNT: u8 = 5;

/// The limits are those that the definitions speak of.
pub fn limits_of_instructions()
    ensures near { NEAR_LIMIT ≡ near_limit }
    ensures below { NEAR_LEAST ≡ near_least }
    ensures routines { ROUTINE_COUNT ≡ routine_count }
{}
