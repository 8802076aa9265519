//! The limits of a script.

ghost use Rattle.std.specs.Prelude.{◌≡◌};
ghost use Rattle.pw_session_script.specs.Script.{line_limit, put_limit, run_limit};

/// The greatest count of bytes of a command's line, with its newline.
pub const LINE_LIMIT: u32 = 512;

/// The greatest count of bytes of a text that is put.
pub const PUT_LIMIT: u64 = 2_097_152;

/// The greatest count of bytes of a run's input.
pub const RUN_LIMIT: u64 = 1_048_576;

/// The limits are those that the definitions speak of.
pub fn limits_of_a_script()
    ensures line { LINE_LIMIT ≡ line_limit }
    ensures put { PUT_LIMIT ≡ put_limit }
    ensures run { RUN_LIMIT ≡ run_limit }
{}
