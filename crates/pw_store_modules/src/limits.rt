//! How long a module's name may be, and how much of its text is read.

ghost use Rattle.std.specs.Prelude.{◌≡◌};
ghost use Rattle.pw_store_modules.specs.Limits.{module_name_limit};
ghost use Rattle.pw_store_modules.specs.Modules.{text_read};

use pw_token::TEXT_LIMIT;

/// The greatest count of bytes of a module's name.
pub const MODULE_NAME_LIMIT: usize = 64;

/// The greatest count of bytes that is read of a text's file: one more than a text may have.
pub const TEXT_READ: usize = TEXT_LIMIT + 1;

/// The limits are those that the definitions speak of.
pub fn limits_of_modules()
    ensures name { MODULE_NAME_LIMIT ≡ module_name_limit }
    ensures text { TEXT_READ ≡ text_read }
{}
