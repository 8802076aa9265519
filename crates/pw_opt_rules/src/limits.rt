//! How large a function may be.

ghost use Rattle.std.specs.Prelude.{◌≡◌};
ghost use Rattle.pw_opt_rules.specs.Optimised.{optimise_limit};

/// A function whose temporaries times its blocks are more stays as it is.
pub const OPTIMISE_LIMIT: u64 = 4_000_000;

/// `OPTIMISE_LIMIT` is the number above which the definitions leave a function as it is.
pub fn limit_with_name()
    ensures { OPTIMISE_LIMIT ≡ optimise_limit }
{}
