//! The numbers of summaries.

ghost use Rattle.std.specs.Prelude.{◌≡◌};
ghost use Rattle.pw_summary.specs.Summary.{kind, first_version, summary_version, weight_bound, need_limit};

use crate::summary::{FIRST, KIND, NEED_LIMIT, VERSION, WEIGHT_BOUND};

/// The kind and the versions of the file are those that their definitions speak of.
pub fn versions_of_summaries()
    ensures kind { KIND ≡ kind }
    ensures first { FIRST ≡ first_version }
    ensures last { VERSION ≡ summary_version }
{}

/// The bounds are those that their definitions speak of.
pub fn bounds_of_summaries()
    ensures weights { WEIGHT_BOUND ≡ weight_bound }
    ensures needs { NEED_LIMIT ≡ need_limit }
{}
