//! The order in which webs get registers.

ghost use Rattle.std.specs.Prelude.{IfOk};
ghost use Rattle.std.specs.List.Sorted.{IsPermutation};
ghost use Rattle.pw_db.specs.Database.{EachTwo};
ghost use Rattle.pw_webs.specs.Webs.{StandsBefore};
ghost use Rattle.pw_colour.specs.Colours.{ComesFirst};

use pw_webs::RawWeb;
use std::alloc::AllocError;

/// Webs in the order in which they get registers: those that save more first, and else as they stand.
pub(crate) fn ranked(webs: Vec<RawWeb>) -> Result<Vec<RawWeb>, AllocError>
    requires { EachTwo StandsBefore webs.items }
    ensures same { IfOk result (λ v. IsPermutation webs.items v.items) }
    ensures order { IfOk result (λ v. EachTwo ComesFirst v.items) }
{
    let mut all = webs;
    all.sort_by(|one, other| other.priority.cmp(&one.priority))?;
    Ok(all)
}
