//! What is known of a function's temporaries.

ghost use Rattle.std.specs.Prelude.{IfOk};
ghost use Rattle.pw_live_fronts.specs.Blocks.{IsOutline};
ghost use Rattle.pw_live_held.specs.IsLiveness.{IsLiveness};

use crate::points::{find_last_calls, find_makers};
use pw_live_fronts::{Outline, find_fronts};
use pw_live_spans::{Spans, find_spans};
use std::alloc::{AllocError as NoMemory, Global};

/// Where a function's temporaries are live, and what stands before its points.
#[derive(Drop)]
pub struct Liveness {
    pub spans: Spans,
    /// Of each point the temporary that the operation directly before it writes.
    pub makers: Vec<Option<u32>>,
    /// Of each point the last one up to it that stands behind a call, if one does.
    pub calls: Vec<Option<usize>>,
}

/// What is known of a lawful function's temporaries.
pub fn find_liveness(alloc: Global, f: &Outline) -> Result<Liveness, NoMemory>
    requires { IsOutline f.now }
    ensures { IfOk result (IsLiveness f.now) }
{
    let makers = find_makers(alloc, f)?;
    let calls = find_last_calls(alloc, f)?;
    let fronts = find_fronts(alloc, f)?;
    let spans = find_spans(alloc, &fronts, f)?;
    Ok(Liveness {
        spans,
        makers,
        calls,
    })
}
