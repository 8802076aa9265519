//! What stands before the points of a function.

ghost use Rattle.std.specs.Prelude.{◌≡◌, ◌+◌, ◌++◌, ℕ, List, Bool, Some, map, slice_get, IfOk, OnOk};
ghost use Rattle.pw_live.specs.Points.{points_in, points};
ghost use Rattle.pw_live_held.specs.Makers.{maker, calls};
ghost use Rattle.pw_live_held.specs.Calls.{IsLastCall, AreLastCalls, AreCallsOf};

use pw_live_fronts::{Outline, Stretch};
use std::alloc::{AllocError as NoMemory, Global};

/// Adds the temporaries that are written directly before the points of a block.
fn add_makers(makers: &mut Vec<Option<u32>>, block: &Stretch) -> Result<(), NoMemory>
    ensures { OnOk result (makers.new.items ≡ makers.old.items ++ map maker (points_in block.now)) }
{
    makers.push(None)?;
    for act in block.acts() {
        makers.push(act.defines())?;
    }
    Ok(())
}

/// Of each point the temporary that the operation directly before it writes.
pub(crate) fn find_makers(alloc: Global, f: &Outline) -> Result<Vec<Option<u32>>, NoMemory>
    ensures { IfOk result (λ v. v.items ≡ map maker (points f.now)) }
{
    let mut makers = Vec::new(alloc);
    for block in f.blocks() {
        add_makers(&mut makers, block)?;
    }
    Ok(makers)
}

/// Adds whether there are calls directly before the points of a block.
fn add_calls(all: &mut Vec<bool>, block: &Stretch) -> Result<(), NoMemory>
    ensures { OnOk result (all.new.items ≡ all.old.items ++ map calls (points_in block.now)) }
{
    all.push(false)?;
    for act in block.acts() {
        all.push(act.calls())?;
    }
    Ok(())
}

/// Of each point whether the operation directly before it calls.
fn find_calls(alloc: Global, f: &Outline) -> Result<Vec<bool>, NoMemory>
    ensures { IfOk result (λ v. v.items ≡ map calls (points f.now)) }
{
    let mut all = Vec::new(alloc);
    for block in f.blocks() {
        add_calls(&mut all, block)?;
    }
    Ok(all)
}

/// The last point up to one that stands behind a call, where the last one before is known.
fn last_call(call: bool, p: usize, before: Option<usize>) -> Option<usize>
    ensures { (all : List Bool) → slice_get all p ≡ Some call → IsLastCall all 0 p before → IsLastCall all 0 (p + 1) result }
{
    if call { Some(p) } else { before }
}

/// Of each point the last one up to it that stands behind a call, if one does.
fn last_calls(alloc: Global, all: &[bool]) -> Result<Vec<Option<usize>>, NoMemory>
    ensures { IfOk result (λ v. AreLastCalls all.now v.items) }
{
    let mut lasts = Vec::new(alloc);
    let mut last = None;
    for p in 0..all.len() {
        let here = last_call(all[p], p, last);
        lasts.push(here)?;
        last = here;
    }
    Ok(lasts)
}

/// Of each point of a function the last one up to it that stands behind a call, if one does.
pub(crate) fn find_last_calls(alloc: Global, f: &Outline) -> Result<Vec<Option<usize>>, NoMemory>
    ensures { IfOk result (λ v. AreCallsOf f.now v.items) }
{
    let calls = find_calls(alloc, f)?;
    let lasts = last_calls(alloc, &calls)?;
    Ok(lasts)
}
