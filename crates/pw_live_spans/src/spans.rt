//! The spans of points where each temporary of a function is live.

ghost use Rattle.std.specs.Prelude.{◌≡◌, ◌≢◌, ◌⊎◌, ◌+◌, ◌^◌, ◌<◌, ◌≤◌, ◌↔◌, ℕ, true, [], Some, length, slice_get, vec_len, All, Contains, IfOk, OnOk};
ghost use Rattle.pw_flow.specs.Outline.{Stretch as StretchValue};
ghost use Rattle.pw_live_fronts.specs.Blocks.{IsAct, IsStretch, IsOutline};
ghost use Rattle.pw_live.specs.Liveness.{is_live};
ghost use Rattle.pw_live_fronts.specs.LiveFronts.{AreFronts};
ghost use Rattle.pw_live_spans.specs.LivePoints.{IsLiveAtOne, IsLiveBefore, StandsBefore, points_before};
ghost use Rattle.pw_live_spans.specs.Walking.{IsOpen, Marked};
ghost use Rattle.pw_live_spans.specs.AreSpans.{AreSpans};

use crate::walk::Walk;
use pw_items::Items;
use pw_live::laws::longer_paths_add_nothing;
use pw_live_fronts::{Act, Fronts, Outline, Stretch};
use std::alloc::{AllocError as NoMemory, Global};

/// Temporaries that are live from here on.
fn open_all(walk: &mut Walk, temps: &[u32])
    requires temps { All (λ t. t < vec_len walk.old.ends) temps.now }
    requires room { walk.old.place + 1 < 2 ^ 64 }
    ensures place { walk.new.place ≡ walk.old.place }
    ensures count { vec_len walk.new.ends ≡ vec_len walk.old.ends }
    ensures marked { (u q : ℕ) → Marked walk.new u q ↔ (Marked walk.old u q ⊎ (Contains temps.now u × (q ≡ walk.old.place))) }
    ensures opens { (u : ℕ) → IsOpen walk.new u ↔ (IsOpen walk.old u ⊎ Contains temps.now u) }
{
    for &t in temps {
        walk.open_span(t);
    }
}

/// Temporaries that are not live before here.
fn close_all(walk: &mut Walk, temps: &[u32]) -> Result<(), NoMemory>
    requires { All (λ t. t < vec_len walk.old.ends) temps.now }
    ensures place { walk.new.place ≡ walk.old.place }
    ensures count { vec_len walk.new.ends ≡ vec_len walk.old.ends }
    ensures marked { OnOk result ((u q : ℕ) → Marked walk.new u q ↔ Marked walk.old u q) }
    ensures opens { OnOk result ((u : ℕ) → IsOpen walk.new u ↔ (IsOpen walk.old u × ¬ Contains temps.now u)) }
{
    for &t in temps {
        walk.close_span(t)?;
    }
    Ok(())
}

/// What is live at the fronts of blocks is live from here on.
fn open_fronts(
    alloc: Global,
    walk: &mut Walk,
    fronts: &Fronts,
    f: &Outline,
    next: &[u32],
) -> Result<(), NoMemory>
    requires fronts { AreFronts f.now fronts.now }
    requires count { vec_len walk.old.ends ≡ f.now.temps }
    requires next { All (λ b. b < length f.now.blocks) next.now }
    requires room { walk.old.place + 1 < 2 ^ 64 }
    ensures place { walk.new.place ≡ walk.old.place }
    ensures count { vec_len walk.new.ends ≡ vec_len walk.old.ends }
    ensures marked { OnOk result ((u q : ℕ) → Marked walk.new u q ↔ (Marked walk.old u q ⊎ (IsLiveAtOne f.now u next.now × (q ≡ walk.old.place)))) }
    ensures opens { OnOk result ((u : ℕ) → IsOpen walk.new u ↔ (IsOpen walk.old u ⊎ IsLiveAtOne f.now u next.now)) }
{
    for &b in next {
        let live = fronts.live(alloc, b as usize)?;
        open_all(walk, &live);
    }
    Ok(())
}

/// What an operation defines is not live before it.
fn close_defined(walk: &mut Walk, act: &Act) -> Result<(), NoMemory>
    requires act { IsAct (vec_len walk.old.ends) act.now }
    ensures place { walk.new.place ≡ walk.old.place }
    ensures count { vec_len walk.new.ends ≡ vec_len walk.old.ends }
    ensures marked { OnOk result ((u q : ℕ) → Marked walk.new u q ↔ Marked walk.old u q) }
    ensures opens { OnOk result ((u : ℕ) → IsOpen walk.new u ↔ (IsOpen walk.old u × (act.now.defines ≢ Some u))) }
{
    match act.defines() {
        Some(t) => {
            walk.close_span(t)?;
            Ok(())
        }
        None => Ok(()),
    }
}

/// Goes back by an operation: what it defines is not live before it, and what it reads is.
fn walk_act(walk: &mut Walk, act: &Act) -> Result<(), NoMemory>
    requires act { IsAct (vec_len walk.old.ends) act.now }
    requires place { 0 < walk.old.place }
    ensures place { OnOk result (walk.new.place + 1 ≡ walk.old.place) }
    ensures count { vec_len walk.new.ends ≡ vec_len walk.old.ends }
    ensures marked { OnOk result ((u q : ℕ) → Marked walk.new u q ↔ (Marked walk.old u q ⊎ (IsLiveBefore act.now (IsOpen walk.old) u × (q ≡ walk.new.place)))) }
    ensures opens { OnOk result ((u : ℕ) → IsOpen walk.new u ↔ IsLiveBefore act.now (IsOpen walk.old) u) }
{
    close_defined(walk, act)?;
    walk.back();
    open_all(walk, act.uses());
    Ok(())
}

/// Goes back to the end of a block.
fn walk_end(
    alloc: Global,
    walk: &mut Walk,
    fronts: &Fronts,
    f: &Outline,
    block: &Stretch,
) -> Result<(), NoMemory>
    requires fronts { AreFronts f.now fronts.now }
    requires count { vec_len walk.old.ends ≡ f.now.temps }
    requires block { IsStretch f.now.temps (length f.now.blocks) block.now }
    requires shut { (u : ℕ) → ¬ IsOpen walk.old u }
    requires place { 0 < walk.old.place }
    ensures place { OnOk result (walk.new.place + 1 ≡ walk.old.place) }
    ensures count { vec_len walk.new.ends ≡ vec_len walk.old.ends }
    ensures marked { OnOk result ((u q : ℕ) → Marked walk.new u q ↔ (Marked walk.old u q ⊎ ((is_live f.now u [] block.now.uses block.now.next ≡ true) × (q ≡ walk.new.place)))) }
    ensures opens { OnOk result ((u : ℕ) → IsOpen walk.new u ↔ (is_live f.now u [] block.now.uses block.now.next ≡ true)) }
{
    walk.back();
    open_all(walk, block.uses());
    open_fronts(alloc, walk, fronts, f, block.next())?;
    Ok(())
}

/// Goes back from the front of the block behind to that of a block.
fn walk_block(
    alloc: Global,
    walk: &mut Walk,
    fronts: &Fronts,
    f: &Outline,
    b: usize,
) -> Result<(), NoMemory>
    requires outline { IsOutline f.now }
    requires fronts { AreFronts f.now fronts.now }
    requires count { vec_len walk.old.ends ≡ f.now.temps }
    requires block { b < length f.now.blocks }
    requires stands { StandsBefore f.now (b + 1) walk.old }
    ensures count { vec_len walk.new.ends ≡ vec_len walk.old.ends }
    ensures stands { OnOk result (StandsBefore f.now b walk.new) }
{
    let blocks = f.blocks();
    let block = &blocks[b];
    let acts = block.acts();
    walk_end(alloc, walk, fronts, f, block)?;
    for done in 0..acts.len() {
        let place = acts.len() - 1 - done;
        walk_act(walk, &acts[place])?;
    }
    let live = fronts.live(alloc, b)?;
    close_all(walk, &live)?;
    longer_paths_add_nothing();
    Ok(())
}

/// A count with the points of a block, where that can be counted.
fn with_points(count: usize, block: &Stretch) -> Result<usize, NoMemory>
    ensures { IfOk result (λ n. n ≡ count + length block.now.acts + 1) }
{
    let Some(more) = count.checked_add(block.acts().len()) else {
        return Err(NoMemory);
    };
    let Some(next) = more.checked_add(1) else {
        return Err(NoMemory);
    };
    Ok(next)
}

/// How many points the blocks have, where that can be counted.
fn count_points(blocks: &[Stretch]) -> Result<usize, NoMemory>
    ensures { IfOk result (λ n. n ≡ points_before blocks.now (length blocks.now)) }
{
    let mut count: usize = 0;
    for block in blocks {
        let more = with_points(count, block)?;
        count = more;
    }
    Ok(count)
}

/// Of each temporary the spans of points where it is live.
#[derive(Drop)]
pub struct Spans {
    pub lists: Vec<Items<(usize, usize)>>,
}

/// The spans of a function's temporaries.
pub fn find_spans(alloc: Global, fronts: &Fronts, f: &Outline) -> Result<Spans, NoMemory>
    requires outline { IsOutline f.now }
    requires fronts { AreFronts f.now fronts.now }
    ensures { IfOk result (AreSpans f.now) }
{
    let blocks = f.blocks();
    let count = blocks.len();
    let points = count_points(blocks)?;
    let mut walk = Walk::new(alloc, f.temps(), points)?;
    for done in 0..count {
        let b = count - 1 - done;
        walk_block(alloc, &mut walk, fronts, f, b)?;
    }
    let Walk {
        lists,
        ends: _,
        place: _,
    } = walk;
    Ok(Spans { lists })
}

impl Spans {
    /// The spans of a temporary, the first one last.
    pub fn of(&self, t: u32) -> &[(usize, usize)]
        requires { t < vec_len self.now.lists }
        ensures { slice_get self.now.lists.items t ≡ Some result.now }
    {
        self.lists[t as usize].as_slice()
    }
}
