//! What is live at a point of a block, as a mark for each temporary.

ghost use Rattle.std.specs.Prelude.{ℕ, ◌≡◌, ◌&&◌, ◌||◌, ◌<◌, false, not, length, All, OnOk, vec_len};
ghost use Rattle.std.specs.List.{list_any};
ghost use Rattle.pw_flow.specs.Outline.{Outline as OutlineValue};
ghost use Rattle.pw_live.specs.Liveness.{has, is_that, is_live_in};
ghost use Rattle.pw_live_fronts.specs.Blocks.{IsAct};
ghost use Rattle.pw_live_fronts.specs.LiveFronts.{AreFronts};
ghost use Rattle.pw_opt_dead.specs.Marks.{is_marked};

use pw_live_fronts::{Act, Fronts};
use std::alloc::AllocError as NoMemory;

/// Marks temporaries.
fn mark_all(live: &mut [bool], temps: &[u32])
    requires { All (λ t. t < length live.old) temps.now }
    ensures length { length live.new ≡ length live.old }
    ensures marks { (t : ℕ) → is_marked live.new t ≡ (has t temps.now || is_marked live.old t) }
{
    for &t in temps {
        live[t as usize] = true;
    }
}

/// Takes the mark of a temporary away, if there is one.
fn unmark(live: &mut [bool], t: Option<u32>)
    ensures length { length live.new ≡ length live.old }
    ensures marks { (u : ℕ) → is_marked live.new u ≡ (not (is_that t u) && is_marked live.old u) }
{
    let Some(t) = t else {
        return;
    };
    let place = t as usize;
    if place < live.len() {
        live[place] = false;
    }
}

/// Steps back over an operation: from what is live behind it to what is live before it.
pub(crate) fn step_back(live: &mut [bool], act: &Act)
    requires { IsAct (length live.old) act.now }
    ensures length { length live.new ≡ length live.old }
    ensures marks { (t : ℕ) → is_marked live.new t ≡ (has t act.now.uses || (not (is_that act.now.defines t) && is_marked live.old t)) }
{
    unmark(live, act.defines());
    mark_all(live, act.uses());
}

/// Takes the marks of temporaries away.
fn unmark_all(live: &mut [bool], temps: &[u32])
    ensures length { length live.new ≡ length live.old }
    ensures marks { (t : ℕ) → is_marked live.new t ≡ (not (has t temps.now) && is_marked live.old t) }
{
    for &t in temps {
        unmark(live, Some(t));
    }
}

/// Takes the marks of what is live at the front of a block away. `at` is spent.
pub(crate) fn unmark_front(
    live: &mut [bool],
    at: &mut Vec<u32>,
    fronts: &Fronts,
    block: usize,
) -> Result<(), NoMemory>
    requires block { block < vec_len fronts.now.rows }
    ensures length { length live.new ≡ length live.old }
    ensures marks { OnOk result ((f : OutlineValue) → AreFronts f fronts.now → (t : ℕ) → is_marked live.new t ≡ (not (is_live_in f t block) && is_marked live.old t)) }
{
    fronts.collect_live(at, block)?;
    unmark_all(live, at);
    Ok(())
}

/// Marks what is live at the front of a block. `at` is spent.
fn mark_front(
    live: &mut [bool],
    at: &mut Vec<u32>,
    fronts: &Fronts,
    block: u32,
) -> Result<(), NoMemory>
    requires block { block < vec_len fronts.now.rows }
    requires temps { length live.old ≡ vec_len fronts.now.exposed.numbers }
    ensures length { length live.new ≡ length live.old }
    ensures marks { OnOk result ((f : OutlineValue) → AreFronts f fronts.now → (t : ℕ) → is_marked live.new t ≡ (is_live_in f t block || is_marked live.old t)) }
{
    fronts.collect_live(at, block as usize)?;
    mark_all(live, at);
    Ok(())
}

/// Marks what is live at the end of a block, where nothing is marked yet. `at` is spent.
pub(crate) fn mark_end(
    live: &mut [bool],
    at: &mut Vec<u32>,
    fronts: &Fronts,
    uses: &[u32],
    next: &[u32],
) -> Result<(), NoMemory>
    requires temps { length live.old ≡ vec_len fronts.now.exposed.numbers }
    requires uses { All (λ t. t < length live.old) uses.now }
    requires next { All (λ b. b < vec_len fronts.now.rows) next.now }
    requires none { (t : ℕ) → is_marked live.old t ≡ false }
    ensures length { length live.new ≡ length live.old }
    ensures marks { OnOk result ((f : OutlineValue) → AreFronts f fronts.now → (t : ℕ) → is_marked live.new t ≡ (has t uses.now || list_any (is_live_in f t) next.now)) }
{
    for &block in next {
        mark_front(live, at, fronts, block)?;
    }
    mark_all(live, uses);
    Ok(())
}
