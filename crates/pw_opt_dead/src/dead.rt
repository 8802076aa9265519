//! Dead operations: those that do no more than define a temporary which is not live directly behind them.

ghost use Rattle.std.specs.Prelude.{ℕ, ◌≡◌, ◌<◌, ◌&&◌, ◌++◌, ◌∷◌, if◌then◌else◌, false, not, [], Some, map, reverse, length, slice_get, All, IfOk, OnOk, vec_len};
ghost use Rattle.pw_flow.specs.Outline.{Outline as OutlineValue, act_of, stretch_of, outline_of};
ghost use Rattle.pw_flow.specs.Uses.{op_defines};
ghost use Rattle.pw_flow.specs.declared.flow.Block.{Block as BlockValue};
ghost use Rattle.pw_live_fronts.specs.Blocks.{IsAct, IsStretch, IsOutline};
ghost use Rattle.pw_live_fronts.specs.LiveFronts.{AreFronts};
ghost use Rattle.pw_opt_rules.specs.Dead.{only_defines, live_ops, live_block, without_dead};
ghost use Rattle.pw_opt_dead.specs.Marks.{is_marked, is_needed_by, MarksLive};

use crate::marks::{mark_end, step_back, unmark_front};
use pw_flow::{Block, FlowFn, Op};
use pw_items::Items;
use pw_live::laws::longer_paths_add_nothing;
use pw_live_fronts::{Act, Fronts, Outline, Stretch, find_fronts};
use pw_live_outline::outline_of;
use pw_opt_quiet::Quiet;
use std::alloc::{AllocError as NoMemory, Global};

/// Whether what an operation defines is among what is live behind it; where it defines nothing, it counts as needed.
fn is_needed(live: &[bool], defines: Option<u32>) -> bool
    ensures { result ≡ is_needed_by live.now defines }
{
    match defines {
        Some(t) => {
            let place = t as usize;
            place < live.len() && live[place]
        }
        None => true,
    }
}

/// Whether an operation stays.
fn stays(quiet: &Quiet<'_>, live: &[bool], op: &Op, act: &Act) -> bool
    requires { act.now ≡ act_of op.now }
    ensures { result ≡ not (only_defines quiet.now.flow.now op.now && not (is_needed_by live.now (op_defines op.now))) }
{
    !quiet.only_defines(op) || is_needed(live, act.defines())
}

/// Puts an operation behind the others, if it stays.
fn push_if(kept: &mut Vec<Op>, op: Op, stays: bool) -> Result<(), NoMemory>
    ensures { OnOk result (kept.new.items ≡ (if stays then kept.old.items ++ op ∷ [] else kept.old.items)) }
{
    if stays {
        kept.push(op)?;
    }
    Ok(())
}

/// The operations of a block that stay, from the last one to the first. `live` is what is live at the block's end, and becomes
/// what is live at its front.
fn kept_ops(
    alloc: Global,
    quiet: &Quiet<'_>,
    live: &mut [bool],
    ops: Items<Op>,
    acts: &[Act],
) -> Result<Vec<Op>, NoMemory>
    requires acts { acts.now ≡ map act_of ops }
    requires within { All (IsAct (length live.old)) acts.now }
    ensures length { length live.new ≡ length live.old }
    ensures kept { IfOk result (λ kept. (f : OutlineValue) (b : BlockValue) → MarksLive f b [] live.old → kept.items ≡ reverse (live_ops quiet.now.flow.now f b ops)) }
    ensures live { OnOk result ((f : OutlineValue) (b : BlockValue) → MarksLive f b [] live.old → MarksLive f b ops live.new) }
{
    let mut left = ops;
    let mut kept = Vec::with_capacity(alloc, left.len())?;
    while let Some(op) = left.pop() {
        let act = &acts[left.len()];
        let stays = stays(quiet, live, &op, act);
        step_back(live, act);
        push_if(&mut kept, op, stays)?;
    }
    Ok(kept)
}

/// Marks of temporaries, and a list of some.
#[derive(Drop)]
struct Room {
    live: Vec<bool>,
    at: Vec<u32>,
}

/// A block without its dead operations. Nothing is marked, before and behind.
fn live_block(
    alloc: Global,
    quiet: &Quiet<'_>,
    fronts: &Fronts,
    room: &mut Room,
    place: usize,
    block: Block,
    stretch: &Stretch,
) -> Result<Block, NoMemory>
    requires stretch { stretch.now ≡ stretch_of block }
    requires within { IsStretch (vec_len room.old.live) (vec_len fronts.now.rows) stretch.now }
    requires temps { vec_len room.old.live ≡ vec_len fronts.now.exposed.numbers }
    requires place { place < vec_len fronts.now.rows }
    requires none { (t : ℕ) → is_marked room.old.live.items t ≡ false }
    ensures length { vec_len room.new.live ≡ vec_len room.old.live }
    ensures block { IfOk result (λ new. (f : OutlineValue) → AreFronts f fronts.now → new ≡ live_block quiet.now.flow.now f block) }
    ensures none { OnOk result ((f : OutlineValue) → AreFronts f fronts.now → slice_get f.blocks place ≡ Some stretch.now → (t : ℕ) → is_marked room.new.live.items t ≡ false) }
{
    let Block { depth, ops, end } = block;
    mark_end(
        &mut room.live,
        &mut room.at,
        fronts,
        stretch.uses(),
        stretch.next(),
    )?;
    let mut kept = kept_ops(alloc, quiet, &mut room.live, ops, stretch.acts())?;
    unmark_front(&mut room.live, &mut room.at, fronts, place)?;
    longer_paths_add_nothing();
    kept.reverse();
    let ops = Items::from_vec(kept);
    Ok(Block { depth, ops, end })
}

/// The blocks of a function without their dead operations.
fn live_blocks(
    alloc: Global,
    quiet: &Quiet<'_>,
    fronts: &Fronts,
    outline: &Outline,
    blocks: Items<Block>,
) -> Result<Items<Block>, NoMemory>
    requires blocks { outline.now.blocks ≡ map stretch_of blocks }
    requires within { IsOutline outline.now }
    requires fronts { AreFronts outline.now fronts.now }
    ensures { IfOk result (λ new. new ≡ map (live_block quiet.now.flow.now outline.now) blocks) }
{
    let live = vec![in alloc; false; outline.temps() as usize]?;
    let at = Vec::new(alloc);
    let mut room = Room { live, at };
    let mut left = blocks;
    let mut new = Vec::with_capacity(alloc, left.len())?;
    while let Some(block) = left.pop() {
        let place = left.len();
        let stretch = &outline.blocks()[place];
        let block = live_block(alloc, quiet, fronts, &mut room, place, block, stretch)?;
        new.push(block)?;
    }
    new.reverse();
    Ok(Items::from_vec(new))
}

/// A function without its dead operations.
///
/// # Errors
///
/// `NoMemory` where there is no memory for its outline, for what is live in it, and for the operations that stay.
pub fn remove_dead(alloc: Global, quiet: &Quiet<'_>, f: FlowFn) -> Result<FlowFn, NoMemory>
    requires { IsOutline (outline_of f) }
    ensures { IfOk result (λ g. g ≡ without_dead quiet.now.flow.now f) }
{
    let outline = outline_of(alloc, &f)?;
    let fronts = find_fronts(alloc, &outline)?;
    let FlowFn {
        name,
        shape,
        params,
        temps,
        slots,
        blocks,
    } = f;
    let blocks = live_blocks(alloc, quiet, &fronts, &outline, blocks)?;
    Ok(FlowFn {
        name,
        shape,
        params,
        temps,
        slots,
        blocks,
    })
}
