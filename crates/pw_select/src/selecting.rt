//! Selection.

ghost use Rattle.std.specs.Prelude.{◌≡◌, ◌+◌, ◌<◌, ◌≤◌, ◌^◌, ◌++◌, length, IfOk, OnOk};
ghost use Rattle.std.specs.List.{flat_map, AllByRecursion};
ghost use Rattle.pw_select_lines.specs.Operations.{web_op_lines, layout};
ghost use Rattle.pw_select.specs.Selection.{end_lines, block_lines, blocks_lines, slot_offsets, selected};
ghost use Rattle.pw_select_lines.specs.Selectable.{IsSelectable};
ghost use Rattle.pw_select.specs.Selectable.{IsFrame, IsSelectableBlock};
ghost use Rattle.pw_alloc.specs.Allocation.{in_frame};
ghost use Rattle.pw_alloc.specs.Frames.{head_size};
ghost use Rattle.pw_alloc.specs.ValidPlaces.{IsLocated};
ghost use Rattle.pw_delay.specs.Lines.{AreLines};

use crate::bounds::{put_epilogue, put_prologue};
use pw_alloc::{Located, Place, head_size, slot_offsets, slots_begin};
use pw_flow::End;
use pw_inst::{ANSWER, FIRST, Line};
use pw_items::Items;
use pw_select_lines::{place_of, put_loaded, put_operand, put_web_op};
use pw_value::words::next_word;
use pw_webflow::{WebBlock, WebOp};
use std::alloc::{AllocError, Global};

/// How many temporaries stand in the frame.
fn in_frame(places: &[Place]) -> u32
    requires { length places.now < 2 ^ 32 }
    ensures value { result ≡ in_frame places.now }
{
    let mut count = 0;
    let mut rest = places;
    while let [place, after @ ..] = rest {
        if let Place::Slot(_) = place {
            count += 1;
        }
        rest = after;
    }
    count
}

/// The way on from a block, by the size of the frame's head.
fn put_end(
    alloc: Global,
    out: &mut Items<Line>,
    f: &Located,
    head: u32,
    end: End,
) -> Result<(), AllocError>
    requires frame { IsFrame f.now }
    requires head { head ≡ head_size f.now.body }
    ensures { OnOk result (out.new ≡ out.old ++ end_lines f.now end) }
{
    match end {
        End::Jump(block) => out.push(Line::Jump(block)),
        End::Branch(a, yes, no) => {
            let r = put_operand(out, place_of(f.places.as_slice(), a), FIRST)?;
            out.push(Line::BranchNonZero(r, yes))?;
            out.push(Line::Jump(no))
        }
        End::Return(None) => put_epilogue(alloc, out, f, head),
        End::Return(Some(a)) => {
            put_loaded(out, place_of(f.places.as_slice(), a), ANSWER)?;
            put_epilogue(alloc, out, f, head)
        }
    }
}

fn put_ops(
    alloc: Global,
    out: &mut Items<Line>,
    places: &[Place],
    slots: &[i32],
    ops: &[WebOp],
) -> Result<(), AllocError>
    requires { AllByRecursion IsSelectable ops.now }
    ensures { OnOk result (out.new ≡ out.old ++ flat_map (web_op_lines (layout places.now slots.now)) ops.now) }
{
    let mut rest = ops;
    while let [op, after @ ..] = rest {
        put_web_op(alloc, out, places, slots, op)?;
        rest = after;
    }
    Ok(())
}

/// The lines of the block of a number.
fn put_block(
    alloc: Global,
    out: &mut Items<Line>,
    f: &Located,
    head: u32,
    slots: &[i32],
    number: u32,
    block: &WebBlock,
) -> Result<(), AllocError>
    requires frame { IsFrame f.now }
    requires head { head ≡ head_size f.now.body }
    requires ops { IsSelectableBlock block.now }
    ensures { OnOk result (out.new ≡ out.old ++ block_lines f.now slots.now number block.now) }
{
    out.push(Line::Label(number))?;
    put_ops(alloc, out, f.places.as_slice(), slots, block.ops.as_slice())?;
    put_end(alloc, out, f, head, block.end)
}

/// The lines of blocks, the first of which has the number 0.
fn put_blocks(
    alloc: Global,
    out: &mut Items<Line>,
    f: &Located,
    head: u32,
    slots: &[i32],
    blocks: &[WebBlock],
) -> Result<(), AllocError>
    requires frame { IsFrame f.now }
    requires head { head ≡ head_size f.now.body }
    requires ops { AllByRecursion IsSelectableBlock blocks.now }
    ensures { OnOk result (out.new ≡ out.old ++ blocks_lines f.now slots.now 0 blocks.now) }
{
    let mut number: u32 = 0;
    let mut rest = blocks;
    while let [block, after @ ..] = rest {
        put_block(alloc, out, f, head, slots, number, block)?;
        number = next_word(number)?;
        rest = after;
    }
    Ok(())
}

/// The size of the frame's head. It is taken once, since it reads every operation.
fn frame_head(f: &Located) -> u32
    requires { IsLocated f.now }
    ensures { result ≡ head_size f.now.body }
{
    head_size(&f.body)
}

/// The offsets of the slots of the frame.
fn frame_slots(alloc: Global, f: &Located) -> Result<Items<i32>, AllocError>
    requires { IsLocated f.now }
    ensures { IfOk result (λ offsets. offsets ≡ slot_offsets f.now) }
{
    let head = head_size(&f.body);
    let temps = in_frame(f.places.as_slice());
    let begin = slots_begin(head, f.saved.len() as u32, temps);
    let offsets = slot_offsets(alloc, begin, f.body.slots.as_slice())?;
    Ok(offsets)
}

/// The prologue, the blocks in order, and at each return the epilogue.
#[tactic(auto, unfolding(crate::specs::Selection::selected))]
fn select_lines(alloc: Global, f: &Located) -> Result<Items<Line>, AllocError>
    requires { IsLocated f.now }
    ensures { IfOk result (λ lines. lines ≡ selected f.now) }
{
    let slots = frame_slots(alloc, f)?;
    let head = frame_head(f);
    let mut out = Items::new(alloc);
    put_prologue(alloc, &mut out, f)?;
    put_blocks(
        alloc,
        &mut out,
        f,
        head,
        slots.as_slice(),
        f.body.blocks.as_slice(),
    )?;
    Ok(out)
}

/// The lines of a lawful function's code, which can be placed.
pub fn select(alloc: Global, f: &Located) -> Result<Vec<Line>, AllocError>
    requires { IsLocated f.now }
    ensures value { IfOk result (λ lines. lines.items ≡ selected f.now) }
    ensures lines { IfOk result (λ lines. AreLines lines.items) }
{
    let lines = select_lines(alloc, f)?;
    Ok(lines.into_vec())
}
