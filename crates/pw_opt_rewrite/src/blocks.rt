//! Rewriting a function by what is known.

ghost use Rattle.std.specs.Prelude.{◌≡◌, true, length, All, IfOk, OnOk, MatchOption};
ghost use Rattle.pw_flow.specs.declared.flow.Op.{Op as OpValue};
ghost use Rattle.pw_opt_rules.specs.Rows.{behind};
ghost use Rattle.pw_opt_rules.specs.Rewriting.{rewritten_ops, rewritten_block, rewritten_blocks};
ghost use Rattle.pw_opt_places.specs.Places.{DefinesAtHome, DefineAtHome, ArePlacesOf};
ghost use Rattle.pw_opt_rows.specs.Joins.{HasWhatMay};
ghost use Rattle.pw_opt_rows.specs.Outflows.{AreAbout, HasWays, all_rested};
ghost use Rattle.pw_opt_rows.specs.Seeing.{IsOwn, IsRowOf, rested, seen_by};
ghost use Rattle.pw_opt_rewrite.specs.Within.{IsRewrittenWithin};

use pw_flow::{Block, FlowFn, Op};
use pw_items::Items;
use pw_opt_places::Places;
use pw_opt_rows::{Rewriting, Row, View, find_fronts};
use std::alloc::{AllocError as NoMemory, Global};
use std::mem;

/// Puts a new operation in place of one, if there is a new one.
fn put(op: &mut Op, new: Option<Op>)
    ensures { (o : OpValue) → MatchOption new (op.old ≡ o) (λ made. made ≡ o) → op.new ≡ o }
{
    if let Some(new) = new {
        *op = new;
    }
}

/// An operation by what is known before it, in place; behind it `row` is what is known there.
fn rewrite_op<R: Rewriting>(
    alloc: Global,
    rewriting: &R,
    view: &View<'_>,
    row: &mut Row,
    op: &mut Op,
) -> Result<(), NoMemory>
    requires about { R.is_about rewriting.now op.old ≡ true }
    requires home { DefinesAtHome view.now.places.now.places.items view.now.block op.old }
    requires row { IsRowOf view.now.places.now row.old }
    requires may { HasWhatMay (R.may rewriting.now) (seen_by view.now row.old) }
    ensures op { OnOk result (op.new ≡ (R.rewriting rewriting.now).op (seen_by view.now row.old) op.old) }
    ensures behind { OnOk result (seen_by view.now row.new ≡ (R.rewriting rewriting.now).transfer (seen_by view.now row.old) op.old) }
    ensures row { OnOk result (IsRowOf view.now.places.now row.new) }
{
    let new = rewriting.op(alloc, view, row, op)?;
    rewriting.follow(view, row, op);
    put(op, new);
    Ok(())
}

/// The operations of a block, each by what is known before it, in place; behind them `row` is what is known there.
fn rewrite_ops<R: Rewriting>(
    alloc: Global,
    rewriting: &R,
    view: &View<'_>,
    row: &mut Row,
    ops: &mut [Op],
) -> Result<(), NoMemory>
    requires about { All (λ o. R.is_about rewriting.now o ≡ true) ops.old }
    requires home { All (DefinesAtHome view.now.places.now.places.items view.now.block) ops.old }
    requires row { IsRowOf view.now.places.now row.old }
    requires may { HasWhatMay (R.may rewriting.now) (seen_by view.now row.old) }
    ensures ops { OnOk result (ops.new ≡ rewritten_ops (R.rewriting rewriting.now) (seen_by view.now row.old) ops.old) }
    ensures behind { OnOk result (seen_by view.now row.new ≡ behind (R.rewriting rewriting.now).transfer (seen_by view.now row.old) ops.old) }
{
    for place in 0..ops.len() {
        rewrite_op(alloc, rewriting, view, row, &mut ops[place])?;
    }
    Ok(())
}

/// A block by what is known at its front, in place. `row` is spent.
fn rewrite_block<R: Rewriting>(
    alloc: Global,
    rewriting: &R,
    view: &View<'_>,
    row: &mut Row,
    block: &mut Block,
) -> Result<(), NoMemory>
    requires about { AreAbout (R.is_about rewriting.now) block.old }
    requires home { All (DefinesAtHome view.now.places.now.places.items view.now.block) block.old.ops }
    requires row { IsRowOf view.now.places.now row.old }
    requires may { HasWhatMay (R.may rewriting.now) (seen_by view.now row.old) }
    ensures { OnOk result (block.new ≡ rewritten_block (R.rewriting rewriting.now) (seen_by view.now row.old) block.old) }
{
    let ops = mem::replace(&mut block.ops, Items::new(alloc));
    let mut ops = ops.into_vec();
    rewrite_ops(alloc, rewriting, view, row, &mut ops)?;
    block.ops = Items::from_vec(ops);
    block.end = rewriting.end(view, row, block.end);
    Ok(())
}

/// A block by what is known of shared temporaries at its front, in place. `row` is spent.
fn rewrite_at<R: Rewriting>(
    alloc: Global,
    rewriting: &R,
    view: &View<'_>,
    row: &mut Row,
    block: &mut Block,
) -> Result<(), NoMemory>
    requires about { AreAbout (R.is_about rewriting.now) block.old }
    requires home { All (DefinesAtHome view.now.places.now.places.items view.now.block) block.old.ops }
    requires own { IsOwn view.now.places.now (R.may rewriting.now) row.old }
    ensures { OnOk result (block.new ≡ rewritten_block (R.rewriting rewriting.now) (rested view.now.places.now.places.items row.old.0) block.old) }
{
    view.renew(row);
    rewrite_block(alloc, rewriting, view, row, block)?;
    Ok(())
}

/// Blocks by what is known of shared temporaries at their fronts, in place. The rows are spent.
fn rewrite_blocks<R: Rewriting>(
    alloc: Global,
    rewriting: &R,
    places: &Places,
    fronts: &mut [Row],
    blocks: &mut [Block],
) -> Result<(), NoMemory>
    requires count { length fronts.old ≡ length blocks.old }
    requires about { All (AreAbout (R.is_about rewriting.now)) blocks.old }
    requires home { DefineAtHome places.now.places.items blocks.old }
    requires own { All (IsOwn places.now (R.may rewriting.now)) fronts.old }
    ensures { OnOk result (blocks.new ≡ rewritten_blocks (R.rewriting rewriting.now) (all_rested places.now fronts.old) blocks.old) }
{
    for place in 0..blocks.len() {
        let view = View {
            places,
            block: place,
        };
        rewrite_at(
            alloc,
            rewriting,
            &view,
            &mut fronts[place],
            &mut blocks[place],
        )?;
    }
    Ok(())
}

/// The function by the least solution of what is known in it. The places are those of its temporaries.
///
/// # Errors
///
/// `NoMemory` where there is no memory for what is known, and for what takes the place of operations.
pub fn rewrite<R: Rewriting>(
    alloc: Global,
    rewriting: &R,
    places: &Places,
    f: FlowFn,
) -> Result<FlowFn, NoMemory>
    requires ways { HasWays f.blocks }
    requires about { All (AreAbout (R.is_about rewriting.now)) f.blocks }
    requires places { ArePlacesOf f places.now.places.items }
    ensures { IfOk result (IsRewrittenWithin (R.rewriting rewriting.now) (R.may rewriting.now) f) }
{
    let mut fronts = find_fronts(alloc, rewriting, places, &f)?;
    let FlowFn {
        name,
        shape,
        params,
        temps,
        slots,
        blocks,
    } = f;
    let mut blocks = blocks.into_vec();
    rewrite_blocks(alloc, rewriting, places, &mut fronts, &mut blocks)?;
    let blocks = Items::from_vec(blocks);
    Ok(FlowFn {
        name,
        shape,
        params,
        temps,
        slots,
        blocks,
    })
}
