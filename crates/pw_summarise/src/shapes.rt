//! The shapes of a function's calls through values.

ghost use Rattle.std.specs.Prelude.{◌≡◌, ◌++◌, map, OnOk, IfOk};
ghost use Rattle.std.specs.List.{flat_map};
ghost use Rattle.pw_summarise.specs.Summarises.{IsOrdered, called_shape, in_function};

use pw_flow::{Block, FlowFn, Op};
use pw_items::Items;
use pw_value::Shape;
use std::alloc::{AllocError, Global};

/// The shape of a call through a value.
fn add_op(shapes: &mut Vec<Shape>, alloc: Global, op: &Op) -> Result<(), AllocError>
    ensures { OnOk result (shapes.new.items ≡ shapes.old.items ++ called_shape op.now) }
{
    if let Op::CallInd(_, _, shape, _) = op {
        shapes.push(shape.copy(alloc)?)?;
    }
    Ok(())
}

/// The shapes of operations.
fn add_ops(shapes: &mut Vec<Shape>, alloc: Global, ops: &[Op]) -> Result<(), AllocError>
    ensures { OnOk result (shapes.new.items ≡ shapes.old.items ++ flat_map called_shape ops.now) }
{
    for op in ops {
        add_op(shapes, alloc, op)?;
    }
    Ok(())
}

/// The shapes of blocks.
fn add_blocks(shapes: &mut Vec<Shape>, alloc: Global, blocks: &[Block]) -> Result<(), AllocError>
    ensures { OnOk result (shapes.new.items ≡ shapes.old.items ++ flat_map (λ b. flat_map called_shape b.ops) blocks.now) }
{
    for block in blocks {
        add_ops(shapes, alloc, block.ops.as_slice())?;
    }
    Ok(())
}

/// The shapes of a function's calls through values, each once and in byte order.
pub(crate) fn called_shapes(alloc: Global, function: &FlowFn) -> Result<Items<Shape>, AllocError>
    ensures { IfOk result (λ v. IsOrdered (λ shape. shape) (in_function called_shape function.now) v) }
{
    let mut shapes = Vec::new(alloc);
    add_blocks(&mut shapes, alloc, function.blocks.as_slice())?;
    shapes.sort_unstable();
    shapes.dedup();
    Ok(Items::from_vec(shapes))
}
