//! The same function again.

ghost use Rattle.std.specs.Prelude.{◌≡◌, IfOk};

use pw_flow::{Block, FlowFn, Op};
use pw_items::Items;
use pw_opt_constants::Constants;
use std::alloc::{AllocError as NoMemory, Global};

/// The same operations again.
fn same_ops(alloc: Global, constants: &Constants, ops: &[Op]) -> Result<Items<Op>, NoMemory>
    ensures { IfOk result (λ v. v ≡ ops.now) }
{
    let mut same = Vec::with_capacity(alloc, ops.len())?;
    for op in ops {
        same.push(constants.same(alloc, op)?)?;
    }
    Ok(Items::from_vec(same))
}

/// The same blocks again.
fn same_blocks(
    alloc: Global,
    constants: &Constants,
    blocks: &[Block],
) -> Result<Items<Block>, NoMemory>
    ensures { IfOk result (λ v. v ≡ blocks.now) }
{
    let mut same = Items::new(alloc);
    for block in blocks {
        let ops = same_ops(alloc, constants, block.ops.as_slice())?;
        same.push(Block {
            depth: block.depth,
            ops,
            end: block.end,
        })?;
    }
    Ok(same)
}

/// A copy of a function.
pub(crate) fn same_function(
    alloc: Global,
    constants: &Constants,
    f: &FlowFn,
) -> Result<FlowFn, NoMemory>
    ensures { IfOk result (λ g. g ≡ f.now) }
{
    let blocks = same_blocks(alloc, constants, f.blocks.as_slice())?;
    let slots = Items::from_slice(alloc, f.slots.as_slice())?;
    Ok(FlowFn {
        name: f.name.copy(alloc)?,
        shape: f.shape.copy(alloc)?,
        params: f.params,
        temps: f.temps,
        slots,
        blocks,
    })
}
