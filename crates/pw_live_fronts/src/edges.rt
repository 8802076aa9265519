//! The ways from block to block, as edges from the node of the block behind to that of the block before.

ghost use Rattle.std.specs.Prelude.{◌≡◌, ◌++◌, ◌-◌, ◌<◌, ℕ, length, map, All, IfOk, OnOk, ◌↔◌};
ghost use Rattle.pw_fix.specs.Solution.{HasEdge};
ghost use Rattle.pw_live_fronts.specs.Blocks.{IsOutline};
ghost use Rattle.pw_live_fronts.specs.Flowing.{IsEdge};

use crate::outline::Outline;
use std::alloc::{AllocError as NoMemory, Global};

/// Adds the edges from the nodes of the blocks at which a block may go on.
fn add_edges(
    edges: &mut Vec<(usize, usize)>,
    next: &[u32],
    count: usize,
    to: usize,
) -> Result<(), NoMemory>
    requires { All (λ b. b < count) next.now }
    ensures { OnOk result (edges.new.items ≡ edges.old.items ++ map (λ b. (count - 1 - b, to)) next.now) }
{
    for &b in next {
        edges.push((count - 1 - b as usize, to))?;
    }
    Ok(())
}

/// All edges of a function.
pub(crate) fn edges_of(alloc: Global, f: &Outline) -> Result<Vec<(usize, usize)>, NoMemory>
    requires { IsOutline f.now }
    ensures { IfOk result (λ edges. (m n : ℕ) → HasEdge edges.items m n ↔ IsEdge f.now m n) }
{
    let blocks = f.blocks();
    let count = blocks.len();
    let mut edges = Vec::new(alloc);
    for place in 0..count {
        add_edges(&mut edges, blocks[place].next(), count, count - 1 - place)?;
    }
    Ok(edges)
}
