//! The ways from block to block as edges.

ghost use Rattle.std.specs.Prelude.{ℕ, ◌≡◌, ◌++◌, ◌↔◌, map, IfOk, OnOk};
ghost use Rattle.pw_fix.specs.Solution.{HasEdge};
ghost use Rattle.pw_flow.specs.Uses.{successors};
ghost use Rattle.pw_opt_rows.specs.Outflows.{IsEdge};

use pw_flow::{Block, End};
use std::alloc::{AllocError as NoMemory, Global};

/// Adds the edges from a block to those at which it may go on.
fn add_edges(edges: &mut Vec<(usize, usize)>, from: usize, end: End) -> Result<(), NoMemory>
    ensures { OnOk result (edges.new.items ≡ edges.old.items ++ map (λ b. (from, b)) (successors end)) }
{
    match end {
        End::Jump(b) => {
            edges.push((from, b as usize))?;
            Ok(())
        }
        End::Branch(_, b, c) => {
            edges.push((from, b as usize))?;
            edges.push((from, c as usize))?;
            Ok(())
        }
        End::Return(_) => Ok(()),
    }
}

/// All edges of a function.
pub(crate) fn edges_of(alloc: Global, blocks: &[Block]) -> Result<Vec<(usize, usize)>, NoMemory>
    ensures { IfOk result (λ edges. (m n : ℕ) → HasEdge edges.items m n ↔ IsEdge blocks.now m n) }
{
    let mut edges = Vec::new(alloc);
    for place in 0..blocks.len() {
        add_edges(&mut edges, place, blocks[place].end)?;
    }
    Ok(edges)
}
