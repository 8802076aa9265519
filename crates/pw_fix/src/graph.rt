//! Directed graphs by a count of nodes and a list of edges.

ghost use Rattle.std.specs.Prelude.{◌≡◌, ℕ, ◌<◌, ◌↔◌, List, All, Contains, IfOk, Some, slice_get, vec_len};
ghost use Rattle.smallvec.specs.SmallVec.{SmallVec as Row};

use smallvec::SmallVec;
use std::alloc::{AllocError as NoMemory, Global};

/// A directed graph. The nodes are the numbers below `nodes`, and each edge goes from its first
/// node to its second. An edge may stand there several times, and may go from a node to itself.
#[derive(Drop)]
pub struct Graph {
    pub nodes: usize,
    pub edges: Vec<(usize, usize)>,
    pub ghost within: { All (λ (e : ℕ × ℕ). (e.0 < nodes) × (e.1 < nodes)) edges.items },
}

impl Graph {
    ghost use Rattle.pw_fix.specs.Solution.{HasEdge};

    /// For each node the nodes to which its edges go, in the order of the edges.
    pub(crate) fn successors(&self, alloc: Global) -> Result<Vec<SmallVec<usize, 2>>, NoMemory>
        ensures each { IfOk result (λ rows. vec_len rows ≡ self.now.nodes) }
        ensures exact { IfOk result (λ rows. (m n : ℕ) (row : Row ℕ) → slice_get rows.items m ≡ Some row
            → Contains row.items n ↔ HasEdge self.now.edges.items m n) }
    {
        let mut rows = Vec::with_capacity(alloc, self.nodes)?;
        for _ in 0..self.nodes {
            rows.push(SmallVec::new(alloc))?;
        }
        for &(from, to) in &self.edges {
            rows[from].push(to)?;
        }
        Ok(rows)
    }
}
