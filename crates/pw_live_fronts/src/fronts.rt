//! What is live at the fronts of blocks, by the data-flow solver.

ghost use Rattle.std.specs.Prelude.{◌≡◌, ◌<◌, ◌≤◌, ◌⊎◌, ◌↔◌, ℕ, true, length, vec_len, Contains, IsTrue, IfOk, OnOk};
ghost use Rattle.pw_fix.specs.RowLaws.{members_fit};
ghost use Rattle.pw_fix.specs.Table.{HoldsAt};
ghost use Rattle.pw_flow.specs.Outline.{Outline as OutlineValue};
ghost use Rattle.pw_live_fronts.specs.Blocks.{IsOutline};
ghost use Rattle.pw_live_fronts.specs.Exposing.{IsNumber};
ghost use Rattle.pw_live_fronts.specs.Flowing.{IsNeededRow, needing_monotone};
ghost use Rattle.pw_live.specs.Liveness.{is_live_in};
ghost use Rattle.pw_live_fronts.specs.LiveFronts.{AreFronts};

use crate::edges::edges_of;
use crate::exposed::expose_all;
use crate::marking::{Marks, mark_all};
use crate::named::Exposed;
use crate::outline::Outline;
use pw_fix::{BitRow, Graph, Problem, Rows, solve};
use std::alloc::{AllocError as NoMemory, Global};

/// A node needs what its block uses first, and what nodes behind it need and the block does not define.
#[derive(Drop)]
struct Needing<'a> {
    rows: Rows,
    marks: &'a Marks,
    ghost same: { marks.now.uses.len ≡ rows.len },
}

impl<'a> Problem for Needing<'a> {
    type L = Rows;

    ghost node_count = { λ p. vec_len p.marks.now.uses.rows };

    ghost lattice_of = { λ p. p.rows };

    ghost height_of = { λ p. p.rows.len };

    ghost gives = { λ p n x y. IsNeededRow (HoldsAt p.marks.now.uses n) (HoldsAt p.marks.now.defines n) x y };

    fn lattice(&self) -> &Rows {
        &self.rows
    }

    fn step(&self, node: usize, inflow: &BitRow, out: &mut BitRow) {
        out.copy_from(inflow);
        out.subtract(self.marks.defines.row(node));
        out.union_with(self.marks.uses.row(node));
    }

    fn height(&self) -> u64 {
        self.rows.len as u64
    }

    ghost monotone = { λ p n x y a b _ _ _ _ _. needing_monotone (HoldsAt p.marks.now.uses n) (HoldsAt p.marks.now.defines n) x y a b };

    ghost bounded = { λ p x. members_fit p.rows.len x };
}

/// Which temporaries are live at the front of each block.
#[derive(Drop)]
pub struct Fronts {
    /// The temporaries of which rows are kept.
    pub exposed: Exposed,
    /// By nodes: from the last block on.
    pub rows: Vec<BitRow>,
}

/// What is live at the fronts of a function's blocks.
pub fn find_fronts(alloc: Global, f: &Outline) -> Result<Fronts, NoMemory>
    requires { IsOutline f.now }
    ensures { IfOk result (AreFronts f.now) }
{
    let blocks = f.blocks();
    let exposed = expose_all(alloc, f)?;
    let marks = mark_all(alloc, &exposed, f)?;
    let edges = edges_of(alloc, f)?;
    let len = exposed.names.len();
    let _nothing = BitRow::new(alloc, len)?;
    let graph = Graph {
        nodes: blocks.len(),
        edges,
    };
    let needing = Needing {
        rows: Rows { len },
        marks: &marks,
    };
    let rows = solve(alloc, &graph, &needing)?;
    Ok(Fronts { exposed, rows })
}

/// Puts the temporary of a number behind the others, if there is one.
fn push_named(live: &mut Vec<u32>, exposed: &Exposed, i: usize) -> Result<(), NoMemory>
    ensures { OnOk result ((t : ℕ) → Contains live.new.items t ↔ (Contains live.old.items t ⊎ IsNumber exposed.now t i)) }
{
    if i >= exposed.names.len() {
        return Ok(());
    }
    live.push(exposed.names[i])?;
    Ok(())
}

impl Fronts {
    ghost use Rattle.pw_live_fronts.specs.LiveFronts.{IsLiveAt};

    /// Whether a temporary is live at the front of a block.
    pub fn is_live(&self, block: usize, t: u32) -> bool
        requires block { block < vec_len self.now.rows }
        requires temp { t < vec_len self.now.exposed.numbers }
        ensures { IsTrue result ↔ IsLiveAt self.now block t }
    {
        match self.exposed.numbers[t as usize] {
            Some(i) => self.rows[self.rows.len() - 1 - block].contains(i),
            None => false,
        }
    }

    /// Makes a list that of the temporaries that are live at the front of a block.
    pub fn collect_live(&self, live: &mut Vec<u32>, block: usize) -> Result<(), NoMemory>
        requires block { block < vec_len self.now.rows }
        ensures { OnOk result ((t : ℕ) → Contains live.new.items t ↔ IsLiveAt self.now block t) }
    {
        live.clear();
        let place = self.rows.len() - 1 - block;
        let row = &self.rows[place];
        let _len = row.len;
        let mut at = 0;
        while let Some(i) = row.next_from(at) {
            push_named(live, &self.exposed, i)?;
            at = i + 1;
        }
        Ok(())
    }

    /// The temporaries that are live at the front of a block.
    pub fn live(&self, alloc: Global, block: usize) -> Result<Vec<u32>, NoMemory>
        requires block { block < vec_len self.now.rows }
        ensures { IfOk result (λ v. (t : ℕ) → Contains v.items t ↔ IsLiveAt self.now block t) }
    {
        let mut live = Vec::new(alloc);
        self.collect_live(&mut live, block)?;
        Ok(live)
    }
}
