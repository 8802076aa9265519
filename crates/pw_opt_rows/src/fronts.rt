//! The least solution of a rewriting.

ghost use Rattle.std.specs.Prelude.{ℕ, ◌≡◌, ◌*◌, ◌<◌, List, [], length, replicate, All, IfOk, vec_len, slice_get, slice_index_or, slice_set, Some, true};
ghost use Rattle.pw_fix.specs.Solution.{AreDerived, Derivable, IsInflow, into as flows_into};
ghost use Rattle.pw_opt_rules.specs.declared.flat.Flat.{Flat as FlatValue};
ghost use Rattle.pw_opt_rules.specs.declared.flat.Flat.TheVariants.{Bottom, Many};
ghost use Rattle.pw_opt_rules.specs.Rows.{behind};
ghost use Rattle.pw_opt_places.specs.Places.{ArePlacesOf, DefinesAtHome};
ghost use Rattle.pw_opt_rows.specs.Joins.{HasWhatMay};
ghost use Rattle.pw_opt_rows.specs.Places.{DefineNoneAway};
ghost use Rattle.pw_opt_rows.specs.Seeing.{IsRowOf, IsOwn, IsBelowShared, seen_by};
ghost use Rattle.pw_opt_rows.specs.Outflows.{AreAbout, AreFronts, HasWays, IsOutflow, entered};

use crate::edges::edges_of;
use crate::rewriting::Rewriting;
use crate::row::Row;
use crate::rows::FlatRows;
use crate::view::View;
use pw_fix::{Graph, Lattice, Problem, solve};
use pw_flow::{Block, FlowFn, Op};
use pw_opt_places::Places;
use std::alloc::{AllocError as NoMemory, Global};

/// What is known at the front of a block into which a row flows from others: at the start all may be anything.
fn enter(block: usize, inflow: &Row, row: &mut Row)
    requires { length row.old.0 ≡ length inflow.now.0 }
    ensures { row.new ≡ (entered (length row.old.0) block inflow.now.0, row.old.1) }
{
    if block == 0 {
        row.set_many();
    } else {
        row.copy_from(inflow);
    }
}

/// What is known behind operations that follow one another, in place.
fn follow_all<R: Rewriting>(rewriting: &R, view: &View<'_>, row: &mut Row, ops: &[Op])
    requires about { All (λ o. R.is_about rewriting.now o ≡ true) ops.now }
    requires home { All (DefinesAtHome view.now.places.now.places.items view.now.block) ops.now }
    requires row { IsRowOf view.now.places.now row.old }
    requires may { HasWhatMay (R.may rewriting.now) (seen_by view.now row.old) }
    ensures behind { seen_by view.now row.new ≡ behind (R.rewriting rewriting.now).transfer (seen_by view.now row.old) ops.now }
    ensures row { IsRowOf view.now.places.now row.new }
    ensures may { HasWhatMay (R.may rewriting.now) (seen_by view.now row.new) }
{
    for op in ops {
        rewriting.follow(view, row, op);
    }
}

/// A rewriting of blocks as a problem of the solver.
#[derive(Drop)]
struct Blocks<'a, R: Rewriting> {
    rows: FlatRows<'a, R>,
    blocks: &'a [Block],
    ghost about: { All (AreAbout (R.is_about rows.rewriting.now)) blocks.now },
    ghost home: { DefineNoneAway rows.places.now.places.items blocks.now },
}

impl<'a, R: Rewriting> Problem for Blocks<'a, R> {
    ghost use Rattle.pw_opt_rows.specs.RowLaws.{outflows_rise, ranks_fit};

    type L = FlatRows<'a, R>;

    ghost node_count = { λ p. length p.blocks.now };

    ghost lattice_of = { λ p. p.rows };

    ghost height_of = { λ p. 2 * length p.rows.places.now.names.items };

    ghost gives = { λ p n x y. IsOutflow (R.rewriting p.rows.rewriting.now).transfer p.rows.places.now p.blocks.now n x y };

    fn lattice(&self) -> &FlatRows<'a, R> {
        &self.rows
    }

    fn step(&self, node: usize, inflow: &Row, out: &mut Row) {
        let view = View {
            places: self.rows.places,
            block: node,
        };
        enter(node, inflow, out);
        view.renew(out);
        follow_all(
            self.rows.rewriting,
            &view,
            out,
            self.blocks[node].ops.as_slice(),
        );
    }

    fn height(&self) -> u64 {
        2 * self.rows.places.shared() as u64
    }

    ghost monotone = { λ p n x y a b _ _ _ _ _. outflows_rise (R.rewriting p.rows.rewriting.now).transfer (R.rises p.rows.rewriting.now) p.rows.places.now p.blocks.now n x y a b };

    ghost bounded = { λ p x own. ranks_fit (length p.rows.places.now.names.items) x.0 own.0.0 };
}

/// So many rows at Bottom.
fn bottoms(alloc: Global, count: usize, places: &Places) -> Result<Vec<Row>, NoMemory>
    ensures count { IfOk result (λ rows. vec_len rows ≡ count) }
    ensures each { IfOk result (λ rows. All (λ row. (row.0 ≡ replicate (length places.now.names.items) Bottom) × (length row.1 ≡ places.now.own)) rows.items) }
{
    let mut rows = Vec::with_capacity(alloc, count)?;
    for _ in 0..count {
        rows.push(Row::bottom(alloc, places.shared(), places.own)?)?;
    }
    Ok(rows)
}

/// Of each block what flows into it: the join of what flows out of the blocks from which an edge leads there.
fn gather<R: Rewriting>(
    alloc: Global,
    problem: &Blocks<'_, R>,
    edges: &[(usize, usize)],
    ends: &[Row],
) -> Result<Vec<Row>, NoMemory>
    requires edges { All (λ (e : ℕ × ℕ). (e.0 < length ends.now) × (e.1 < length problem.now.blocks.now)) edges.now }
    requires ends { All (IsOwn problem.now.rows.places.now (R.may problem.now.rows.rewriting.now)) ends.now }
    requires derived { AreDerived (IsOwn problem.now.rows.places.now (R.may problem.now.rows.rewriting.now)) IsBelowShared
        (IsOutflow (R.rewriting problem.now.rows.rewriting.now).transfer problem.now.rows.places.now problem.now.blocks.now) edges.now ends.now }
    ensures count { IfOk result (λ fronts. vec_len fronts ≡ length problem.now.blocks.now) }
    ensures inflows { IfOk result (λ fronts. (n : ℕ) (row : List FlatValue × List FlatValue) → slice_get fronts.items n ≡ Some row
        → IsInflow (IsOwn problem.now.rows.places.now (R.may problem.now.rows.rewriting.now)) IsBelowShared edges.now ends.now n row) }
    ensures derived { IfOk result (λ fronts. (n : ℕ) (row : List FlatValue × List FlatValue) → slice_get fronts.items n ≡ Some row
        → Derivable (IsOwn problem.now.rows.places.now (R.may problem.now.rows.rewriting.now)) IsBelowShared
        (IsOutflow (R.rewriting problem.now.rows.rewriting.now).transfer problem.now.rows.places.now problem.now.blocks.now) edges.now (flows_into n) row) }
{
    let mut fronts = bottoms(alloc, problem.blocks.len(), problem.rows.places)?;
    for &(from, to) in edges {
        fronts[to].join(&ends[from]);
    }
    Ok(fronts)
}

/// Rows of which the first is at Many: at the start all may be anything.
fn opened(mut rows: Vec<Row>) -> Vec<Row>
    requires { 0 < length rows.items }
    ensures { result.items ≡ slice_set rows.items 0 (replicate (length (slice_index_or rows.items 0 ([], [])).0) Many, (slice_index_or rows.items 0 ([], [])).1) }
{
    rows[0].set_many();
    rows
}

/// What is known of shared temporaries at the front of each block of a function: the least solution of a rewriting.
///
/// # Errors
///
/// `NoMemory` where there is no memory for three tables of as many rows as there are blocks, each with a place for each shared
/// temporary and for as many as a block has for itself, and for the ways between blocks.
pub fn find_fronts<R: Rewriting>(
    alloc: Global,
    rewriting: &R,
    places: &Places,
    f: &FlowFn,
) -> Result<Vec<Row>, NoMemory>
    requires ways { HasWays f.now.blocks }
    requires about { All (AreAbout (R.is_about rewriting.now)) f.now.blocks }
    requires places { ArePlacesOf f.now places.now.places.items }
    ensures known { IfOk result (λ fronts. AreFronts (R.rewriting rewriting.now).transfer places.now f.now fronts.items) }
    ensures own { IfOk result (λ fronts. All (IsOwn places.now (R.may rewriting.now)) fronts.items) }
{
    let blocks = f.blocks.as_slice();
    let edges = edges_of(alloc, blocks)?;
    let graph = Graph {
        nodes: blocks.len(),
        edges,
    };
    let rows = FlatRows { rewriting, places };
    let problem = Blocks { rows, blocks };
    let ends = solve(alloc, &graph, &problem)?;
    let inflows = gather(alloc, &problem, &graph.edges, &ends)?;
    Ok(opened(inflows))
}
