//! The lattice of rows of what is known, place by place.

use crate::rewriting::Rewriting;
use crate::row::Row;
use pw_fix::Lattice;
use pw_opt_places::Places;
use std::alloc::{AllocError as NoMemory, Global};

/// The rows of places in which each temporary has what it may have in a rewriting. What a block has for itself does not count.
/// Each chain that rises has at most twice as many steps as there are temporaries that go from block to block.
#[derive(Drop)]
pub(crate) struct FlatRows<'a, R> {
    pub rewriting: &'a R,
    pub places: &'a Places,
}

impl<'a, R: Rewriting> Lattice for FlatRows<'a, R> {
    ghost use Rattle.pw_opt_rows.specs.Joins.{row_rank};
    ghost use Rattle.pw_opt_rows.specs.Seeing.{IsOwn, IsBelowShared};
    ghost use Rattle.pw_opt_rows.specs.RowLaws.{rows_order};

    type Elem = Row;

    ghost is_own = { λ rows row. IsOwn rows.places.now (R.may rows.rewriting.now) row };

    ghost is_below = { λ _ a b. IsBelowShared a b };

    ghost rank = { λ _ row. row_rank row.0 };

    fn bottom(&self, alloc: Global) -> Result<Row, NoMemory> {
        let row = Row::bottom(alloc, self.places.shared(), self.places.own)?;
        Ok(row)
    }

    fn join(&self, into: &mut Row, from: &Row) -> bool {
        into.join(from)
    }

    fn le(&self, a: &Row, b: &Row) -> bool {
        a.is_below(b)
    }

    ghost order = { λ rows. rows_order rows.places.now (R.may rows.rewriting.now) };
}
