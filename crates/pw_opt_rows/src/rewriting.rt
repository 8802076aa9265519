//! Rewritings of flow graphs.

ghost use Rattle.std.specs.Prelude.{ℕ, ◌≡◌, Bool, true, List, IfOk, MatchOption};
ghost use Rattle.pw_flow.specs.declared.flow.Op.{Op as OpValue};
ghost use Rattle.pw_opt_rules.specs.declared.flat.Flat.{Flat as FlatValue};
ghost use Rattle.pw_opt_rules.specs.Rewriting.{Rewriting as RewritingValue};
ghost use Rattle.pw_opt_order.specs.Rises.{Rises};
ghost use Rattle.pw_opt_order.specs.Reads.{ReadsOperands};
ghost use Rattle.pw_opt_places.specs.Places.{DefinesAtHome};
ghost use Rattle.pw_opt_rows.specs.Joins.{HasWhatMay};
ghost use Rattle.pw_opt_rows.specs.Seeing.{IsRowOf, seen_by};

use crate::row::Row;
use crate::view::View;
use pw_flow::{End, Op};
use std::alloc::{AllocError as NoMemory, Global};

/// What is known of temporaries behind operations, and what becomes of operations and of the ends of blocks by that.
pub trait Rewriting {
    /// Which rewriting it is.
    ghost rewriting: { Self → RewritingValue };

    /// Whether a temporary may be known to have this.
    ghost may: { Self → ℕ → ℕ → Bool };

    /// The operations that it is about.
    ghost is_about: { Self → OpValue → Bool };

    /// Makes of what is known before an operation of a block what is known behind it, in place. Takes no memory.
    fn follow(&self, view: &View<'_>, row: &mut Row, op: &Op)
        requires about { is_about self.now op.now ≡ true }
        requires home { DefinesAtHome view.now.places.now.places.items view.now.block op.now }
        requires row { IsRowOf view.now.places.now row.old }
        requires may { HasWhatMay (may self.now) (seen_by view.now row.old) }
        ensures seen { seen_by view.now row.new ≡ (rewriting self.now).transfer (seen_by view.now row.old) op.now }
        ensures row { IsRowOf view.now.places.now row.new };

    /// What becomes of an operation by what is known before it; `None` where it stays.
    fn op(&self, alloc: Global, view: &View<'_>, row: &Row, op: &Op) -> Result<Option<Op>, NoMemory>
        ensures { IfOk result (λ new. MatchOption new (op.now ≡ (rewriting self.now).op (seen_by view.now row.now) op.now)
            (λ o. o ≡ (rewriting self.now).op (seen_by view.now row.now) op.now)) };

    /// What becomes of the end of a block by what is known before it. Takes no memory.
    fn end(&self, view: &View<'_>, row: &Row, end: End) -> End
        ensures { result ≡ (rewriting self.now).end (seen_by view.now row.now) end };

    /// More that is known before is more that is known behind.
    ghost rises: { (r : Self) → Rises (rewriting r).transfer };

    /// What is known of operands is all that is read of a row.
    ghost reads: { (r : Self) → ReadsOperands (rewriting r) };

    /// Behind an operation too each temporary has no one thing but what it may have.
    ghost keeps: { (r : Self) (row : List FlatValue) (o : OpValue) → is_about r o ≡ true → HasWhatMay (may r) row
        → HasWhatMay (may r) ((rewriting r).transfer row o) };
}
