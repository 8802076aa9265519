//! The rewriting by copies.

ghost use Rattle.std.specs.Prelude.{◌≡◌};
ghost use Rattle.pw_opt_rules.specs.Copies.{copied};

use crate::originals::Originals;
use pw_flow::{End, Op};
use pw_opt_rewrite::{end_with_originals, have_originals, op_defines, with_originals};
use pw_opt_rows::{Rewriting, Row, View};
use pw_opt_rules::Flat;
use std::alloc::{AllocError as NoMemory, Global};

/// The temporary of which an operation makes a copy.
fn copied_by(op: &Op) -> Flat
    ensures { result ≡ copied op.now }
{
    match op {
        Op::Copy(t, a) => { if *a == *t { Flat::Many } else { Flat::One(*a) } }
        _ => Flat::Many,
    }
}

impl Rewriting for Originals {
    ghost use Rattle.pw_opt_rules.specs.Copies.{copies};
    ghost use Rattle.pw_opt_order.specs.Order.{copies_rise};
    ghost use Rattle.pw_opt_order.specs.Reads.{copies_read};
    ghost use Rattle.pw_opt_copies.specs.Originals.{may_copy, is_noted};
    ghost use Rattle.pw_opt_copies.specs.Keeping.{copies_keep};

    ghost rewriting = { λ _. copies };

    ghost may = { may_copy };

    ghost is_about = { is_noted };

    fn follow(&self, view: &View<'_>, row: &mut Row, op: &Op) {
        if let Some(t) = op_defines(op) {
            self.forget(view, row, t);
            view.set(row, t, copied_by(op));
        }
    }

    fn op(
        &self,
        alloc: Global,
        view: &View<'_>,
        row: &Row,
        op: &Op,
    ) -> Result<Option<Op>, NoMemory> {
        if have_originals(view, row, op) {
            let new = with_originals(alloc, view, row, op)?;
            return Ok(Some(new));
        }
        Ok(None)
    }

    fn end(&self, view: &View<'_>, row: &Row, end: End) -> End {
        end_with_originals(view, row, end)
    }

    ghost rises = { λ _. copies_rise };

    ghost reads = { λ _. copies_read };

    ghost keeps = { copies_keep };
}
