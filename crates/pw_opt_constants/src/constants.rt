//! The rewriting by constants.

ghost use Rattle.std.specs.Prelude.{◌≡◌, [], IfOk, MatchOption};
ghost use Rattle.pw_opt_rules.specs.Constants.{constant, jump_or};
ghost use Rattle.pw_opt_rows.specs.Seeing.{seen_by};
ghost use Rattle.pw_opt_constants.specs.Folding.{folded};

use pw_flow::{End, Op};
use pw_opt_places::Places;
use pw_opt_rewrite::{op_defines, with_originals};
use pw_opt_rows::{Rewriting, Row, View};
use pw_opt_rules::Flat;
use pw_opt_words::{of_binary, of_extension, of_unary};
use std::alloc::{AllocError as NoMemory, Global};

/// What is known of the temporary that an operation defines.
fn constant_of(view: &View<'_>, row: &Row, op: &Op) -> Flat
    ensures { result ≡ constant (seen_by view.now row.now) op.now }
{
    match op {
        Op::Const(_, n) => Flat::One(*n),
        Op::Copy(_, a) => view.get(row, *a),
        Op::Un(k, _, a) => of_unary(*k, view.get(row, *a)),
        Op::Bin(k, _, a, b) => of_binary(*k, view.get(row, *a), view.get(row, *b)),
        Op::Ext(k, _, a) => of_extension(*k, view.get(row, *a)),
        _ => Flat::Many,
    }
}

/// A branch on what is known of its temporary.
fn branch(known: Flat, a: u32, b: u32, c: u32) -> End
    ensures { result ≡ jump_or known a b c }
{
    match known {
        Flat::One(n) => { if n == 0 { End::Jump(c) } else { End::Jump(b) } }
        _ => End::Branch(a, b, c),
    }
}

/// The constant that takes the place of an operation, where what it defines is known to be one.
fn constant_in(op: &Op, known: Flat) -> Option<Op>
    ensures { MatchOption result (op.now ≡ folded op.now known) (λ o. o ≡ folded op.now known) }
{
    match op {
        Op::Copy(t, _) | Op::Un(_, t, _) | Op::Bin(_, t, _, _) | Op::Ext(_, t, _) => {
            match known {
                Flat::One(n) => Some(Op::Const(*t, n)),
                Flat::Bottom | Flat::Many => None,
            }
        }
        Op::Const(_, _)
        | Op::AddrGlobal(_, _, _)
        | Op::AddrSlot(_, _)
        | Op::AddrFn(_, _)
        | Op::LoadG(_, _, _)
        | Op::StoreG(_, _, _)
        | Op::Load(_, _, _)
        | Op::Store(_, _, _)
        | Op::Move(_, _, _, _)
        | Op::Call(_, _, _)
        | Op::CallInd(_, _, _, _) => None,
    }
}

/// The rewriting by constants.
#[derive(Drop)]
pub struct Constants {
    nowhere: Places,
    nothing: Row,
    ghost empty: { nowhere.places.items ≡ [] },
}

impl Constants {
    /// The rewriting by constants.
    ///
    /// # Errors
    ///
    /// `NoMemory` where there is no memory for a row without places.
    pub fn new(alloc: Global) -> Result<Constants, NoMemory> {
        let nothing = Row::bottom(alloc, 0, 0)?;
        let nowhere = Places::none(alloc);
        Ok(Constants { nowhere, nothing })
    }

    /// The same operation again.
    pub fn same(&self, alloc: Global, op: &Op) -> Result<Op, NoMemory>
        ensures { IfOk result (λ o. o ≡ op.now) }
    {
        let view = View {
            places: &self.nowhere,
            block: 0,
        };
        let same = with_originals(alloc, &view, &self.nothing, op)?;
        Ok(same)
    }
}

impl Rewriting for Constants {
    ghost use Rattle.std.specs.Prelude.{true};
    ghost use Rattle.pw_opt_rules.specs.Constants.{constants};
    ghost use Rattle.pw_opt_order.specs.Order.{constants_rise};
    ghost use Rattle.pw_opt_order.specs.Reads.{constants_read};
    ghost use Rattle.pw_opt_constants.specs.Anything.{anything_may};

    ghost rewriting = { λ _. constants };

    ghost may = { λ _ _ _. true };

    ghost is_about = { λ _ _. true };

    fn follow(&self, view: &View<'_>, row: &mut Row, op: &Op) {
        if let Some(t) = op_defines(op) {
            let known = constant_of(view, row, op);
            view.set(row, t, known);
        }
    }

    fn op(
        &self,
        _alloc: Global,
        view: &View<'_>,
        row: &Row,
        op: &Op,
    ) -> Result<Option<Op>, NoMemory> {
        Ok(constant_in(op, constant_of(view, row, op)))
    }

    fn end(&self, view: &View<'_>, row: &Row, end: End) -> End {
        match end {
            End::Branch(a, b, c) => branch(view.get(row, a), a, b, c),
            _ => end,
        }
    }

    ghost rises = { λ _. constants_rise };

    ghost reads = { λ _. constants_read };

    ghost keeps = { λ _ row o _ _. anything_may (constants.transfer row o) };
}
