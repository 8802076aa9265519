//! Operations on other operands.

ghost use Rattle.std.specs.Prelude.{◌≡◌, map, IfOk};
ghost use Rattle.std.specs.Bool.{OnFalse};
ghost use Rattle.pw_flow.specs.declared.flow.Op.TheVariants as op;
ghost use Rattle.pw_opt_rules.specs.Copies.{original, with_operands, with_end_operand};
ghost use Rattle.pw_opt_rows.specs.Seeing.{seen_by};

use pw_flow::{End, Op};
use pw_items::Items;
use pw_opt_rows::{Row, View};
use pw_opt_rules::Flat;
use pw_value::{Kind, Name, Shape};
use std::alloc::{AllocError as NoMemory, Global};

/// What stands for an operand: the one temporary that is known of it, or itself.
pub fn original(view: &View<'_>, row: &Row, a: u32) -> u32
    ensures { result ≡ original (seen_by view.now row.now) a }
{
    match view.get(row, a) {
        Flat::One(x) => x,
        _ => a,
    }
}

/// Whether another temporary stands for an operand.
fn has_original(view: &View<'_>, row: &Row, a: u32) -> bool
    ensures { OnFalse result (a ≡ original (seen_by view.now row.now) a) }
{
    original(view, row, a) != a
}

/// Whether another temporary stands for one of several operands.
fn some_has_original(view: &View<'_>, row: &Row, args: &[u32]) -> bool
    ensures { OnFalse result (args.now ≡ map (original (seen_by view.now row.now)) args.now) }
{
    for &a in args {
        if has_original(view, row, a) {
            return true;
        }
    }
    false
}

/// Whether another temporary stands for an operand of an operation.
pub fn have_originals(view: &View<'_>, row: &Row, op: &Op) -> bool
    ensures { OnFalse result (op.now ≡ with_operands (original (seen_by view.now row.now)) op.now) }
{
    match op {
        Op::Const(_, _)
        | Op::AddrGlobal(_, _, _)
        | Op::AddrSlot(_, _)
        | Op::AddrFn(_, _)
        | Op::LoadG(_, _, _) => false,
        Op::Copy(_, a)
        | Op::Un(_, _, a)
        | Op::Ext(_, _, a)
        | Op::StoreG(_, a, _)
        | Op::Load(_, _, a) => has_original(view, row, *a),
        Op::Bin(_, _, a, b) | Op::Store(_, a, b) | Op::Move(a, b, _, _) => {
            has_original(view, row, *a) || has_original(view, row, *b)
        }
        Op::Call(_, _, args) => some_has_original(view, row, args.as_slice()),
        Op::CallInd(_, a, _, args) => {
            has_original(view, row, *a) || some_has_original(view, row, args.as_slice())
        }
    }
}

/// What stands for each of several operands.
fn originals(
    alloc: Global,
    view: &View<'_>,
    row: &Row,
    args: &[u32],
) -> Result<Items<u32>, NoMemory>
    ensures { IfOk result (λ v. v ≡ map (original (seen_by view.now row.now)) args.now) }
{
    let mut new = Items::new(alloc);
    for &a in args {
        new.push(original(view, row, a))?;
    }
    Ok(new)
}

/// A call of a function by its name.
fn call(
    alloc: Global,
    view: &View<'_>,
    row: &Row,
    t: Option<u32>,
    f: &Name,
    args: &[u32],
) -> Result<Op, NoMemory>
    ensures { IfOk result (λ o. o ≡ op.Call t f.now (map (original (seen_by view.now row.now)) args.now)) }
{
    let args = originals(alloc, view, row, args)?;
    Ok(Op::Call(t, f.copy(alloc)?, args))
}

/// A call of the function that a temporary holds.
fn call_through(
    alloc: Global,
    view: &View<'_>,
    row: &Row,
    t: Option<u32>,
    a: u32,
    shape: &Shape,
    args: &[u32],
) -> Result<Op, NoMemory>
    ensures { IfOk result (λ o. o ≡ op.CallInd t (original (seen_by view.now row.now) a) shape.now (map (original (seen_by view.now row.now)) args.now)) }
{
    let args = originals(alloc, view, row, args)?;
    Ok(Op::CallInd(t, original(view, row, a), shape.copy(alloc)?, args))
}

/// The address of an object.
fn address(alloc: Global, t: u32, g: &Name, n: u32) -> Result<Op, NoMemory>
    ensures { IfOk result (λ o. o ≡ op.AddrGlobal t g.now n) }
{
    Ok(Op::AddrGlobal(t, g.copy(alloc)?, n))
}

/// A read of an object.
fn read(alloc: Global, t: u32, g: &Name, k: Kind) -> Result<Op, NoMemory>
    ensures { IfOk result (λ o. o ≡ op.LoadG t g.now k) }
{
    Ok(Op::LoadG(t, g.copy(alloc)?, k))
}

/// A write of an object.
fn write(
    alloc: Global,
    view: &View<'_>,
    row: &Row,
    g: &Name,
    a: u32,
    k: Kind,
) -> Result<Op, NoMemory>
    ensures { IfOk result (λ o. o ≡ op.StoreG g.now (original (seen_by view.now row.now) a) k) }
{
    Ok(Op::StoreG(g.copy(alloc)?, original(view, row, a), k))
}

/// The same operation on what stands for its operands. Where nothing is known it is a copy.
pub fn with_originals(alloc: Global, view: &View<'_>, row: &Row, op: &Op) -> Result<Op, NoMemory>
    ensures { IfOk result (λ o. o ≡ with_operands (original (seen_by view.now row.now)) op.now) }
{
    match op {
        Op::Const(t, n) => Ok(Op::Const(*t, *n)),
        Op::Copy(t, a) => Ok(Op::Copy(*t, original(view, row, *a))),
        Op::Un(k, t, a) => Ok(Op::Un(*k, *t, original(view, row, *a))),
        Op::Bin(k, t, a, b) => Ok(Op::Bin(
            *k,
            *t,
            original(view, row, *a),
            original(view, row, *b),
        )),
        Op::Ext(k, t, a) => Ok(Op::Ext(*k, *t, original(view, row, *a))),
        Op::AddrGlobal(t, g, n) => address(alloc, *t, g, *n),
        Op::AddrSlot(t, s) => Ok(Op::AddrSlot(*t, *s)),
        Op::AddrFn(t, f) => Ok(Op::AddrFn(*t, f.copy(alloc)?)),
        Op::LoadG(t, g, k) => read(alloc, *t, g, *k),
        Op::StoreG(g, a, k) => write(alloc, view, row, g, *a, *k),
        Op::Load(k, t, a) => Ok(Op::Load(*k, *t, original(view, row, *a))),
        Op::Store(k, a, b) => Ok(Op::Store(*k, original(view, row, *a), original(view, row, *b))),
        Op::Move(a, b, size, unit) => Ok(Op::Move(
            original(view, row, *a),
            original(view, row, *b),
            *size,
            *unit,
        )),
        Op::Call(t, f, args) => call(alloc, view, row, *t, f, args.as_slice()),
        Op::CallInd(t, a, shape, args) => call_through(
            alloc,
            view,
            row,
            *t,
            *a,
            shape,
            args.as_slice(),
        ),
    }
}

/// The same end on what stands for its operand.
pub fn end_with_originals(view: &View<'_>, row: &Row, end: End) -> End
    ensures { result ≡ with_end_operand (original (seen_by view.now row.now)) end }
{
    match end {
        End::Jump(b) => End::Jump(b),
        End::Branch(a, b, c) => End::Branch(original(view, row, a), b, c),
        End::Return(None) => End::Return(None),
        End::Return(Some(a)) => End::Return(Some(original(view, row, a))),
    }
}
