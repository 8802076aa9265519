//! Copies of operations and of directed functions.

ghost use Rattle.std.specs.Prelude.{◌≡◌, IfOk};
ghost use Rattle.pw_flow.specs.declared.flow.Op.TheVariants as flow;

use crate::web::{WebBlock, WebFn, WebOp};
use pw_flow::Op;
use pw_items::Items;
use pw_value::{Kind, Name, Shape};
use std::alloc::{AllocError, Global};

/// The same call of a function by its name again.
fn copy_call(alloc: Global, t: Option<u32>, f: &Name, args: &[u32]) -> Result<Op, AllocError>
    ensures { IfOk result (λ o. o ≡ flow.Call t f.now args.now) }
{
    let args = Items::from_slice(alloc, args)?;
    Ok(Op::Call(t, f.copy(alloc)?, args))
}

/// The same call of the function that a temporary holds again.
fn copy_call_ind(
    alloc: Global,
    t: Option<u32>,
    a: u32,
    shape: &Shape,
    args: &[u32],
) -> Result<Op, AllocError>
    ensures { IfOk result (λ o. o ≡ flow.CallInd t a shape.now args.now) }
{
    let args = Items::from_slice(alloc, args)?;
    Ok(Op::CallInd(t, a, shape.copy(alloc)?, args))
}

/// The same address of an object again.
fn copy_address(alloc: Global, t: u32, g: &Name, n: u32) -> Result<Op, AllocError>
    ensures { IfOk result (λ o. o ≡ flow.AddrGlobal t g.now n) }
{
    Ok(Op::AddrGlobal(t, g.copy(alloc)?, n))
}

/// The same read of an object again.
fn copy_load(alloc: Global, t: u32, g: &Name, k: Kind) -> Result<Op, AllocError>
    ensures { IfOk result (λ o. o ≡ flow.LoadG t g.now k) }
{
    Ok(Op::LoadG(t, g.copy(alloc)?, k))
}

/// The same write of an object again.
fn copy_store(alloc: Global, g: &Name, a: u32, k: Kind) -> Result<Op, AllocError>
    ensures { IfOk result (λ o. o ≡ flow.StoreG g.now a k) }
{
    Ok(Op::StoreG(g.copy(alloc)?, a, k))
}

/// The same operation again.
pub fn copy_op(alloc: Global, op: &Op) -> Result<Op, AllocError>
    ensures { IfOk result (λ o. o ≡ op.now) }
{
    match op {
        Op::Const(t, n) => Ok(Op::Const(*t, *n)),
        Op::Copy(t, a) => Ok(Op::Copy(*t, *a)),
        Op::Un(k, t, a) => Ok(Op::Un(*k, *t, *a)),
        Op::Bin(k, t, a, b) => Ok(Op::Bin(*k, *t, *a, *b)),
        Op::Ext(k, t, a) => Ok(Op::Ext(*k, *t, *a)),
        Op::AddrGlobal(t, g, n) => copy_address(alloc, *t, g, *n),
        Op::AddrSlot(t, s) => Ok(Op::AddrSlot(*t, *s)),
        Op::AddrFn(t, f) => Ok(Op::AddrFn(*t, f.copy(alloc)?)),
        Op::LoadG(t, g, k) => copy_load(alloc, *t, g, *k),
        Op::StoreG(g, a, k) => copy_store(alloc, g, *a, *k),
        Op::Load(k, t, a) => Ok(Op::Load(*k, *t, *a)),
        Op::Store(k, a, b) => Ok(Op::Store(*k, *a, *b)),
        Op::Move(a, b, size, unit) => Ok(Op::Move(*a, *b, *size, *unit)),
        Op::Call(t, f, args) => copy_call(alloc, *t, f, args.as_slice()),
        Op::CallInd(t, a, shape, args) => copy_call_ind(alloc, *t, *a, shape, args.as_slice()),
    }
}

/// The same operation again.
fn copy_web_op(alloc: Global, op: &WebOp) -> Result<WebOp, AllocError>
    ensures { IfOk result (λ o. o ≡ op.now) }
{
    match op {
        WebOp::Flow(op) => Ok(WebOp::Flow(copy_op(alloc, op)?)),
        WebOp::Read(t, r) => Ok(WebOp::Read(*t, *r)),
        WebOp::Write(r, a) => Ok(WebOp::Write(*r, *a)),
    }
}

fn copy_web_ops(alloc: Global, ops: &[WebOp]) -> Result<Items<WebOp>, AllocError>
    ensures { IfOk result (λ v. v ≡ ops.now) }
{
    let mut copies = Items::new(alloc);
    for op in ops {
        copies.push(copy_web_op(alloc, op)?)?;
    }
    Ok(copies)
}

fn copy_web_blocks(alloc: Global, blocks: &[WebBlock]) -> Result<Items<WebBlock>, AllocError>
    ensures { IfOk result (λ v. v ≡ blocks.now) }
{
    let mut copies = Items::new(alloc);
    for block in blocks {
        copies.push(WebBlock {
            depth: block.depth,
            ops: copy_web_ops(alloc, block.ops.as_slice())?,
            end: block.end,
        })?;
    }
    Ok(copies)
}

impl WebFn {
    /// The same function again.
    pub fn copy(&self, alloc: Global) -> Result<WebFn, AllocError>
        ensures { IfOk result (λ f. f ≡ self.now) }
    {
        let blocks = copy_web_blocks(alloc, self.blocks.as_slice())?;
        let slots = Items::from_slice(alloc, self.slots.as_slice())?;
        Ok(WebFn {
            name: self.name.copy(alloc)?,
            shape: self.shape.copy(alloc)?,
            params: self.params,
            temps: self.temps,
            slots,
            blocks,
            directives: self.directives.copy(alloc)?,
        })
    }
}
