//! The outline of a flow graph.

ghost use Rattle.std.specs.Prelude.{◌≡◌, ◌∷◌, [], map, IfOk};
ghost use Rattle.pw_flow.specs.Outline.{act_of, stretch_of, outline_of};
ghost use Rattle.pw_flow.specs.Uses.{op_uses, op_defines, op_calls, end_uses, successors};

use pw_flow::{Block, End, FlowFn, Op};
use pw_items::Items;
use pw_live_fronts::{Act, Few, Outline, Stretch};
use smallvec::SmallVec;
use std::alloc::{AllocError as NoMemory, Global};

/// The same numbers, as items.
pub fn numbers(alloc: Global, numbers: &[u32]) -> Result<Items<u32>, NoMemory>
    ensures { IfOk result (λ v. v ≡ numbers.now) }
{
    Ok(Items::from_vec(Vec::from_slice(alloc, numbers)?))
}

/// The same numbers, of which there are few.
pub fn few(alloc: Global, numbers: &[u32]) -> Result<Few, NoMemory>
    ensures { IfOk result (λ v. v.items ≡ numbers.now) }
{
    SmallVec::from_slice(alloc, numbers)
}

/// A number, and numbers behind it.
fn few_behind(alloc: Global, first: u32, rest: &[u32]) -> Result<Few, NoMemory>
    ensures { IfOk result (λ v. v.items ≡ first ∷ rest.now) }
{
    let mut all = few(alloc, &[first])?;
    all.extend_from_slice(rest)?;
    Ok(all)
}

/// The temporaries that an operation of a flow graph reads.
pub fn op_uses(alloc: Global, op: &Op) -> Result<Few, NoMemory>
    ensures { IfOk result (λ v. v.items ≡ op_uses op.now) }
{
    match op {
        Op::Const(_, _)
        | Op::AddrGlobal(_, _, _)
        | Op::AddrSlot(_, _)
        | Op::AddrFn(_, _)
        | Op::LoadG(_, _, _) => Ok(SmallVec::new(alloc)),
        Op::Copy(_, a) | Op::Un(_, _, a) | Op::Ext(_, _, a) | Op::Load(_, _, a) => {
            few(alloc, &[*a])
        }
        Op::StoreG(_, a, _) => few(alloc, &[*a]),
        Op::Bin(_, _, a, b) | Op::Store(_, a, b) | Op::Move(a, b, _, _) => few(alloc, &[*a, *b]),
        Op::Call(_, _, args) => few(alloc, args.as_slice()),
        Op::CallInd(_, a, _, args) => few_behind(alloc, *a, args.as_slice()),
    }
}

/// The temporary that an operation of a flow graph writes.
pub fn op_defines(op: &Op) -> Option<u32>
    ensures { result ≡ op_defines op.now }
{
    match op {
        Op::Const(t, _)
        | Op::Copy(t, _)
        | Op::Un(_, t, _)
        | Op::Bin(_, t, _, _)
        | Op::Ext(_, t, _)
        | Op::AddrGlobal(t, _, _)
        | Op::AddrSlot(t, _)
        | Op::AddrFn(t, _)
        | Op::LoadG(t, _, _)
        | Op::Load(_, t, _) => Some(*t),
        Op::StoreG(_, _, _) | Op::Store(_, _, _) | Op::Move(_, _, _, _) => None,
        Op::Call(t, _, _) | Op::CallInd(t, _, _, _) => *t,
    }
}

/// Whether an operation of a flow graph calls.
pub fn op_calls(op: &Op) -> bool
    ensures { result ≡ op_calls op.now }
{
    match op {
        Op::Call(_, _, _) | Op::CallInd(_, _, _, _) => true,
        _ => false,
    }
}

/// What an operation reads and writes, and whether it calls.
pub fn act_of(alloc: Global, op: &Op) -> Result<Act, NoMemory>
    ensures { IfOk result (λ a. a ≡ act_of op.now) }
{
    Ok(Act::new(op_defines(op), op_uses(alloc, op)?, op_calls(op)))
}

fn acts(alloc: Global, ops: &[Op]) -> Result<Items<Act>, NoMemory>
    ensures { IfOk result (λ v. v ≡ map act_of ops.now) }
{
    let mut acts = Vec::with_capacity(alloc, ops.len())?;
    for op in ops {
        acts.push(act_of(alloc, op)?)?;
    }
    Ok(Items::from_vec(acts))
}

/// The temporaries that the end of a block reads.
pub fn end_uses(alloc: Global, end: End) -> Result<Few, NoMemory>
    ensures { IfOk result (λ v. v.items ≡ end_uses end) }
{
    match end {
        End::Jump(_) | End::Return(None) => Ok(SmallVec::new(alloc)),
        End::Branch(a, _, _) | End::Return(Some(a)) => few(alloc, &[a]),
    }
}

/// The blocks at which a function may go on behind a block's end.
pub fn successors(alloc: Global, end: End) -> Result<Few, NoMemory>
    ensures { IfOk result (λ v. v.items ≡ successors end) }
{
    match end {
        End::Jump(b) => few(alloc, &[b]),
        End::Branch(_, b, c) => few(alloc, &[b, c]),
        End::Return(_) => Ok(SmallVec::new(alloc)),
    }
}

fn stretch(alloc: Global, block: &Block) -> Result<Stretch, NoMemory>
    ensures { IfOk result (λ s. s ≡ stretch_of block.now) }
{
    let acts = acts(alloc, block.ops.as_slice())?;
    let uses = end_uses(alloc, block.end)?;
    let next = successors(alloc, block.end)?;
    Ok(Stretch::new(block.depth, acts, uses, next))
}

/// The outline of a flow graph.
pub fn outline_of(alloc: Global, f: &FlowFn) -> Result<Outline, NoMemory>
    ensures { IfOk result (λ o. o ≡ outline_of f.now) }
{
    let mut blocks = Vec::with_capacity(alloc, f.blocks.len())?;
    for block in f.blocks.as_slice() {
        blocks.push(stretch(alloc, block)?)?;
    }
    Ok(Outline::new(f.params, f.temps, Items::from_vec(blocks)))
}
