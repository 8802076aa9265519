//! Reading operations.

ghost use Rattle.std.specs.Prelude.{◌≡◌, ◌≢◌, ℕ, List, length, IfErr};
ghost use Rattle.pw_fields.specs.Fields.{repeated};
ghost use Rattle.pw_fields.specs.FieldFaults.{AnswersField};
ghost use Rattle.pw_flow_ops.specs.Causes.{FaultFirst};
ghost use Rattle.pw_flow_ops.specs.Reading.{operands_at, op_at};
ghost use Rattle.pw_flow_ops.specs.declared.codes.OpCode.TheVariants as code;

use crate::choices::{read_bin_kind, read_ext_kind, read_op_code, read_un_kind};
use crate::codes::OpCode;
use crate::parts::{read_arguments, read_below, read_moved, read_named, read_result};
use pw_fields::{FieldFault, read_text_in_place, read_u32};
use pw_files::kinds::read_scalar;
use pw_flow::Op;
use pw_items::Items;
use pw_value::program_names::StartName;
use pw_value::{Name, Shape};
use std::alloc::Global;

/// The counts of a function's temporaries and slots.
#[derive(Clone, Copy)]
pub struct Counts {
    pub temps: u32,
    pub slots: usize,
}

/// A number.
#[tactic(auto, unfolding(crate::specs::Reading::operands_at))]
fn read_const(at: Counts, bytes: &[u8]) -> Result<(Op, &[u8]), FieldFault>
    ensures found { (names : List (List ℕ)) → AnswersField (λ x. (x.0, x.1.now)) result (operands_at names at.temps at.slots code.Const bytes.now) }
    ensures no_memory { IfErr result (λ e. e ≢ FieldFault.NoMemory) }
{
    let (t, rest) = read_below(at.temps as usize, bytes)?;
    let (n, rest) = read_u32(rest)?;
    Ok((Op::Const(t, n), rest))
}

/// A copy of a temporary.
#[tactic(auto, unfolding(crate::specs::Reading::operands_at))]
fn read_copy(at: Counts, bytes: &[u8]) -> Result<(Op, &[u8]), FieldFault>
    ensures found { (names : List (List ℕ)) → AnswersField (λ x. (x.0, x.1.now)) result (operands_at names at.temps at.slots code.Copy bytes.now) }
    ensures no_memory { IfErr result (λ e. e ≢ FieldFault.NoMemory) }
{
    let (t, rest) = read_below(at.temps as usize, bytes)?;
    let (a, rest) = read_below(at.temps as usize, rest)?;
    Ok((Op::Copy(t, a), rest))
}

/// An operation on one number.
#[tactic(auto, unfolding(crate::specs::Reading::operands_at))]
fn read_un(at: Counts, bytes: &[u8]) -> Result<(Op, &[u8]), FieldFault>
    ensures found { (names : List (List ℕ)) → AnswersField (λ x. (x.0, x.1.now)) result (operands_at names at.temps at.slots code.Un bytes.now) }
    ensures no_memory { IfErr result (λ e. e ≢ FieldFault.NoMemory) }
{
    let (k, rest) = read_un_kind(bytes)?;
    let (t, rest) = read_below(at.temps as usize, rest)?;
    let (a, rest) = read_below(at.temps as usize, rest)?;
    Ok((Op::Un(k, t, a), rest))
}

/// An operation on two numbers.
#[tactic(auto, unfolding(crate::specs::Reading::operands_at))]
fn read_bin(at: Counts, bytes: &[u8]) -> Result<(Op, &[u8]), FieldFault>
    ensures found { (names : List (List ℕ)) → AnswersField (λ x. (x.0, x.1.now)) result (operands_at names at.temps at.slots code.Bin bytes.now) }
    ensures no_memory { IfErr result (λ e. e ≢ FieldFault.NoMemory) }
{
    let (k, rest) = read_bin_kind(bytes)?;
    let (t, rest) = read_below(at.temps as usize, rest)?;
    let (a, rest) = read_below(at.temps as usize, rest)?;
    let (b, rest) = read_below(at.temps as usize, rest)?;
    Ok((Op::Bin(k, t, a, b), rest))
}

/// Low bits, extended.
#[tactic(auto, unfolding(crate::specs::Reading::operands_at))]
fn read_ext(at: Counts, bytes: &[u8]) -> Result<(Op, &[u8]), FieldFault>
    ensures found { (names : List (List ℕ)) → AnswersField (λ x. (x.0, x.1.now)) result (operands_at names at.temps at.slots code.Ext bytes.now) }
    ensures no_memory { IfErr result (λ e. e ≢ FieldFault.NoMemory) }
{
    let (k, rest) = read_ext_kind(bytes)?;
    let (t, rest) = read_below(at.temps as usize, rest)?;
    let (a, rest) = read_below(at.temps as usize, rest)?;
    Ok((Op::Ext(k, t, a), rest))
}

/// The address of an object.
#[tactic(auto, unfolding(crate::specs::Reading::operands_at))]
fn read_addr_global<'a>(
    alloc: Global,
    names: &[Name],
    at: Counts,
    bytes: &'a [u8],
) -> Result<(Op, &'a [u8]), FieldFault>
    ensures found { AnswersField (λ x. (x.0, x.1.now)) result (operands_at names.now at.temps at.slots code.AddrGlobal bytes.now) }
    ensures fault_first { FaultFirst result (operands_at names.now at.temps at.slots code.AddrGlobal bytes.now) }
{
    let (t, rest) = read_below(at.temps as usize, bytes)?;
    let (g, rest) = read_named(StartName::Refused, names, rest)?;
    let (n, rest) = read_u32(rest)?;
    Ok((Op::AddrGlobal(t, g.copy(alloc)?, n), rest))
}

/// The address of a slot.
#[tactic(auto, unfolding(crate::specs::Reading::operands_at))]
fn read_addr_slot(at: Counts, bytes: &[u8]) -> Result<(Op, &[u8]), FieldFault>
    ensures found { (names : List (List ℕ)) → AnswersField (λ x. (x.0, x.1.now)) result (operands_at names at.temps at.slots code.AddrSlot bytes.now) }
    ensures no_memory { IfErr result (λ e. e ≢ FieldFault.NoMemory) }
{
    let (t, rest) = read_below(at.temps as usize, bytes)?;
    let (s, rest) = read_below(at.slots, rest)?;
    Ok((Op::AddrSlot(t, s), rest))
}

/// The address of a function.
#[tactic(auto, unfolding(crate::specs::Reading::operands_at))]
fn read_addr_fn<'a>(
    alloc: Global,
    names: &[Name],
    at: Counts,
    bytes: &'a [u8],
) -> Result<(Op, &'a [u8]), FieldFault>
    ensures found { AnswersField (λ x. (x.0, x.1.now)) result (operands_at names.now at.temps at.slots code.AddrFn bytes.now) }
    ensures fault_first { FaultFirst result (operands_at names.now at.temps at.slots code.AddrFn bytes.now) }
{
    let (t, rest) = read_below(at.temps as usize, bytes)?;
    let (f, rest) = read_named(StartName::Refused, names, rest)?;
    Ok((Op::AddrFn(t, f.copy(alloc)?), rest))
}

/// A read of an object.
#[tactic(auto, unfolding(crate::specs::Reading::operands_at))]
fn read_load_g<'a>(
    alloc: Global,
    names: &[Name],
    at: Counts,
    bytes: &'a [u8],
) -> Result<(Op, &'a [u8]), FieldFault>
    ensures found { AnswersField (λ x. (x.0, x.1.now)) result (operands_at names.now at.temps at.slots code.LoadG bytes.now) }
    ensures fault_first { FaultFirst result (operands_at names.now at.temps at.slots code.LoadG bytes.now) }
{
    let (k, rest) = read_scalar(bytes)?;
    let (t, rest) = read_below(at.temps as usize, rest)?;
    let (g, rest) = read_named(StartName::Refused, names, rest)?;
    Ok((Op::LoadG(t, g.copy(alloc)?, k), rest))
}

/// A write of an object.
#[tactic(auto, unfolding(crate::specs::Reading::operands_at))]
fn read_store_g<'a>(
    alloc: Global,
    names: &[Name],
    at: Counts,
    bytes: &'a [u8],
) -> Result<(Op, &'a [u8]), FieldFault>
    ensures found { AnswersField (λ x. (x.0, x.1.now)) result (operands_at names.now at.temps at.slots code.StoreG bytes.now) }
    ensures fault_first { FaultFirst result (operands_at names.now at.temps at.slots code.StoreG bytes.now) }
{
    let (k, rest) = read_scalar(bytes)?;
    let (g, rest) = read_named(StartName::Refused, names, rest)?;
    let (a, rest) = read_below(at.temps as usize, rest)?;
    Ok((Op::StoreG(g.copy(alloc)?, a, k), rest))
}

/// A read at an address.
#[tactic(auto, unfolding(crate::specs::Reading::operands_at))]
fn read_load(at: Counts, bytes: &[u8]) -> Result<(Op, &[u8]), FieldFault>
    ensures found { (names : List (List ℕ)) → AnswersField (λ x. (x.0, x.1.now)) result (operands_at names at.temps at.slots code.Load bytes.now) }
    ensures no_memory { IfErr result (λ e. e ≢ FieldFault.NoMemory) }
{
    let (k, rest) = read_scalar(bytes)?;
    let (t, rest) = read_below(at.temps as usize, rest)?;
    let (a, rest) = read_below(at.temps as usize, rest)?;
    Ok((Op::Load(k, t, a), rest))
}

/// A write at an address.
#[tactic(auto, unfolding(crate::specs::Reading::operands_at))]
fn read_store(at: Counts, bytes: &[u8]) -> Result<(Op, &[u8]), FieldFault>
    ensures found { (names : List (List ℕ)) → AnswersField (λ x. (x.0, x.1.now)) result (operands_at names at.temps at.slots code.Store bytes.now) }
    ensures no_memory { IfErr result (λ e. e ≢ FieldFault.NoMemory) }
{
    let (k, rest) = read_scalar(bytes)?;
    let (a, rest) = read_below(at.temps as usize, rest)?;
    let (b, rest) = read_below(at.temps as usize, rest)?;
    Ok((Op::Store(k, a, b), rest))
}

/// A copy of bytes.
#[tactic(auto, unfolding(crate::specs::Reading::operands_at))]
fn read_move(at: Counts, bytes: &[u8]) -> Result<(Op, &[u8]), FieldFault>
    ensures found { (names : List (List ℕ)) → AnswersField (λ x. (x.0, x.1.now)) result (operands_at names at.temps at.slots code.Move bytes.now) }
    ensures no_memory { IfErr result (λ e. e ≢ FieldFault.NoMemory) }
{
    let (a, rest) = read_below(at.temps as usize, bytes)?;
    let (b, rest) = read_below(at.temps as usize, rest)?;
    let ((size, unit), rest) = read_moved(rest)?;
    Ok((Op::Move(a, b, size, unit), rest))
}

/// A call by name.
#[tactic(auto, unfolding(crate::specs::Reading::operands_at))]
fn read_call<'a>(
    alloc: Global,
    names: &[Name],
    at: Counts,
    bytes: &'a [u8],
) -> Result<(Op, &'a [u8]), FieldFault>
    ensures found { AnswersField (λ x. (x.0, x.1.now)) result (operands_at names.now at.temps at.slots code.Call bytes.now) }
    ensures fault_first { FaultFirst result (operands_at names.now at.temps at.slots code.Call bytes.now) }
{
    let (t, rest) = read_result(at.temps, bytes)?;
    let (f, rest) = read_named(StartName::Refused, names, rest)?;
    let (args, rest) = read_arguments(alloc, at.temps, rest)?;
    Ok((Op::Call(t, f.copy(alloc)?, args), rest))
}

/// A call through a value.
#[tactic(auto, unfolding(crate::specs::Reading::operands_at))]
fn read_call_ind(alloc: Global, at: Counts, bytes: &[u8]) -> Result<(Op, &[u8]), FieldFault>
    ensures found { (names : List (List ℕ)) → AnswersField (λ x. (x.0, x.1.now)) result (operands_at names at.temps at.slots code.CallInd bytes.now) }
    ensures fault_first { (names : List (List ℕ)) → FaultFirst result (operands_at names at.temps at.slots code.CallInd bytes.now) }
{
    let (t, rest) = read_result(at.temps, bytes)?;
    let (a, rest) = read_below(at.temps as usize, rest)?;
    let (shape, rest) = read_text_in_place(rest)?;
    let (args, rest) = read_arguments(alloc, at.temps, rest)?;
    let shape = Shape::new(Vec::from_slice(alloc, shape)?);
    Ok((Op::CallInd(t, a, shape, args), rest))
}

/// What stands behind an operation's byte.
fn read_operands<'a>(
    alloc: Global,
    names: &[Name],
    at: Counts,
    code: OpCode,
    bytes: &'a [u8],
) -> Result<(Op, &'a [u8]), FieldFault>
    ensures found { AnswersField (λ x. (x.0, x.1.now)) result (operands_at names.now at.temps at.slots code bytes.now) }
    ensures fault_first { FaultFirst result (operands_at names.now at.temps at.slots code bytes.now) }
{
    match code {
        OpCode::Const => read_const(at, bytes),
        OpCode::Copy => read_copy(at, bytes),
        OpCode::Un => read_un(at, bytes),
        OpCode::Bin => read_bin(at, bytes),
        OpCode::Ext => read_ext(at, bytes),
        OpCode::AddrGlobal => read_addr_global(alloc, names, at, bytes),
        OpCode::AddrSlot => read_addr_slot(at, bytes),
        OpCode::AddrFn => read_addr_fn(alloc, names, at, bytes),
        OpCode::LoadG => read_load_g(alloc, names, at, bytes),
        OpCode::StoreG => read_store_g(alloc, names, at, bytes),
        OpCode::Load => read_load(at, bytes),
        OpCode::Store => read_store(at, bytes),
        OpCode::Move => read_move(at, bytes),
        OpCode::Call => read_call(alloc, names, at, bytes),
        OpCode::CallInd => read_call_ind(alloc, at, bytes),
    }
}

/// An operation.
#[tactic(auto, unfolding(crate::specs::Reading::op_at))]
fn read_op<'a>(
    alloc: Global,
    names: &[Name],
    at: Counts,
    bytes: &'a [u8],
) -> Result<(Op, &'a [u8]), FieldFault>
    ensures found { AnswersField (λ x. (x.0, x.1.now)) result (op_at names.now at.temps at.slots bytes.now) }
    ensures fault_first { FaultFirst result (op_at names.now at.temps at.slots bytes.now) }
{
    let (code, rest) = read_op_code(bytes)?;
    read_operands(alloc, names, at, code, rest)
}

/// So many operations.
pub fn read_ops<'a>(
    alloc: Global,
    names: &[Name],
    at: Counts,
    count: u32,
    bytes: &'a [u8],
) -> Result<(Items<Op>, &'a [u8]), FieldFault>
    ensures { AnswersField (λ x. (x.0, x.1.now)) result (repeated (op_at names.now at.temps at.slots) count bytes.now) }
{
    let mut ops = Items::new(alloc);
    let mut rest = bytes;
    for _ in 0..count {
        let (op, after) = read_op(alloc, names, at, rest)?;
        ops.push(op)?;
        rest = after;
    }
    Ok((ops, rest))
}
