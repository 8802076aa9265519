//! Writing operations.

ghost use Rattle.std.specs.Prelude.{◌≡◌, ◌++◌, ℕ, List, [], OnOk, Contains, Option, None, Some};
ghost use Rattle.std.specs.List.{flat_map, AllByRecursion};
ghost use Rattle.pw_fields.specs.FieldNames.{IsNameTable};
ghost use Rattle.pw_flow.specs.declared.flow.Op.TheVariants.{Const, Copy, Un, Bin, Ext, AddrGlobal, AddrSlot, AddrFn, LoadG, StoreG, Load, Store, Move, Call, CallInd};
ghost use Rattle.pw_flow.specs.FlowGraph.{op_names};
ghost use Rattle.pw_flow_ops.specs.Operations.{result as result_text, arguments, op as op_text};

use crate::codes::OpCode;
use crate::parts::ABSENT;
use pw_fields::names::push_name;
use pw_fields::writing::{push_u8, push_u32};
use pw_files::kinds::push_scalar;
use pw_files::writing::{push_bytes, push_count, push_words};
use pw_flow::{BinKind, ExtKind, Op, UnKind};
use pw_value::{Kind, Name, Shape};
use std::alloc::AllocError;

/// The arguments of a call.
#[tactic(auto, unfolding(pw_files::specs::Rising::counted))]
fn push_arguments(out: &mut Vec<u8>, args: &[u32]) -> Result<(), AllocError>
    ensures { OnOk result (out.new.items ≡ out.old.items ++ arguments args.now) }
{
    push_count(out, args.len())?;
    push_words(out, args)
}

/// A temporary, or none.
pub fn push_result(out: &mut Vec<u8>, t: Option<u32>) -> Result<(), AllocError>
    ensures { OnOk result (out.new.items ≡ out.old.items ++ result_text t) }
{
    match t {
        Some(t) => push_u32(out, t),
        None => push_u32(out, ABSENT),
    }
}

/// The operation Const.
fn push_const(out: &mut Vec<u8>, t: u32, n: u32) -> Result<(), AllocError>
    ensures { OnOk result (out.new.items ≡ out.old.items ++ op_text [] (Const t n)) }
{
    push_u8(out, OpCode::Const as u8)?;
    push_u32(out, t)?;
    push_u32(out, n)?;
    Ok(())
}

/// The operation Copy.
fn push_copy(out: &mut Vec<u8>, t: u32, a: u32) -> Result<(), AllocError>
    ensures { OnOk result (out.new.items ≡ out.old.items ++ op_text [] (Copy t a)) }
{
    push_u8(out, OpCode::Copy as u8)?;
    push_u32(out, t)?;
    push_u32(out, a)?;
    Ok(())
}

/// The operation Un.
fn push_un(out: &mut Vec<u8>, k: UnKind, t: u32, a: u32) -> Result<(), AllocError>
    ensures { OnOk result (out.new.items ≡ out.old.items ++ op_text [] (Un k t a)) }
{
    push_u8(out, OpCode::Un as u8)?;
    push_u8(out, k as u8)?;
    push_u32(out, t)?;
    push_u32(out, a)?;
    Ok(())
}

/// The operation Bin.
fn push_bin(out: &mut Vec<u8>, k: BinKind, t: u32, a: u32, b: u32) -> Result<(), AllocError>
    ensures { OnOk result (out.new.items ≡ out.old.items ++ op_text [] (Bin k t a b)) }
{
    push_u8(out, OpCode::Bin as u8)?;
    push_u8(out, k as u8)?;
    push_u32(out, t)?;
    push_u32(out, a)?;
    push_u32(out, b)?;
    Ok(())
}

/// The operation Ext.
fn push_ext(out: &mut Vec<u8>, k: ExtKind, t: u32, a: u32) -> Result<(), AllocError>
    ensures { OnOk result (out.new.items ≡ out.old.items ++ op_text [] (Ext k t a)) }
{
    push_u8(out, OpCode::Ext as u8)?;
    push_u8(out, k as u8)?;
    push_u32(out, t)?;
    push_u32(out, a)?;
    Ok(())
}

/// The operation AddrGlobal.
fn push_addr_global(
    out: &mut Vec<u8>,
    names: &[Name],
    t: u32,
    g: &Name,
    n: u32,
) -> Result<(), AllocError>
    requires table { IsNameTable names.now }
    requires stands { Contains names.now g.now }
    ensures { OnOk result (out.new.items ≡ out.old.items ++ op_text names.now (AddrGlobal t g.now n)) }
{
    push_u8(out, OpCode::AddrGlobal as u8)?;
    push_u32(out, t)?;
    push_name(out, names, g)?;
    push_u32(out, n)?;
    Ok(())
}

/// The operation AddrSlot.
fn push_addr_slot(out: &mut Vec<u8>, t: u32, s: u32) -> Result<(), AllocError>
    ensures { OnOk result (out.new.items ≡ out.old.items ++ op_text [] (AddrSlot t s)) }
{
    push_u8(out, OpCode::AddrSlot as u8)?;
    push_u32(out, t)?;
    push_u32(out, s)?;
    Ok(())
}

/// The operation AddrFn.
fn push_addr_fn(out: &mut Vec<u8>, names: &[Name], t: u32, f: &Name) -> Result<(), AllocError>
    requires table { IsNameTable names.now }
    requires stands { Contains names.now f.now }
    ensures { OnOk result (out.new.items ≡ out.old.items ++ op_text names.now (AddrFn t f.now)) }
{
    push_u8(out, OpCode::AddrFn as u8)?;
    push_u32(out, t)?;
    push_name(out, names, f)?;
    Ok(())
}

/// The operation LoadG.
fn push_load_g(
    out: &mut Vec<u8>,
    names: &[Name],
    k: Kind,
    t: u32,
    g: &Name,
) -> Result<(), AllocError>
    requires table { IsNameTable names.now }
    requires stands { Contains names.now g.now }
    ensures { OnOk result (out.new.items ≡ out.old.items ++ op_text names.now (LoadG t g.now k)) }
{
    push_u8(out, OpCode::LoadG as u8)?;
    push_scalar(out, k)?;
    push_u32(out, t)?;
    push_name(out, names, g)?;
    Ok(())
}

/// The operation StoreG.
fn push_store_g(
    out: &mut Vec<u8>,
    names: &[Name],
    k: Kind,
    g: &Name,
    a: u32,
) -> Result<(), AllocError>
    requires table { IsNameTable names.now }
    requires stands { Contains names.now g.now }
    ensures { OnOk result (out.new.items ≡ out.old.items ++ op_text names.now (StoreG g.now a k)) }
{
    push_u8(out, OpCode::StoreG as u8)?;
    push_scalar(out, k)?;
    push_name(out, names, g)?;
    push_u32(out, a)?;
    Ok(())
}

/// The operation Load.
fn push_load(out: &mut Vec<u8>, k: Kind, t: u32, a: u32) -> Result<(), AllocError>
    ensures { OnOk result (out.new.items ≡ out.old.items ++ op_text [] (Load k t a)) }
{
    push_u8(out, OpCode::Load as u8)?;
    push_scalar(out, k)?;
    push_u32(out, t)?;
    push_u32(out, a)?;
    Ok(())
}

/// The operation Store.
fn push_store(out: &mut Vec<u8>, k: Kind, a: u32, b: u32) -> Result<(), AllocError>
    ensures { OnOk result (out.new.items ≡ out.old.items ++ op_text [] (Store k a b)) }
{
    push_u8(out, OpCode::Store as u8)?;
    push_scalar(out, k)?;
    push_u32(out, a)?;
    push_u32(out, b)?;
    Ok(())
}

/// The operation Move.
fn push_move(out: &mut Vec<u8>, a: u32, b: u32, size: u32, unit: u32) -> Result<(), AllocError>
    ensures { OnOk result (out.new.items ≡ out.old.items ++ op_text [] (Move a b size unit)) }
{
    push_u8(out, OpCode::Move as u8)?;
    push_u32(out, a)?;
    push_u32(out, b)?;
    push_u32(out, size)?;
    push_u32(out, unit)?;
    Ok(())
}

/// The operation Call.
fn push_call(
    out: &mut Vec<u8>,
    names: &[Name],
    t: Option<u32>,
    f: &Name,
    args: &[u32],
) -> Result<(), AllocError>
    requires table { IsNameTable names.now }
    requires stands { Contains names.now f.now }
    ensures { OnOk result (out.new.items ≡ out.old.items ++ op_text names.now (Call t f.now args.now)) }
{
    push_u8(out, OpCode::Call as u8)?;
    push_result(out, t)?;
    push_name(out, names, f)?;
    push_arguments(out, args)?;
    Ok(())
}

/// The operation CallInd.
fn push_call_ind(
    out: &mut Vec<u8>,
    t: Option<u32>,
    a: u32,
    shape: &Shape,
    args: &[u32],
) -> Result<(), AllocError>
    ensures { OnOk result (out.new.items ≡ out.old.items ++ op_text [] (CallInd t a shape.now args.now)) }
{
    push_u8(out, OpCode::CallInd as u8)?;
    push_result(out, t)?;
    push_u32(out, a)?;
    push_bytes(out, shape.as_bytes())?;
    push_arguments(out, args)?;
    Ok(())
}

/// An operation.
fn push_op(out: &mut Vec<u8>, names: &[Name], op: &Op) -> Result<(), AllocError>
    requires table { IsNameTable names.now }
    requires stands { AllByRecursion (Contains names.now) (op_names op.now) }
    ensures { OnOk result (out.new.items ≡ out.old.items ++ op_text names.now op.now) }
{
    match op {
        Op::Const(t, n) => push_const(out, *t, *n),
        Op::Copy(t, a) => push_copy(out, *t, *a),
        Op::Un(k, t, a) => push_un(out, *k, *t, *a),
        Op::Bin(k, t, a, b) => push_bin(out, *k, *t, *a, *b),
        Op::Ext(k, t, a) => push_ext(out, *k, *t, *a),
        Op::AddrGlobal(t, g, n) => push_addr_global(out, names, *t, g, *n),
        Op::AddrSlot(t, s) => push_addr_slot(out, *t, *s),
        Op::AddrFn(t, f) => push_addr_fn(out, names, *t, f),
        Op::LoadG(t, g, k) => push_load_g(out, names, *k, *t, g),
        Op::StoreG(g, a, k) => push_store_g(out, names, *k, g, *a),
        Op::Load(k, t, a) => push_load(out, *k, *t, *a),
        Op::Store(k, a, b) => push_store(out, *k, *a, *b),
        Op::Move(a, b, size, unit) => push_move(out, *a, *b, *size, *unit),
        Op::Call(t, f, args) => push_call(out, names, *t, f, args.as_slice()),
        Op::CallInd(t, a, shape, args) => push_call_ind(out, *t, *a, shape, args.as_slice()),
    }
}

/// Writes operations one behind another, each as its code and its fields; `names` is the file's table, and has each
/// name that they use.
pub fn push_ops(out: &mut Vec<u8>, names: &[Name], ops: &[Op]) -> Result<(), AllocError>
    requires table { IsNameTable names.now }
    requires stand { AllByRecursion (Contains names.now) (flat_map op_names ops.now) }
    ensures { OnOk result (out.new.items ≡ out.old.items ++ flat_map (op_text names.now) ops.now) }
{
    for op in ops {
        push_op(out, names, op)?;
    }
    Ok(())
}
