//! The lines of each operation.

ghost use Rattle.std.specs.Prelude.{pos, negsuc, ◌≡◌, ◌≤◌, ◌++◌, map, length, unwrap_or, slice_get, IfOk, OnOk};
ghost use Rattle.pw_value.specs.Limits.{parameter_limit};
ghost use Rattle.pw_inst.specs.declared.relocation.Symbol.TheVariants.{Named};
ghost use Rattle.pw_select_lines.specs.Selectable.{HasFewArguments, HasSmallUnit, IsSelectable};
ghost use Rattle.pw_select_lines.specs.Registers.{word, copied, constant, address_of, frame_address, read_global, place_of};
ghost use Rattle.pw_select_lines.specs.Arithmetic.{unary_word, extension_word, with_one, with_none, binary_by, routine_of};
ghost use Rattle.pw_select_lines.specs.Operations.{load_unit, store_unit, unit_copied, bytes_counted, unit_loop, moved, loaded_scalar, stored_scalar, stored_global, stacked_arguments, register_arguments, call_result, called, called_by_value, op_lines, web_op_lines, layout};

use crate::arithmetic::{extension_word, put_binary, unary_word};
use crate::registers::{
    load_scalar, place_of, put, put_address, put_constant, put_copy, put_frame_address, put_loaded,
    put_operand, put_read, put_result, put_sign, put_store, put_write, result_register,
    store_scalar,
};
use pw_alloc::Place;
use pw_flow::{BinKind, ExtKind, Op, UnKind};
use pw_inst::{ANSWER, ARGUMENT, FIRST, HELP, Inst, Line, RESULT, RETURN_ADDRESS, SECOND, Symbol};
use pw_items::Items;
use pw_value::{Kind, Name};
use pw_webflow::WebOp;
use smallvec::SmallVec;
use std::alloc::{AllocError, Global};

/// The places of a call's arguments.
type Arguments = SmallVec<Place, 8>;

fn put_number(out: &mut Items<Line>, t: Place, n: u32) -> Result<(), AllocError>
    ensures { OnOk result (out.new ≡ out.old ++ with_none t (constant n)) }
{
    put_constant(out, n, result_register(t))?;
    put_result(out, t)
}

/// A register's word to a temporary's place.
fn put_to_place(out: &mut Items<Line>, r: u8, t: Place) -> Result<(), AllocError>
    ensures { OnOk result (out.new ≡ out.old ++ with_none t (copied r)) }
{
    put_copy(out, r, result_register(t))?;
    put_result(out, t)
}

/// What a temporary holds comes to another.
fn put_copied(out: &mut Items<Line>, places: &[Place], t: u32, a: u32) -> Result<(), AllocError>
    ensures { OnOk result (out.new ≡ out.old ++ with_one (place_of places.now a) (place_of places.now t) copied) }
{
    let r = put_operand(out, place_of(places, a), FIRST)?;
    put_to_place(out, r, place_of(places, t))
}

fn put_unary(
    out: &mut Items<Line>,
    places: &[Place],
    kind: UnKind,
    t: u32,
    a: u32,
) -> Result<(), AllocError>
    ensures { OnOk result (out.new ≡ out.old ++ with_one (place_of places.now a) (place_of places.now t) (λ a d. word (unary_word kind a d))) }
{
    let t = place_of(places, t);
    let r = put_operand(out, place_of(places, a), FIRST)?;
    put(out, unary_word(kind, r, result_register(t)))?;
    put_result(out, t)
}

fn put_extension(
    out: &mut Items<Line>,
    places: &[Place],
    kind: ExtKind,
    t: u32,
    a: u32,
) -> Result<(), AllocError>
    ensures { OnOk result (out.new ≡ out.old ++ with_one (place_of places.now a) (place_of places.now t) (λ a d. word (extension_word kind a d))) }
{
    let t = place_of(places, t);
    let r = put_operand(out, place_of(places, a), FIRST)?;
    put(out, extension_word(kind, r, result_register(t)))?;
    put_result(out, t)
}

/// The address of a symbol plus a number.
fn put_symbol(
    alloc: Global,
    out: &mut Items<Line>,
    t: Place,
    name: &Name,
    n: u32,
) -> Result<(), AllocError>
    ensures { OnOk result (out.new ≡ out.old ++ with_none t (address_of (Named name.now) n)) }
{
    let symbol = Symbol::Named(name.copy(alloc)?);
    put_address(alloc, out, &symbol, n, result_register(t))?;
    put_result(out, t)
}

/// The address of a slot of the frame.
fn put_slot(out: &mut Items<Line>, t: Place, offset: i32) -> Result<(), AllocError>
    ensures { OnOk result (out.new ≡ out.old ++ with_none t (frame_address offset)) }
{
    put_frame_address(out, offset, result_register(t))?;
    put_result(out, t)
}

fn offset_of(slots: &[i32], s: u32) -> i32
    ensures { result ≡ unwrap_or (slice_get slots.now s) (pos 0) }
{
    match slots.get(s as usize) {
        Some(offset) => *offset,
        None => 0,
    }
}

fn put_global_read(
    alloc: Global,
    out: &mut Items<Line>,
    t: Place,
    global: &Name,
    kind: Kind,
) -> Result<(), AllocError>
    ensures { OnOk result (out.new ≡ out.old ++ with_none t (read_global global.now kind)) }
{
    put_read(alloc, out, global, kind, result_register(t))?;
    put_result(out, t)
}

fn put_global_write(
    alloc: Global,
    out: &mut Items<Line>,
    global: &Name,
    a: Place,
    kind: Kind,
) -> Result<(), AllocError>
    ensures { OnOk result (out.new ≡ out.old ++ stored_global global.now a kind) }
{
    let r = put_operand(out, a, FIRST)?;
    put_write(alloc, out, global, kind, r)
}

/// The scalar at an address is read.
fn put_scalar_load(
    out: &mut Items<Line>,
    places: &[Place],
    kind: Kind,
    t: u32,
    a: u32,
) -> Result<(), AllocError>
    ensures { OnOk result (out.new ≡ out.old ++ loaded_scalar kind (place_of places.now t) (place_of places.now a)) }
{
    let t = place_of(places, t);
    let r = put_operand(out, place_of(places, a), FIRST)?;
    let d = result_register(t);
    put(out, load_scalar(kind, 0, r, d))?;
    put_sign(out, kind, d)?;
    put_result(out, t)
}

/// The scalar at an address is written.
fn put_scalar_store(
    out: &mut Items<Line>,
    places: &[Place],
    kind: Kind,
    a: u32,
    b: u32,
) -> Result<(), AllocError>
    ensures { OnOk result (out.new ≡ out.old ++ stored_scalar kind (place_of places.now a) (place_of places.now b)) }
{
    let address = put_operand(out, place_of(places, a), FIRST)?;
    let r = put_operand(out, place_of(places, b), SECOND)?;
    put(out, store_scalar(kind, r, 0, address))
}

// ---- copies of bytes

fn load_unit(unit: u32, b: u8, t: u8) -> Inst
    ensures { result ≡ load_unit unit b t }
{
    match unit {
        1 => Inst::Ldb { im: 0, b, t },
        2 => Inst::Ldh { im: 0, b, t },
        _ => Inst::Ldw { im: 0, b, t },
    }
}

fn store_unit(unit: u32, r: u8, b: u8) -> Inst
    ensures { result ≡ store_unit unit r b }
{
    match unit {
        1 => Inst::Stb { r, im: 0, b },
        2 => Inst::Sth { r, im: 0, b },
        _ => Inst::Stw { r, im: 0, b },
    }
}

/// One unit is copied, and the addresses go on.
fn put_unit_copied(out: &mut Items<Line>, unit: u32) -> Result<(), AllocError>
    requires { unit ≤ 4 }
    ensures { OnOk result (out.new ≡ out.old ++ unit_copied unit) }
{
    let im = unit as i32;
    put(out, load_unit(unit, SECOND, RESULT))?;
    put(
        out,
        Inst::Ldo {
            im,
            b: SECOND,
            t: SECOND,
        },
    )?;
    put(out, store_unit(unit, RESULT, HELP))?;
    put(
        out,
        Inst::Ldo {
            im,
            b: HELP,
            t: HELP,
        },
    )
}

/// The bytes that are left are counted down, and the loop goes back while there are some.
fn put_bytes_counted(out: &mut Items<Line>, unit: u32) -> Result<(), AllocError>
    requires { unit ≤ 4 }
    ensures { OnOk result (out.new ≡ out.old ++ bytes_counted unit) }
{
    let im = -(unit as i32);
    put(
        out,
        Inst::Ldo {
            im,
            b: FIRST,
            t: FIRST,
        },
    )?;
    let disp = -7;
    put(
        out,
        Inst::Combf {
            c: 1,
            r1: FIRST,
            r2: 0,
            disp,
        },
    )
}

fn put_unit_loop(out: &mut Items<Line>, unit: u32) -> Result<(), AllocError>
    requires { unit ≤ 4 }
    ensures { OnOk result (out.new ≡ out.old ++ unit_loop unit) }
{
    put_unit_copied(out, unit)?;
    put_bytes_counted(out, unit)
}

fn put_moved(
    out: &mut Items<Line>,
    a: Place,
    b: Place,
    size: u32,
    unit: u32,
) -> Result<(), AllocError>
    requires { unit ≤ 4 }
    ensures { OnOk result (out.new ≡ out.old ++ moved a b size unit) }
{
    put_loaded(out, b, SECOND)?;
    put_loaded(out, a, HELP)?;
    put_constant(out, size, FIRST)?;
    put_unit_loop(out, unit)
}

// ---- calls

fn arguments(alloc: Global, places: &[Place], args: &[u32]) -> Result<Arguments, AllocError>
    ensures { IfOk result (λ v. v.items ≡ map (place_of places.now) args.now) }
{
    let mut list = SmallVec::new(alloc);
    for a in args {
        list.push(place_of(places, *a))?;
    }
    Ok(list)
}

/// The arguments behind the fourth, into the words above the frame of the called function.
fn put_stacked(out: &mut Items<Line>, args: &[Place]) -> Result<(), AllocError>
    requires { length args.now ≤ parameter_limit }
    ensures { OnOk result (out.new ≡ out.old ++ stacked_arguments (negsuc 51) args.now) }
{
    let mut offset = -52;
    let mut rest = args;
    while let [a, after @ ..] = rest {
        put_loaded(out, *a, FIRST)?;
        put_store(out, offset, FIRST)?;
        offset -= 4;
        rest = after;
    }
    Ok(())
}

/// The first four arguments, into registers.
fn put_registers(out: &mut Items<Line>, args: &[Place]) -> Result<(), AllocError>
    requires { length args.now ≤ 4 }
    ensures { OnOk result (out.new ≡ out.old ++ register_arguments ARGUMENT args.now) }
{
    let mut r = ARGUMENT;
    let mut rest = args;
    while let [a, after @ ..] = rest {
        put_loaded(out, *a, r)?;
        r -= 1;
        rest = after;
    }
    Ok(())
}

/// A call's result, where it has a temporary.
fn put_call_result(
    out: &mut Items<Line>,
    places: &[Place],
    t: Option<u32>,
) -> Result<(), AllocError>
    ensures { OnOk result (out.new ≡ out.old ++ call_result places.now t) }
{
    match t {
        Some(t) => put_to_place(out, ANSWER, place_of(places, t)),
        None => Ok(()),
    }
}

/// A call by name, without its result.
fn put_call(
    alloc: Global,
    out: &mut Items<Line>,
    name: &Name,
    args: &[Place],
) -> Result<(), AllocError>
    requires { length args.now ≤ parameter_limit }
    ensures { OnOk result (out.new ≡ out.old ++ called name.now args.now) }
{
    let registers = args.len().min(4);
    put_stacked(out, &args[registers..])?;
    put_registers(out, &args[..registers])?;
    let symbol = Symbol::Named(name.copy(alloc)?);
    out.push(Line::CallTo(symbol, RETURN_ADDRESS))
}

/// A call of a function that a temporary holds, without its result.
fn put_call_by_value(out: &mut Items<Line>, f: Place, args: &[Place]) -> Result<(), AllocError>
    requires { length args.now ≤ parameter_limit }
    ensures { OnOk result (out.new ≡ out.old ++ called_by_value f args.now) }
{
    let registers = args.len().min(4);
    put_stacked(out, &args[registers..])?;
    put_loaded(out, f, FIRST)?;
    put_registers(out, &args[..registers])?;
    out.push(Line::CallReg)
}

// ---- operations

/// A call by name, and its result.
fn put_call_to(
    alloc: Global,
    out: &mut Items<Line>,
    places: &[Place],
    t: Option<u32>,
    name: &Name,
    args: &[u32],
) -> Result<(), AllocError>
    requires { length args.now ≤ parameter_limit }
    ensures { OnOk result (out.new ≡ out.old ++ (called name.now (map (place_of places.now) args.now) ++ call_result places.now t)) }
{
    let args = arguments(alloc, places, args)?;
    put_call(alloc, out, name, args.as_slice())?;
    put_call_result(out, places, t)
}

/// A call of a function that a temporary holds, and its result.
fn put_call_through(
    alloc: Global,
    out: &mut Items<Line>,
    places: &[Place],
    t: Option<u32>,
    f: u32,
    args: &[u32],
) -> Result<(), AllocError>
    requires { length args.now ≤ parameter_limit }
    ensures { OnOk result (out.new ≡ out.old ++ (called_by_value (place_of places.now f) (map (place_of places.now) args.now) ++ call_result places.now t)) }
{
    let args = arguments(alloc, places, args)?;
    put_call_by_value(out, place_of(places, f), args.as_slice())?;
    put_call_result(out, places, t)
}

/// An operation on what two temporaries hold.
fn put_bin(
    out: &mut Items<Line>,
    places: &[Place],
    kind: BinKind,
    t: u32,
    a: u32,
    b: u32,
) -> Result<(), AllocError>
    ensures { OnOk result (out.new ≡ out.old ++ binary_by (routine_of kind) kind (place_of places.now a) (place_of places.now b) (place_of places.now t)) }
{
    let (a, b) = (place_of(places, a), place_of(places, b));
    put_binary(out, kind, a, b, place_of(places, t))
}

/// So many bytes are copied between the addresses that two temporaries hold.
fn put_move(
    out: &mut Items<Line>,
    places: &[Place],
    a: u32,
    b: u32,
    size: u32,
    unit: u32,
) -> Result<(), AllocError>
    requires { unit ≤ 4 }
    ensures { OnOk result (out.new ≡ out.old ++ moved (place_of places.now a) (place_of places.now b) size unit) }
{
    put_moved(out, place_of(places, a), place_of(places, b), size, unit)
}

/// The lines of an operation of a flow graph.
fn put_op(
    alloc: Global,
    out: &mut Items<Line>,
    places: &[Place],
    slots: &[i32],
    op: &Op,
) -> Result<(), AllocError>
    requires few { HasFewArguments op.now }
    requires unit { HasSmallUnit op.now }
    ensures { OnOk result (out.new ≡ out.old ++ op_lines (layout places.now slots.now) op.now) }
{
    match op {
        Op::Const(t, n) => put_number(out, place_of(places, *t), *n),
        Op::Copy(t, a) => put_copied(out, places, *t, *a),
        Op::Un(k, t, a) => put_unary(out, places, *k, *t, *a),
        Op::Bin(k, t, a, b) => put_bin(out, places, *k, *t, *a, *b),
        Op::Ext(k, t, a) => put_extension(out, places, *k, *t, *a),
        Op::AddrGlobal(t, g, n) => put_symbol(alloc, out, place_of(places, *t), g, *n),
        Op::AddrSlot(t, s) => put_slot(out, place_of(places, *t), offset_of(slots, *s)),
        Op::AddrFn(t, f) => put_symbol(alloc, out, place_of(places, *t), f, 0),
        Op::LoadG(t, g, k) => put_global_read(alloc, out, place_of(places, *t), g, *k),
        Op::StoreG(g, a, k) => put_global_write(alloc, out, g, place_of(places, *a), *k),
        Op::Load(k, t, a) => put_scalar_load(out, places, *k, *t, *a),
        Op::Store(k, a, b) => put_scalar_store(out, places, *k, *a, *b),
        Op::Move(a, b, size, unit) => put_move(out, places, *a, *b, *size, *unit),
        Op::Call(t, name, args) => put_call_to(alloc, out, places, *t, name, args.as_slice()),
        Op::CallInd(t, f, _, args) => {
            put_call_through(alloc, out, places, *t, *f, args.as_slice())
        }
    }
}

/// The lines of an operation of a directed graph.
pub fn put_web_op(
    alloc: Global,
    out: &mut Items<Line>,
    places: &[Place],
    slots: &[i32],
    op: &WebOp,
) -> Result<(), AllocError>
    requires { IsSelectable op.now }
    ensures { OnOk result (out.new ≡ out.old ++ web_op_lines (layout places.now slots.now) op.now) }
{
    match op {
        WebOp::Flow(op) => put_op(alloc, out, places, slots, op),
        WebOp::Read(t, r) => put_to_place(out, *r, place_of(places, *t)),
        WebOp::Write(r, a) => {
            let a = put_operand(out, place_of(places, *a), FIRST)?;
            put_copy(out, a, *r)
        }
    }
}
