//! Whether a flow graph is lawful.

ghost use Rattle.std.specs.Prelude.{ℕ, ◌≡◌, ◌+◌, ◌*◌, ◌<◌, ◌≤◌, ◌^◌, ◌↔◌, List, length, map, IsTrue, IfSome, IfOk, All};
ghost use Rattle.std.specs.List.{AllByRecursion};
ghost use Rattle.pw_flow.specs.FlowGraph.{names_in_global, names_in_block, names_in_function, op_names, item_names, global_names, function_names, declared_names, named_in};
ghost use Rattle.pw_flow.specs.ValidFlow.{IsWord, IsItem, AreItems, IsGlobal, IsResult, AreArguments, IsMoved, IsOp, IsEnd, IsBlock, HasFewParts, IsFunction, ArePartsLawful, IsValid, kind_size as size_of_kind, item_size, rooms};
ghost use Rattle.pw_value.specs.Limits.{room_limit};
ghost use Rattle.pw_value.specs.ProgramNames.{IsOrdinary};

use crate::names::are_names_lawful;
use pw_flow::{Block, End, FlowFn, FlowGlobal, FlowModule, Item, Op, kind_size};
use pw_value::limits::{PARAMETER_LIMIT, ROOM_LIMIT, SIZE_LIMIT};
use pw_value::program_names::is_ordinary;
use pw_value::{Kind, slot_room};
use std::alloc::{AllocError, Global};

/// Whether an object of the kind has its size.
fn has_kind_size(kind: Option<Kind>, size: u32) -> bool
    ensures { IsTrue result ↔ IfSome kind (λ k. size ≡ size_of_kind k) }
{
    match kind {
        Some(kind) => size == kind_size(kind),
        None => true,
    }
}

/// A number of the code is a word.
fn known(_number: u32)
    ensures { IsWord _number }
{}

/// The bytes that an item fills.
fn item_len(item: &Item) -> usize
    ensures size { result ≡ item_size item.now }
    ensures word { IsItem item.now }
{
    match item {
        Item::Bytes(bytes) => bytes.len(),
        Item::Address(_, offset) => {
            known(*offset);
            4
        }
    }
}

/// Whether an item names no name that may not be named.
fn is_item_ordinary(item: &Item) -> bool
    ensures { IsTrue result ↔ AllByRecursion IsOrdinary (item_names item.now) }
{
    match item {
        Item::Bytes(_) => true,
        Item::Address(name, _) => is_ordinary(name),
    }
}

/// Whether the arguments of a call are few, and temporaries of the function.
fn are_arguments(temps: u32, args: &[u32]) -> bool
    ensures { IsTrue result ↔ AreArguments temps args.now }
{
    args.len() <= PARAMETER_LIMIT as usize && args.iter().all(|a| *a < temps)
}

/// Whether so many bytes may be copied in such units.
fn is_moved(size: u32, unit: u32) -> bool
    ensures { IsTrue result ↔ IsMoved size unit }
{
    (unit == 1 || unit == 2 || unit == 4) && size % unit == 0 && size > 0 && size <= SIZE_LIMIT
}

/// Whether a temporary is one of the function, where there is one.
fn is_result(temps: u32, t: Option<u32>) -> bool
    ensures { IsTrue result ↔ IsResult temps t }
{
    match t {
        Some(t) => t < temps,
        None => true,
    }
}

/// Whether an operation is lawful in a function of so many temporaries and slots.
fn is_op(temps: u32, slots: usize, op: &Op) -> bool
    ensures { IsTrue result ↔ IsOp temps slots op.now }
{
    match op {
        Op::Const(t, n) | Op::AddrGlobal(t, _, n) => {
            known(*n);
            *t < temps
        }
        Op::Copy(t, a) | Op::Un(_, t, a) | Op::Ext(_, t, a) => *t < temps && *a < temps,
        Op::Bin(_, t, a, b) => *t < temps && *a < temps && *b < temps,
        Op::AddrSlot(t, s) => *t < temps && (*s as usize) < slots,
        Op::AddrFn(t, _) | Op::LoadG(t, _, _) => *t < temps,
        Op::StoreG(_, a, _) => *a < temps,
        Op::Load(_, a, b) | Op::Store(_, a, b) => *a < temps && *b < temps,
        Op::Move(a, b, size, unit) => *a < temps && *b < temps && is_moved(*size, *unit),
        Op::Call(t, _, args) => is_result(temps, *t) && are_arguments(temps, args.as_slice()),
        Op::CallInd(t, a, _, args) => {
            is_result(temps, *t) && *a < temps && are_arguments(temps, args.as_slice())
        }
    }
}

/// Whether an operation names no name that may not be named.
fn is_op_ordinary(op: &Op) -> bool
    ensures { IsTrue result ↔ AllByRecursion IsOrdinary (op_names op.now) }
{
    match op {
        Op::AddrGlobal(_, name, _)
        | Op::AddrFn(_, name)
        | Op::LoadG(_, name, _)
        | Op::StoreG(name, _, _)
        | Op::Call(_, name, _) => is_ordinary(name),
        _ => true,
    }
}

/// Whether operations are lawful in a function of so many temporaries and slots, and name no name that
/// may not be named.
fn are_ops(temps: u32, slots: usize, ops: &[Op]) -> bool
    ensures { IsTrue result ↔ All (λ op. IsOp temps slots op × AllByRecursion IsOrdinary (op_names op)) ops.now }
{
    ops.iter()
        .all(|op| is_op(temps, slots, op) && is_op_ordinary(op))
}

/// Whether a block ends lawfully in a function of so many temporaries and blocks.
fn is_end(temps: u32, blocks: usize, end: End) -> bool
    ensures { IsTrue result ↔ IsEnd temps blocks end }
{
    match end {
        End::Jump(b) => (b as usize) < blocks,
        End::Branch(a, b, c) => a < temps && (b as usize) < blocks && (c as usize) < blocks,
        End::Return(a) => is_result(temps, a),
    }
}

/// Whether a block is lawful in a function of so many temporaries, slots and blocks, and names no name
/// that may not be named.
fn is_block(temps: u32, slots: usize, blocks: usize, block: &Block) -> bool
    ensures { IsTrue result ↔ IsBlock temps slots blocks block.now × AllByRecursion IsOrdinary (names_in_block block.now) }
{
    known(block.depth);
    are_ops(temps, slots, block.ops.as_slice()) && is_end(temps, blocks, block.end)
}

/// Whether blocks are lawful in a function of so many temporaries, slots and blocks.
fn are_blocks(temps: u32, slots: usize, count: usize, blocks: &[Block]) -> bool
    ensures { IsTrue result ↔ All (λ b. IsBlock temps slots count b × AllByRecursion IsOrdinary (names_in_block b)) blocks.now }
{
    blocks
        .iter()
        .all(|block| is_block(temps, slots, count, block))
}

/// Whether the temporaries and the slots come to few enough bytes.
fn has_room(temps: u32, slots: &[u32]) -> bool
    ensures { IsTrue result ↔ rooms (4 * temps) slots.now ≤ room_limit }
{
    let mut room = 4 * u64::from(temps);
    for size in slots {
        if room > u64::from(ROOM_LIMIT) {
            return false;
        }
        room += slot_room(*size);
    }
    room <= u64::from(ROOM_LIMIT)
}

/// Whether a function has few parameters, temporaries and slots, and a block.
fn has_few_parts(function: &FlowFn) -> bool
    ensures { IsTrue result ↔ HasFewParts function.now }
{
    function.params <= PARAMETER_LIMIT
        && function.params <= function.temps
        && has_room(function.temps, function.slots.as_slice())
        && !function.blocks.is_empty()
}

/// Whether a function is lawful, and names no name that may not be named.
fn is_function(function: &FlowFn) -> bool
    ensures { IsTrue result ↔ IsFunction function.now × AllByRecursion IsOrdinary (names_in_function function.now) }
{
    let (slots, blocks) = (function.slots.as_slice(), function.blocks.as_slice());
    has_few_parts(function) && are_blocks(function.temps, slots.len(), blocks.len(), blocks)
}

/// Whether items rise without overlapping, inside so many bytes.
fn are_items(size: u32, items: &[(u32, Item)]) -> bool
    ensures { IsTrue result ↔ AreItems size 0 items.now }
{
    let mut free = 0usize;
    let mut left = items;
    while let [(offset, item), rest @ ..] = left {
        let (offset, len) = (*offset as usize, item_len(item));
        if offset < free || offset > size as usize || len > size as usize - offset {
            return false;
        }
        free = offset + len.max(1);
        left = rest;
    }
    true
}

/// Whether items name no name that may not be named.
fn are_items_ordinary(items: &[(u32, Item)]) -> bool
    ensures { IsTrue result ↔ All (λ i. AllByRecursion IsOrdinary (item_names i.1)) items.now }
{
    items.iter().all(|(_, item)| is_item_ordinary(item))
}

/// Whether an object has its kind's size, and items inside it.
fn is_laid_out(global: &FlowGlobal) -> bool
    ensures { IsTrue result ↔ IsGlobal global.now }
{
    known(global.size);
    has_kind_size(global.kind, global.size) && are_items(global.size, global.items.as_slice())
}

/// Whether an object is lawful, and names no name that may not be named.
fn is_global(global: &FlowGlobal) -> bool
    ensures { IsTrue result ↔ IsGlobal global.now × AllByRecursion IsOrdinary (names_in_global global.now) }
{
    is_laid_out(global) && are_items_ordinary(global.items.as_slice())
}

/// Whether objects are lawful.
fn are_globals(globals: &[FlowGlobal]) -> bool
    ensures { IsTrue result ↔ All (λ g. IsGlobal g × AllByRecursion IsOrdinary (names_in_global g)) globals.now }
{
    globals.iter().all(is_global)
}

/// Whether functions are lawful.
fn are_functions(functions: &[FlowFn]) -> bool
    ensures { IsTrue result ↔ All (λ f. IsFunction f × AllByRecursion IsOrdinary (names_in_function f)) functions.now }
{
    functions.iter().all(is_function)
}

/// Whether a module's objects and functions are lawful, each by itself.
fn are_parts_lawful(flow: &FlowModule) -> bool
    ensures { IsTrue result ↔ ArePartsLawful flow.now }
{
    are_globals(flow.globals.as_slice()) && are_functions(flow.functions.as_slice())
}

/// Whether a module is lawful: each index is below its count; names are distinct, those of objects and
/// functions taken together and those that are declared; a function has at most `PARAMETER_LIMIT`
/// parameters, at least as many temporaries and a block, and its temporaries and slots come to
/// `ROOM_LIMIT` bytes at most; a call has at most `PARAMETER_LIMIT` arguments; a scalar has its kind's
/// size; items rise inside their object and do not overlap; a copy is of a positive number of units of
/// 1, 2 or 4 bytes; the functions include `$start` exactly where they include `main`, and no object,
/// item or operation names `$start`.
///
/// The work is linear in the module. Memory is taken for the names of what it defines and declares.
///
/// # Errors
///
/// `AllocError` where memory runs out.
pub fn is_valid(alloc: Global, flow: &FlowModule) -> Result<bool, AllocError>
    ensures { IfOk result (λ lawful. IsTrue lawful ↔ IsValid flow.now) }
{
    let names = are_names_lawful(alloc, flow)?;
    Ok(names && are_parts_lawful(flow))
}
