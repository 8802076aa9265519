//! Lowering of objects and declarations, and what a program starts with.

ghost use Rattle.std.specs.Prelude.{◌≡◌, ◌∷◌, [], Some, None, if◌then◌else◌, IfOk, map};
ghost use Rattle.pw_value.specs.ProgramNames.{main_name, exit_name};
ghost use Rattle.pw_flow.specs.declared.flow.Op.TheVariants as op;
ghost use Rattle.pw_lower.specs.Modules as spec;
ghost use Rattle.pw_typed.specs.Views.{view_function, view_global, view_item, view_placed, view_declared, view_symbol};

use pw_flow::{Block, End, FlowFn, FlowGlobal, Item, Op};
use pw_items::Items;
use pw_lower::operators::{bytes_of, kind_of};
use pw_lower_forms::full_name;
use pw_typed::{Declared, Symbol, TFunction, TGlobal, TItem};
use pw_types::{Types, shape};
use pw_value::program_names::{EXIT, MAIN, START, START_SHAPE};
use pw_value::{Name, NoMemory, Shape};
use std::alloc::Global;

/// The calls of what the program starts with: of `main`, and of `exit` with its result.
fn start_ops(alloc: Global) -> Result<Items<Op>, NoMemory>
    ensures { IfOk result (λ ops. ops ≡ op.Call (Some 0) main_name [] ∷ op.Call None exit_name (0 ∷ []) ∷ []) }
{
    let mut args = Items::new(alloc);
    args.push(0)?;
    let mut ops = Items::new(alloc);
    ops.push(Op::Call(Some(0), Name::within(alloc, MAIN)?, Items::new(alloc)))?;
    ops.push(Op::Call(None, Name::within(alloc, EXIT)?, args))?;
    Ok(ops)
}

/// What the program starts with: it calls `main`, and passes the result to `exit`.
pub fn start_function(alloc: Global) -> Result<FlowFn, NoMemory>
    ensures { IfOk result (λ f. f ≡ spec.start_function) }
{
    let mut blocks = Items::new(alloc);
    blocks.push(Block {
        depth: 0,
        ops: start_ops(alloc)?,
        end: End::Return(None),
    })?;
    Ok(FlowFn {
        name: Name::within(alloc, START)?,
        shape: Shape::new(Vec::from_slice(alloc, START_SHAPE)?),
        params: 0,
        temps: 1,
        slots: Items::new(alloc),
        blocks,
    })
}

/// Whether a function is the program's `main`.
fn is_main(symbol: &Symbol) -> bool
    ensures { result ≡ spec.is_main (view_symbol symbol.now) }
{
    match symbol {
        Symbol::External(name) => name.as_bytes() == MAIN,
        Symbol::Internal(_) | Symbol::Hidden(_) => false,
    }
}

/// Whether one of the functions is the program's `main`.
pub fn has_main(all: &[TFunction]) -> bool
    ensures { spec.start_of (map view_function all.now) ≡ if result then spec.start_function ∷ [] else [] }
{
    for f in all {
        if is_main(&f.name) {
            return true;
        }
    }
    false
}

/// A part of an object's initial bytes.
fn lower_item(alloc: Global, name: &Name, item: &TItem) -> Result<Item, NoMemory>
    ensures { IfOk result (λ v. v ≡ spec.item_of name.now (view_item item.now)) }
{
    match item {
        TItem::Bytes(bytes) => Ok(Item::Bytes(Items::from_slice(alloc, bytes)?)),
        TItem::Address(symbol, n) => Ok(Item::Address(full_name(alloc, name, symbol)?, *n)),
    }
}

/// The parts of an object's initial bytes.
fn lower_items(
    alloc: Global,
    name: &Name,
    all: &[(u32, TItem)],
) -> Result<Items<(u32, Item)>, NoMemory>
    ensures { IfOk result (λ v. v ≡ map (spec.lowered_item name.now) (map view_placed all.now)) }
{
    let mut items = Items::new(alloc);
    for (offset, item) in all {
        items.push((*offset, lower_item(alloc, name, item)?))?;
    }
    Ok(items)
}

/// An object of static lifetime.
fn lower_global(
    alloc: Global,
    name: &Name,
    types: &Types,
    g: &TGlobal,
) -> Result<FlowGlobal, NoMemory>
    ensures { IfOk result (λ global. global ≡ spec.lowered_global name.now types.now (view_global g.now)) }
{
    Ok(FlowGlobal {
        name: full_name(alloc, name, &g.name)?,
        size: bytes_of(types, &g.ty.ty)?,
        shape: shape(alloc, types, &g.ty)?,
        kind: kind_of(&g.ty.ty),
        volatile: g.ty.volatile,
        items: lower_items(alloc, name, &g.items)?,
    })
}

/// The objects of a module.
pub fn lower_globals(
    alloc: Global,
    name: &Name,
    types: &Types,
    all: &[TGlobal],
) -> Result<Items<FlowGlobal>, NoMemory>
    ensures { IfOk result (λ v. v ≡ map (spec.lowered_global name.now types.now) (map view_global all.now)) }
{
    let mut globals = Items::new(alloc);
    for g in all {
        globals.push(lower_global(alloc, name, types, g)?)?;
    }
    Ok(globals)
}

/// The names with external linkage that a module declares or defines (C90 6.1.2.2), in order, each with the shape of
/// its type. Fails only for want of memory.
pub fn lower_declared(
    alloc: Global,
    types: &Types,
    all: &[Declared],
) -> Result<Items<(Name, Shape)>, NoMemory>
    ensures { IfOk result (λ v. v ≡ map (spec.lowered_declared types.now) (map view_declared all.now)) }
{
    let mut declared = Items::new(alloc);
    for d in all {
        declared.push((d.name.copy(alloc)?, shape(alloc, types, &d.ty)?))?;
    }
    Ok(declared)
}
