//! What a module is, behind its external declarations.

ghost use Rattle.std.specs.Prelude.{◌≡◌, ◌++◌, IfOk, OnOk, map, filter, flat_map, not, option_map, slice_get};
ghost use Rattle.std.specs.Option.{option_copied};
ghost use Rattle.pw_check_rules.specs.declared.names.Slot.TheVariants as slot;
ghost use Rattle.pw_check_result.specs.Parts.{declared_of};
ghost use Rattle.pw_check_state.specs.EntityViews.{view_hidden, view_linked};
ghost use Rattle.pw_check_state.specs.StateViews.{view_state};
ghost use Rattle.pw_check_rules.specs.Modules as spec;
ghost use Rattle.pw_typed.specs.Views as typed;
ghost use Rattle.pw_types.specs.Views.{view_qtype};

use pw_check_linkage::symbol_of_linked;
use pw_check_rules::Slot;
use pw_check_state::{Entity, HiddenObject, LinkedName, MadeState, State, TypeState};
use pw_check_types::{copy_qtype, is_const_object};
use pw_typed::{Declared, Symbol, TFunction, TGlobal, TItem, TModule};
use pw_types::{QType, Types};
use pw_value::Name;
use std::alloc::{AllocError, Global};

/// The type that a name with linkage has at file scope; one that is declared in blocks alone has that of its
/// declarations.
pub fn final_type<'s>(state: &'s State<'_>, linked: &'s LinkedName<'_>) -> &'s QType
    ensures { view_qtype result.now ≡ spec.final_type (view_state state.now) (view_linked linked.now) }
{
    match state.entity_of(linked.name) {
        Some(Entity::Linked(_, q)) => q,
        Some(
            Entity::TypeName(_)
            | Entity::EnumerationConstant(_)
            | Entity::LocalObject(_, _, _)
            | Entity::StaticObject(_, _),
        )
        | None => &linked.ty,
    }
}

/// A copy of a part of an object's bytes.
fn copy_item(alloc: Global, item: &TItem) -> Result<TItem, AllocError>
    ensures { IfOk result (λ copy. typed.view_item copy ≡ typed.view_item item.now) }
{
    match item {
        TItem::Bytes(bytes) => {
            let mut copy = Vec::new(alloc);
            copy.extend_from_slice(bytes)?;
            Ok(TItem::Bytes(copy))
        }
        TItem::Address(symbol, offset) => Ok(TItem::Address(symbol.copy(alloc)?, *offset)),
    }
}

/// Copies of the parts of an object's bytes.
fn copy_items(alloc: Global, items: &[(u32, TItem)]) -> Result<Vec<(u32, TItem)>, AllocError>
    ensures { IfOk result (λ copies. map typed.view_placed copies.items ≡ map typed.view_placed items.now) }
{
    let mut copies = Vec::new(alloc);
    for placed in items {
        copies.push((placed.0, copy_item(alloc, &placed.1)?))?;
    }
    Ok(copies)
}

/// An object with a name.
fn named_global(
    alloc: Global,
    state: &State<'_>,
    linked: &LinkedName<'_>,
) -> Result<TGlobal, AllocError>
    ensures { IfOk result (λ g. typed.view_global g ≡ spec.named_global (view_state state.now) (view_linked linked.now)) }
{
    let ty = final_type(state, linked);
    Ok(TGlobal {
        name: symbol_of_linked(alloc, linked)?,
        ty: copy_qtype(alloc, ty)?,
        writable: !is_const_object(ty),
        items: copy_items(alloc, &linked.items)?,
    })
}

/// An object without a name of its own.
fn hidden_global(alloc: Global, number: u32, hidden: &HiddenObject) -> Result<TGlobal, AllocError>
    ensures { IfOk result (λ g. typed.view_global g ≡ spec.hidden_global number (view_hidden hidden.now)) }
{
    Ok(TGlobal {
        name: Symbol::Hidden(number),
        ty: copy_qtype(alloc, &hidden.ty)?,
        writable: hidden.writable,
        items: copy_items(alloc, &hidden.items)?,
    })
}

/// The object of a name with linkage, behind others, if it is there.
fn push_named(
    alloc: Global,
    state: &State<'_>,
    place: u32,
    globals: &mut Vec<TGlobal>,
) -> Result<(), AllocError>
    ensures { OnOk result (map typed.view_global globals.new.items ≡ map typed.view_global globals.old.items ++ spec.global_in (view_state state.now) (slot.Named place)) }
{
    let Some(linked) = state.linked_at(place) else {
        return Ok(());
    };
    let object = named_global(alloc, state, linked)?;
    globals.push(object)?;
    Ok(())
}

/// The hidden object of a number.
#[tactic(auto, unfolding(pw_check_state::specs::StateViews::view_state))]
fn hidden_at<'s>(state: &'s State<'_>, number: u32) -> Option<&'s HiddenObject>
    ensures { option_map view_hidden (option_copied result) ≡ slice_get (view_state state.now).made.hidden number }
{
    state.made.hidden.get(number as usize)
}

/// A hidden object, behind others, if it is there.
fn push_hidden(
    alloc: Global,
    state: &State<'_>,
    number: u32,
    globals: &mut Vec<TGlobal>,
) -> Result<(), AllocError>
    ensures { OnOk result (map typed.view_global globals.new.items ≡ map typed.view_global globals.old.items ++ spec.global_in (view_state state.now) (slot.Hidden number)) }
{
    let Some(hidden) = hidden_at(state, number) else {
        return Ok(());
    };
    let object = hidden_global(alloc, number, hidden)?;
    globals.push(object)?;
    Ok(())
}

/// The object of a slot, behind others, if it is there.
fn push_global(
    alloc: Global,
    state: &State<'_>,
    slot: Slot,
    globals: &mut Vec<TGlobal>,
) -> Result<(), AllocError>
    ensures { OnOk result (map typed.view_global globals.new.items ≡ map typed.view_global globals.old.items ++ spec.global_in (view_state state.now) slot) }
{
    match slot {
        Slot::Named(place) => push_named(alloc, state, place, globals),
        Slot::Hidden(number) => push_hidden(alloc, state, number, globals),
    }
}

/// The objects of these slots, in their order.
fn objects_of(alloc: Global, state: &State<'_>, slots: &[Slot]) -> Result<Vec<TGlobal>, AllocError>
    ensures { IfOk result (λ globals. map typed.view_global globals.items ≡ flat_map (spec.global_in (view_state state.now)) slots.now) }
{
    let mut globals = Vec::new(alloc);
    for slot in slots {
        push_global(alloc, state, *slot, &mut globals)?;
    }
    Ok(globals)
}

/// The objects of static lifetime, in the order of their first definitions.
#[tactic(auto, unfolding(pw_check_state::specs::StateViews::view_state))]
fn globals_in(alloc: Global, state: &State<'_>) -> Result<Vec<TGlobal>, AllocError>
    ensures { IfOk result (λ globals. map typed.view_global globals.items ≡ flat_map (spec.global_in (view_state state.now)) (view_state state.now).made.slots) }
{
    objects_of(alloc, state, &state.made.slots)
}

/// A name that all modules share, behind others; of one of the module's own there is nothing. One that no name may be, no
/// rule lets come: it answers want of memory.
fn push_declared(
    alloc: Global,
    linked: &LinkedName<'_>,
    declared: &mut Vec<Declared>,
) -> Result<(), AllocError>
    ensures { OnOk result (map typed.view_declared declared.new.items ≡ map typed.view_declared declared.old.items ++ declared_of (view_linked linked.now)) }
{
    if linked.internal {
        return Ok(());
    }
    let name = Name::lawful(alloc, linked.name)?;
    let ty = copy_qtype(alloc, &linked.ty)?;
    declared.push(Declared { name, ty })?;
    Ok(())
}

/// The names that all modules share, in the order of their first declarations.
fn declared_in(alloc: Global, linked: &[LinkedName<'_>]) -> Result<Vec<Declared>, AllocError>
    ensures { IfOk result (λ declared. map typed.view_declared declared.items ≡ map spec.declared_value (filter (λ l. not l.internal) (map view_linked linked.now))) }
{
    let mut declared = Vec::new(alloc);
    for next in linked {
        push_declared(alloc, next, &mut declared)?;
    }
    Ok(declared)
}

/// The objects of static lifetime, and the names that all modules share.
fn lists_in(alloc: Global, state: &State<'_>) -> Result<(Vec<TGlobal>, Vec<Declared>), AllocError>
    ensures globals { IfOk result (λ lists. map typed.view_global lists.0.items ≡ (spec.module_in (view_state state.now)).globals) }
    ensures declared { IfOk result (λ lists. map typed.view_declared lists.1.items ≡ (spec.module_in (view_state state.now)).declared) }
{
    let globals = globals_in(alloc, state)?;
    let declared = declared_in(alloc, state.linked())?;
    Ok((globals, declared))
}

/// The structures and unions.
fn records_of(types: TypeState<'_>) -> Types
    ensures { result ≡ types.entry.records }
{
    let TypeState { records, .. } = types;
    records
}

/// The functions that were made.
fn functions_of(made: MadeState) -> Vec<TFunction>
    ensures { result ≡ made.functions }
{
    let MadeState { functions, .. } = made;
    functions
}

/// The structures and unions, and the functions; the rest of the state is let go.
fn kept_of(state: State<'_>) -> (Types, Vec<TFunction>)
    ensures records { result.0 ≡ state.entry.types.records }
    ensures functions { result.1 ≡ state.entry.made.functions }
{
    let State { types, made, .. } = state;
    (records_of(types), functions_of(made))
}

/// What a module is: its types, its objects and functions, and what it declares.
#[tactic(auto, unfolding(pw_check_state::specs::StateViews::view_state))]
pub fn module_in(alloc: Global, state: State<'_>) -> Result<TModule, AllocError>
    ensures { IfOk result (λ m. typed.view_module m ≡ spec.module_in (view_state state.entry)) }
{
    let lists = lists_in(alloc, &state);
    let (types, functions) = kept_of(state);
    let (globals, declared) = lists?;
    Ok(TModule {
        types,
        globals,
        functions,
        declared,
    })
}
