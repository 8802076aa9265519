//! Definitions of names with linkage (C90 6.7).

ghost use Rattle.std.specs.Prelude.{◌≡◌, map, OnOk, OnErr, IfOk};
ghost use Rattle.pw_check_state.specs.EntityViews.{view_linked};
ghost use Rattle.pw_check_state.specs.StateViews.{view_state};
ghost use Rattle.pw_check_rules.specs.Linkage as spec;
ghost use Rattle.pw_check_rules.specs.States as states;
ghost use Rattle.pw_typed.specs.Views.{view_placed, view_symbol};
ghost use Rattle.pw_types.specs.Views.{view_qtype};

use pw_check_rules::Slot;
use pw_check_state::{LinkedName, State};
use pw_check_types::composite;
use pw_typed::{Symbol, TItem};
use pw_types::QType;
use pw_value::Name;
use std::alloc::{AllocError, Global};

// Whether an object has its place among those of static lifetime.
fn has_slot(state: &State, place: u32) -> bool
    ensures { result ≡ spec.has_slot (view_state state.now) place }
{
    match state.linked_at(place) {
        Some(linked) => linked.tentative || linked.defined,
        None => false,
    }
}

// An object stands at its first definition, tentative or not.
fn slot_for(state: &mut State, place: u32) -> Result<(), AllocError>
    ensures { OnOk result (view_state state.new ≡ spec.slot_for place (view_state state.old)) }
{
    if !has_slot(state, place) {
        state.add_slot(Slot::Named(place))?;
    }
    Ok(())
}

/// A tentative definition of an object (C90 6.7.2), by its place among the names with linkage.
pub fn define_tentatively(state: &mut State, place: u32) -> Result<(), AllocError>
    ensures { OnOk result (view_state state.new ≡ spec.define_tentatively place (view_state state.old)) }
{
    slot_for(state, place)?;
    state.set_tentative(place);
    Ok(())
}

/// The definition of an object, by its place among the names with linkage.
pub fn define_object(state: &mut State, place: u32) -> Result<(), AllocError>
    ensures { OnOk result (view_state state.new ≡ spec.define_object place (view_state state.old)) }
{
    slot_for(state, place)?;
    state.set_defined(place);
    Ok(())
}

/// The definition of a function, by its place among the names with linkage.
pub fn define_function(state: &mut State, place: u32)
    ensures { view_state state.new ≡ spec.define_function place (view_state state.old) }
{
    state.set_defined(place);
}

/// The first bytes of an object with linkage, and its type, where its initialiser gives the length.
pub fn initialise_linked(
    alloc: Global,
    state: &mut State,
    place: u32,
    ty: &QType,
    items: Vec<(u32, TItem)>,
) -> Result<(), AllocError>
    ensures { OnOk result (view_state state.new ≡ spec.initialise_linked place (view_qtype ty.now) (map view_placed items.items) (view_state state.old)) }
{
    let Some(linked) = state.linked_at(place) else {
        return Ok(());
    };
    let both = composite(alloc, &linked.ty, ty)?;
    state.set_linked_items(place, both, items);
    Ok(())
}

/// How a module speaks of a name with linkage. One that no symbol may have, no rule lets come: it answers want of
/// memory.
pub fn symbol_of_linked(alloc: Global, linked: &LinkedName) -> Result<Symbol, AllocError>
    ensures { IfOk result (λ symbol. view_symbol symbol ≡ spec.symbol_of_linked (view_linked linked.now)) }
{
    let name = Name::lawful(alloc, linked.name)?;
    if linked.internal {
        Ok(Symbol::Internal(name))
    } else {
        Ok(Symbol::External(name))
    }
}

// The name with linkage at a place; one that is not there, no rule lets come: it is want of memory.
fn linked_there<'s, 'a>(state: &'s State<'a>, place: u32) -> Result<&'s LinkedName<'a>, AllocError>
    ensures linked { IfOk result (λ l. states.linked_at (view_state state.now) place ≡ Some (view_linked l.now)) }
    ensures wants { OnErr result (states.linked_at (view_state state.now) place ≡ None) }
{
    match state.linked_at(place) {
        Some(linked) => Ok(linked),
        None => Err(AllocError),
    }
}

/// How a module speaks of a name with linkage, by its place; one that is not there answers want of memory.
pub fn symbol_at(alloc: Global, state: &State, place: u32) -> Result<Symbol, AllocError>
    ensures { IfOk result (λ symbol. view_symbol symbol ≡ spec.symbol_at (view_state state.now) place) }
{
    symbol_of_linked(alloc, linked_there(state, place)?)
}
