//! Where the parameters and locals of a function stand.

ghost use Rattle.std.specs.Prelude.{◌≡◌, ◌≤◌, ◌^◌, IfOk, MatchResult, OnOk, map};
ghost use Rattle.pw_lower.specs.Modules as spec;
ghost use Rattle.pw_lower.specs.Places.{places_of as places, temps_from};
ghost use Rattle.pw_lower_places.specs.Placing.{kept_unless, placed, parameter_stored};
ghost use Rattle.pw_typed.specs.Views.{view_function, view_local, view_locals};

use crate::addressed::mark_in_statement;
use pw_flow::Op;
use pw_items::Items;
use pw_lower::code::further;
use pw_lower::operators::bytes_of;
use pw_lower::{Code, LocalPlace};
use pw_lower_forms::stores::scalar_kind;
use pw_typed::{Local, TFunction};
use pw_types::{Types, is_scalar};
use pw_value::NoMemory;
use std::alloc::Global;

/// Where the parameters and locals of a function stand.
#[tactic(auto, using(crate::proofs::PlacingLaws::placed_marked))]
pub fn places_of(alloc: Global, f: &TFunction) -> Result<Vec<LocalPlace>, NoMemory>
    ensures { IfOk result (λ v. v.items ≡ places (view_function f.now)) }
{
    let mut addressed = vec![in alloc; false; f.locals.len()]?;
    mark_in_statement(&f.body, &mut addressed);
    place_locals(alloc, &f.locals, f.params, &addressed)
}

/// Whether a local is kept in a temporary, by whether its address is taken: it is scalar and not
/// volatile.
fn is_kept(local: &Local, is_addressed: bool) -> bool
    ensures { result ≡ kept_unless is_addressed (view_local local.now) }
{
    is_scalar(&local.ty.ty) && !local.ty.volatile && !is_addressed
}

/// The place of each local. A parameter's temporary has the parameter's number; those of the other locals,
/// and the slots, are numbered in the order of declaration.
fn place_locals(
    alloc: Global,
    locals: &[Local],
    params: u32,
    addressed: &[bool],
) -> Result<Vec<LocalPlace>, NoMemory>
    ensures { IfOk result (λ v. v.items ≡ placed addressed.now params 0 params 0 (view_locals locals.now)) }
{
    let mut places = Vec::new(alloc);
    let mut temp = params;
    let mut slot: u32 = 0;
    let mut number: u32 = 0;
    for (local, is_addressed) in locals.iter().zip(addressed) {
        if !is_kept(local, *is_addressed) {
            places.push(LocalPlace::Slot(slot))?;
            slot = further(slot, 1)?;
        } else if number < params {
            places.push(LocalPlace::Temp(number))?;
        } else {
            places.push(LocalPlace::Temp(temp))?;
            temp = further(temp, 1)?;
        }
        number = further(number, 1)?;
    }
    Ok(places)
}

/// How many temporaries the parameters and the kept locals have. There is no memory for more than 32 bits can count,
/// and for no fewer.
pub fn temps_of(params: u32, places: &[LocalPlace]) -> Result<u32, NoMemory>
    ensures { MatchResult result (λ n. n ≡ temps_from params places.now) (λ _. 2 ^ 32 ≤ temps_from params places.now) }
{
    let mut temps = params;
    for place in places {
        if let LocalPlace::Temp(temp) = place
            && *temp >= temps
        {
            temps = further(*temp, 1)?;
        }
    }
    Ok(temps)
}

/// The sizes of the slots, in order.
pub fn slots_of(
    alloc: Global,
    types: &Types,
    locals: &[Local],
    places: &[LocalPlace],
) -> Result<Items<u32>, NoMemory>
    ensures { IfOk result (λ slots. slots ≡ spec.slots_of types.now (view_locals locals.now) places.now) }
{
    let mut slots = Items::new(alloc);
    for (local, place) in locals.iter().zip(places) {
        if let LocalPlace::Slot(_) = place {
            slots.push(bytes_of(types, &local.ty.ty)?)?;
        }
    }
    Ok(slots)
}

/// Stores the parameter of a number where it stands in a slot.
fn store_parameter(
    local: &Local,
    place: LocalPlace,
    number: u32,
    code: &mut Code,
) -> Result<(), NoMemory>
    ensures { OnOk result (code.new ≡ parameter_stored (view_local local.now) place number code.old) }
{
    match place {
        LocalPlace::Slot(slot) => {
            let address = code.slot_address(slot)?;
            code.emit(Op::Store(scalar_kind(&local.ty.ty), address, number))
        }
        LocalPlace::Temp(_) => Ok(()),
    }
}

/// Stores the parameters that stand in slots, in their order.
#[tactic(auto, using(crate::proofs::PlaceLoops::stored_none, crate::proofs::PlaceLoops::stored_done))]
pub fn store_parameters(
    locals: &[Local],
    places: &[LocalPlace],
    params: u32,
    code: &mut Code,
) -> Result<(), NoMemory>
    ensures { OnOk result (code.new ≡ spec.parameters_stored (view_locals locals.now) places.now 0 params code.old) }
{
    let mut number: u32 = 0;
    for (local, place) in locals.iter().zip(places) {
        if number == params {
            break;
        }
        store_parameter(local, *place, number, code)?;
        number += 1;
    }
    Ok(())
}
