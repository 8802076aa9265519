//! The initialisers of locals.

ghost use Rattle.std.specs.Prelude.{◌≡◌, OnOk};
ghost use Rattle.pw_lexpr.specs.Homes.{view_home};
ghost use Rattle.pw_lower.specs.Operators.{kind_of as kind};
ghost use Rattle.pw_lower.specs.Places.{place_at};
ghost use Rattle.pw_lower.specs.Statements as spec;
ghost use Rattle.pw_typed.specs.Views.{view_expr, view_locals, view_initialiser, view_initialisers};
ghost use Rattle.pw_types.specs.TypeTrees.{Void};
ghost use Rattle.pw_types.specs.Views.{view_type};

use crate::expressions::lower;
use crate::frame::Frame;
use pw_lower::Code;
use pw_lower::operators::kind_of;
use pw_lower_forms::home::place_of;
use pw_lower_forms::{address_of_local, copied, hidden_name, stored, target_of_local};
use pw_typed::{Initialiser, TExpr};
use pw_types::CType;
use pw_value::NoMemory;
use std::alloc::Global;

/// Initialises a local of a type: a scalar's value is stored, a record's is copied.
fn initialise_by(
    alloc: Global,
    frame: Frame,
    local: u32,
    ty: &CType,
    value: &TExpr,
    code: &mut Code,
) -> Result<(), NoMemory>
    ensures { OnOk result (code.new
        ≡ spec.initialised_by (view_home frame.entry.home) (kind (view_type ty.now)) (view_type ty.now) (place_at frame.entry.home.places.now local) (view_expr value.now) code.old) }
{
    let place = place_of(frame.home.places, local);
    match kind_of(ty) {
        Some(kind) => {
            let target = target_of_local(place, code)?;
            let value = lower(alloc, frame.home, value, code)?;
            let _ = stored(kind, target, value, code)?;
        }
        None => {
            let address = address_of_local(place, code)?;
            let from = lower(alloc, frame.home, value, code)?;
            let _ = copied(frame.home.types, ty, address, from, code)?;
        }
    }
    Ok(())
}

/// Copies the bytes of a hidden object to a local of a type.
fn initialise_from(
    alloc: Global,
    frame: Frame,
    local: u32,
    ty: &CType,
    hidden: u32,
    code: &mut Code,
) -> Result<(), NoMemory>
    ensures { OnOk result (code.new
        ≡ spec.copied_from (view_home frame.entry.home) (view_type ty.now) (place_at frame.entry.home.places.now local) hidden code.old) }
{
    let address = address_of_local(place_of(frame.home.places, local), code)?;
    let from = code.global_address(hidden_name(alloc, frame.home.name, hidden)?)?;
    let _ = copied(frame.home.types, ty, address, Some(from), code)?;
    Ok(())
}

/// Initialises a local. `unknown` is the type of a local that the function has none of the number of.
fn initialise_or(
    alloc: Global,
    frame: Frame,
    initialiser: &Initialiser,
    unknown: &CType,
    code: &mut Code,
) -> Result<(), NoMemory>
    requires { view_type unknown.now ≡ Void }
    ensures { OnOk result (code.new
        ≡ spec.initialised (view_home frame.entry.home) (view_locals frame.entry.locals.now) (view_initialiser initialiser.now) code.old) }
{
    match initialiser {
        Initialiser::Value(local, value) => {
            let ty = frame.type_of(*local, unknown);
            initialise_by(alloc, frame, *local, ty, value, code)
        }
        Initialiser::Bytes(local, hidden, _) => {
            let ty = frame.type_of(*local, unknown);
            initialise_from(alloc, frame, *local, ty, *hidden, code)
        }
    }
}

/// Initialises a local.
#[tactic(auto, unfolding(pw_types::specs::Views::view_type))]
fn initialise(
    alloc: Global,
    frame: Frame,
    initialiser: &Initialiser,
    code: &mut Code,
) -> Result<(), NoMemory>
    ensures { OnOk result (code.new
        ≡ spec.initialised (view_home frame.entry.home) (view_locals frame.entry.locals.now) (view_initialiser initialiser.now) code.old) }
{
    let unknown = CType::Void;
    initialise_or(alloc, frame, initialiser, &unknown, code)
}

/// Initialises locals in order.
pub fn initialise_all(
    alloc: Global,
    frame: Frame,
    all: &[Initialiser],
    code: &mut Code,
) -> Result<(), NoMemory>
    ensures { OnOk result (code.new
        ≡ spec.initialised_all (view_home frame.entry.home) (view_locals frame.entry.locals.now) (view_initialisers all.now) code.old) }
{
    for initialiser in all {
        initialise(alloc, frame, initialiser, code)?;
    }
    Ok(())
}
