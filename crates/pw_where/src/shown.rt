//! The globals that are shown.

ghost use Rattle.std.specs.Prelude.{◌≡◌, ◌++◌, map, IfOk, OnOk, Some};
ghost use Rattle.std.specs.List.{flat_map};
ghost use Rattle.pw_where.specs.Shown.{shown_as, shown_one, shown_of, IsByName};
ghost use Rattle.pw_where.specs.Looks.{globals_of};

use crate::numbers::{Number, is_hidden, number_of_shape};
use pw_flow::{FlowGlobal, add_globals};
use pw_image::GlobalObject;
use pw_object::Object;
use pw_value::Shape;
use std::alloc::{AllocError, Global};

/// A global that is shown, with its address and the type of its numbers.
#[derive(Drop)]
pub struct Shown {
    pub object: GlobalObject,
    pub number: Number,
}

/// The globals of the modules.
fn globals_of(alloc: Global, objects: &[Object]) -> Result<Vec<&FlowGlobal>, AllocError>
    ensures { IfOk result (λ all. map (λ g. g.now) all.items ≡ globals_of objects.now) }
{
    let mut all = Vec::new(alloc);
    for object in objects {
        add_globals(&mut all, object.globals.as_slice())?;
    }
    Ok(all)
}

/// Adds a global that is a number.
fn add_number(
    alloc: Global,
    shown: &mut Vec<Shown>,
    object: &GlobalObject,
    number: Number,
) -> Result<(), AllocError>
    ensures { OnOk result (shown.new.items ≡ shown.old.items ++ shown_as object.now (Some number)) }
{
    let object = GlobalObject {
        name: object.name.copy(alloc)?,
        address: object.address,
    };
    shown.push(Shown { object, number })?;
    Ok(())
}

/// Adds a global of this shape, if it is shown.
fn add_shown(
    alloc: Global,
    shown: &mut Vec<Shown>,
    shape: &Shape,
    object: &GlobalObject,
) -> Result<(), AllocError>
    ensures { OnOk result (shown.new.items ≡ shown.old.items ++ shown_one shape.now object.now) }
{
    if is_hidden(object.name.as_bytes()) {
        return Ok(());
    }
    match number_of_shape(shape) {
        Some(number) => add_number(alloc, shown, object, number),
        None => Ok(()),
    }
}

/// The globals of a map that are shown, in its order; these have their shapes.
fn shown_of(
    alloc: Global,
    globals: &[&FlowGlobal],
    objects: &[GlobalObject],
) -> Result<Vec<Shown>, AllocError>
    ensures { IfOk result (λ v. v.items ≡ shown_of (map (λ g. g.now) globals.now) objects.now) }
{
    let mut shown = Vec::new(alloc);
    let mut rest = globals;
    let mut objects = objects;
    while let [global, after @ ..] = rest {
        let [object, behind @ ..] = objects else {
            return Ok(shown);
        };
        add_shown(alloc, &mut shown, &global.shape, object)?;
        rest = after;
        objects = behind;
    }
    Ok(shown)
}

/// The same in byte order of names; those of one name stay in their order.
fn by_name(shown: Vec<Shown>) -> Result<Vec<Shown>, AllocError>
    ensures { IfOk result (λ v. IsByName shown.items v.items) }
{
    let mut ordered = shown;
    ordered.sort_by(|one, other| one.object.name.cmp(&other.object.name))?;
    Ok(ordered)
}

/// The globals of a map that are shown, in byte order of their names.
pub(crate) fn ordered(
    alloc: Global,
    objects: &[Object],
    globals: &[GlobalObject],
) -> Result<Vec<Shown>, AllocError>
    ensures { IfOk result (λ v. IsByName (shown_of (globals_of objects.now) globals.now) v.items) }
{
    let all = globals_of(alloc, objects)?;
    let shown = shown_of(alloc, &all, globals)?;
    by_name(shown)
}
