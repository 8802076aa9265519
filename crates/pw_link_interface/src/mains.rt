//! The `main` of an object file.

ghost use Rattle.std.specs.Prelude.{◌≡◌, map, IfOk};
ghost use Rattle.std.specs.List.{list_any};
ghost use Rattle.std.specs.Map.{lookup};
ghost use Rattle.std.specs.Option.{option_map};
ghost use Rattle.std.specs.Str.{bytes_eq};
ghost use Rattle.pw_value.specs.ProgramNames.{main_name};
ghost use Rattle.pw_link_interface.specs.Interface.{main_of};

use pw_object::{Object, ObjectFn};
use pw_value::program_names::MAIN;
use pw_value::{Name, Shape};
use std::alloc::{AllocError, Global};

/// Whether one of the functions is `main`.
fn is_main_among(functions: &[ObjectFn]) -> bool
    ensures { result ≡ list_any (bytes_eq main_name) (map (λ f. f.name) functions.now) }
{
    for each in functions {
        if MAIN == each.name.as_bytes() {
            return true;
        }
    }
    false
}

/// The first shape that is declared for `main`.
fn main_shape(declared: &[(Name, Shape)]) -> Option<&Shape>
    ensures { option_map (λ shape. shape.now) result ≡ lookup (bytes_eq main_name) declared.now }
{
    for each in declared {
        if MAIN == each.0.as_bytes() {
            return Some(&each.1);
        }
    }
    None
}

/// The shape that a module declares for its `main`, where it defines one.
pub(crate) fn main_of(alloc: Global, object: &Object) -> Result<Option<Shape>, AllocError>
    ensures { IfOk result (λ shape. shape ≡ main_of object.now) }
{
    if !is_main_among(object.functions.as_slice()) {
        return Ok(None);
    }
    match main_shape(object.declared.as_slice()) {
        Some(shape) => Ok(Some(shape.copy(alloc)?)),
        None => Ok(None),
    }
}
