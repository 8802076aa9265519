//! The names whose address a module takes: functions with their shapes, and globals.

ghost use Rattle.std.specs.Prelude.{◌≡◌, map, option_map, IfOk};
ghost use Rattle.pw_files.specs.Rising.{IsRising};
ghost use Rattle.pw_summarise.specs.Summarises.{shape_in, is_function_shape, if_function, function_shape as shape_of_function, taken_of, escaped_of};

use pw_items::Items;
use pw_value::{Name, Shape};
use std::alloc::{AllocError, Global};

/// Whether a shape is a function's.
fn is_function(shape: &Shape) -> bool
    ensures { result ≡ is_function_shape shape.now }
{
    match shape.as_bytes().split_first() {
        Some((first, _)) => *first == b'f',
        None => false,
    }
}

/// The shape that stands beside a name, by halves.
fn find<'a>(list: &'a [(Name, Shape)], name: &Name) -> Option<&'a Shape>
    requires { IsRising (map (λ f. f.0) list.now) }
    ensures { option_map (λ shape. shape.now) result ≡ shape_in list.now name.now }
{
    match list.binary_search_by(|entry| entry.0.cmp(name)) {
        Ok(place) => Some(&list[place].1),
        Err(_) => None,
    }
}

/// The shape that a declaration gives a function.
fn find_declared<'a>(declared: &'a [(Name, Shape)], name: &Name) -> Option<&'a Shape>
    requires { IsRising (map (λ d. d.0) declared.now) }
    ensures { option_map (λ shape. shape.now) result ≡ if_function (shape_in declared.now name.now) }
{
    match find(declared, name) {
        Some(shape) if is_function(shape) => Some(shape),
        _ => None,
    }
}

/// The shape of a function: of its definition, or else of its declaration.
fn function_shape<'a>(
    functions: &'a [(Name, Shape)],
    declared: &'a [(Name, Shape)],
    name: &Name,
) -> Option<&'a Shape>
    requires functions { IsRising (map (λ f. f.0) functions.now) }
    requires declared { IsRising (map (λ d. d.0) declared.now) }
    ensures { option_map (λ shape. shape.now) result ≡ shape_of_function functions.now declared.now name.now }
{
    match find(functions, name) {
        Some(shape) => Some(shape),
        None => find_declared(declared, name),
    }
}

/// The functions among names, with their shapes.
pub(crate) fn taken(
    alloc: Global,
    functions: &[(Name, Shape)],
    declared: &[(Name, Shape)],
    names: &[Name],
) -> Result<Items<(Name, Shape)>, AllocError>
    requires functions { IsRising (map (λ f. f.0) functions.now) }
    requires declared { IsRising (map (λ d. d.0) declared.now) }
    ensures { IfOk result (λ v. v ≡ taken_of functions.now declared.now names.now) }
{
    let mut taken = Items::new(alloc);
    for name in names {
        if let Some(shape) = function_shape(functions, declared, name) {
            taken.push((name.copy(alloc)?, shape.copy(alloc)?))?;
        }
    }
    Ok(taken)
}

/// The names that are no function's.
pub(crate) fn escaped(
    alloc: Global,
    functions: &[(Name, Shape)],
    declared: &[(Name, Shape)],
    names: &[Name],
) -> Result<Items<Name>, AllocError>
    requires functions { IsRising (map (λ f. f.0) functions.now) }
    requires declared { IsRising (map (λ d. d.0) declared.now) }
    ensures { IfOk result (λ v. v ≡ escaped_of functions.now declared.now names.now) }
{
    let mut escaped = Items::new(alloc);
    for name in names {
        if function_shape(functions, declared, name).is_none() {
            escaped.push(name.copy(alloc)?)?;
        }
    }
    Ok(escaped)
}
