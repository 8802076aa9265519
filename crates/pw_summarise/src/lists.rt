//! What a module defines and declares, in byte order of the names.

ghost use Rattle.std.specs.Prelude.{◌≡◌, map, IfOk};
ghost use Rattle.pw_flow.specs.ValidFlow.{AreDistinct};
ghost use Rattle.pw_summarise.specs.Summarises.{IsOrdered, global_entry, function_entry};

use pw_flow::{FlowFn, FlowGlobal};
use pw_items::Items;
use pw_value::{Kind, Name, Shape, copied_shapes};
use std::alloc::{AllocError, Global};

/// All objects, as they stand.
fn each_global(alloc: Global, globals: &[FlowGlobal]) -> Result<Vec<&FlowGlobal>, AllocError>
    ensures { IfOk result (λ v. map (λ g. global_entry g.now) v.items ≡ map global_entry globals.now) }
{
    let mut all = Vec::new(alloc);
    for global in globals {
        all.push(global)?;
    }
    Ok(all)
}

/// The objects in byte order.
fn sorted_globals(alloc: Global, globals: &[FlowGlobal]) -> Result<Vec<&FlowGlobal>, AllocError>
    requires { AreDistinct (map (λ g. g.0) (map global_entry globals.now)) }
    ensures { IfOk result (λ v. IsOrdered (λ g. g.0) (map global_entry globals.now) (map (λ g. global_entry g.now) v.items)) }
{
    let mut sorted = each_global(alloc, globals)?;
    sorted.sort_unstable_by(|one, other| one.name.cmp(&other.name));
    Ok(sorted)
}

/// What a summary has of objects.
fn global_entries(
    alloc: Global,
    globals: &[&FlowGlobal],
) -> Result<Items<(Name, Shape, Option<Kind>, bool)>, AllocError>
    ensures { IfOk result (λ v. v ≡ map (λ g. global_entry g.now) globals.now) }
{
    let mut entries = Items::new(alloc);
    for global in globals {
        let name = global.name.copy(alloc)?;
        let shape = global.shape.copy(alloc)?;
        entries.push((name, shape, global.kind, global.volatile))?;
    }
    Ok(entries)
}

/// What a summary has of a module's objects.
pub(crate) fn globals_of(
    alloc: Global,
    globals: &[FlowGlobal],
) -> Result<Items<(Name, Shape, Option<Kind>, bool)>, AllocError>
    requires { AreDistinct (map (λ g. g.0) (map global_entry globals.now)) }
    ensures { IfOk result (λ v. IsOrdered (λ g. g.0) (map global_entry globals.now) v) }
{
    let sorted = sorted_globals(alloc, globals)?;
    global_entries(alloc, &sorted)
}

/// All functions, as they stand.
fn each_function(alloc: Global, functions: &[FlowFn]) -> Result<Vec<&FlowFn>, AllocError>
    ensures { IfOk result (λ v. map (λ f. f.now) v.items ≡ functions.now) }
{
    let mut all = Vec::new(alloc);
    for function in functions {
        all.push(function)?;
    }
    Ok(all)
}

/// The functions in byte order.
pub(crate) fn sorted_functions(
    alloc: Global,
    functions: &[FlowFn],
) -> Result<Vec<&FlowFn>, AllocError>
    requires { AreDistinct (map (λ f. f.name) functions.now) }
    ensures { IfOk result (λ v. IsOrdered (λ f. f.name) functions.now (map (λ f. f.now) v.items)) }
{
    let mut sorted = each_function(alloc, functions)?;
    sorted.sort_unstable_by(|one, other| one.name.cmp(&other.name));
    Ok(sorted)
}

/// What a summary has of functions.
pub(crate) fn function_entries(
    alloc: Global,
    functions: &[&FlowFn],
) -> Result<Items<(Name, Shape)>, AllocError>
    ensures { IfOk result (λ v. v ≡ map (λ f. function_entry f.now) functions.now) }
{
    let mut entries = Items::new(alloc);
    for function in functions {
        entries.push((function.name.copy(alloc)?, function.shape.copy(alloc)?))?;
    }
    Ok(entries)
}

/// What a module declares.
pub(crate) fn declared_of(
    alloc: Global,
    declared: &[(Name, Shape)],
) -> Result<Items<(Name, Shape)>, AllocError>
    requires { AreDistinct (map (λ d. d.0) declared.now) }
    ensures { IfOk result (λ v. IsOrdered (λ d. d.0) declared.now v) }
{
    let mut sorted = copied_shapes(alloc, declared)?;
    sorted.sort_unstable_by(|one, other| one.0.cmp(&other.0));
    Ok(Items::from_vec(sorted))
}
