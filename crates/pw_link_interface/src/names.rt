//! The names that an object file defines and declares.

ghost use Rattle.std.specs.Prelude.{◌≡◌, map, IfOk};

use pw_flow::FlowGlobal;
use pw_items::Items;
use pw_object::ObjectFn;
use pw_value::Name;
use std::alloc::{AllocError, Global};

/// The names of functions.
pub(crate) fn function_names(
    alloc: Global,
    functions: &[ObjectFn],
) -> Result<Items<Name>, AllocError>
    ensures { IfOk result (λ names. names ≡ map (λ f. f.name) functions.now) }
{
    let mut names = Items::new(alloc);
    for each in functions {
        names.push(each.name.copy(alloc)?)?;
    }
    Ok(names)
}

/// The names of global objects.
pub(crate) fn global_names(alloc: Global, globals: &[FlowGlobal]) -> Result<Items<Name>, AllocError>
    ensures { IfOk result (λ names. names ≡ map (λ g. g.name) globals.now) }
{
    let mut names = Items::new(alloc);
    for each in globals {
        names.push(each.name.copy(alloc)?)?;
    }
    Ok(names)
}
