//! The names that an object file uses.

ghost use Rattle.std.specs.Prelude.{◌≡◌, ◌++◌, map, IfOk, OnOk};
ghost use Rattle.std.specs.List.{flat_map};
ghost use Rattle.pw_link_interface.specs.Interface.{names_of_fixes, used_names};

use pw_files::used::add_names;
use pw_flow::names::add_items_of_all;
use pw_items::Items;
use pw_object::{Object, ObjectFn, add_fixes};
use pw_value::Name;
use std::alloc::{AllocError, Global};

/// Adds the names in relocations of functions.
fn add_functions<'a>(used: &mut Vec<&'a Name>, functions: &'a [ObjectFn]) -> Result<(), AllocError>
    ensures { OnOk result (map (λ name. name.now) used.new.items ≡ map (λ name. name.now) used.old.items ++ flat_map names_of_fixes functions.now) }
{
    for each in functions {
        add_fixes(used, each.fixes.as_slice())?;
    }
    Ok(())
}

/// Copies of names.
fn copies(alloc: Global, names: &[&Name]) -> Result<Items<Name>, AllocError>
    ensures { IfOk result (λ all. all ≡ map (λ name. name.now) names.now) }
{
    let mut all = Items::new(alloc);
    for name in names {
        all.push(name.copy(alloc)?)?;
    }
    Ok(all)
}

/// The names that a module uses.
pub(crate) fn used_names(alloc: Global, object: &Object) -> Result<Items<Name>, AllocError>
    ensures { IfOk result (λ names. names ≡ used_names object.now) }
{
    let mut used = Vec::new(alloc);
    add_names(&mut used, object.used.as_slice())?;
    add_items_of_all(&mut used, object.globals.as_slice())?;
    add_functions(&mut used, object.functions.as_slice())?;
    copies(alloc, &used)
}
