//! The names that an object uses.

ghost use Rattle.std.specs.Prelude.{◌≡◌, ◌++◌, map, IfOk, OnOk};
ghost use Rattle.std.specs.List.{flat_map};
ghost use Rattle.pw_object.specs.Functions.{names_of_symbol, names_of_function};
ghost use Rattle.pw_object.specs.Object.{names_of};

use crate::functions::ObjectFn;
use crate::object::Object;
use pw_files::used::{add_names, add_shaped};
use pw_flowfile::add_globals;
use pw_inst::{Fix, Symbol};
use pw_value::Name;
use std::alloc::{AllocError, Global};

/// Adds the names of functions and objects at which relocations point, in order; those that the linker itself knows
/// have none.
pub fn add_fixes<'a>(used: &mut Vec<&'a Name>, fixes: &'a [Fix]) -> Result<(), AllocError>
    ensures { OnOk result (map (λ name. name.now) used.new.items ≡ map (λ name. name.now) used.old.items ++ flat_map (λ x. names_of_symbol x.symbol) fixes.now) }
{
    for fix in fixes {
        if let Symbol::Named(name) = &fix.symbol {
            used.push(name)?;
        }
    }
    Ok(())
}

/// Adds the names of functions, and those of their fixes.
fn add_functions<'a>(used: &mut Vec<&'a Name>, functions: &'a [ObjectFn]) -> Result<(), AllocError>
    ensures { OnOk result (map (λ name. name.now) used.new.items ≡ map (λ name. name.now) used.old.items ++ flat_map names_of_function functions.now) }
{
    for function in functions {
        used.push(&function.name)?;
        add_fixes(used, function.fixes.as_slice())?;
    }
    Ok(())
}

/// The names that an object uses, in the order of their use.
pub(crate) fn used_names(alloc: Global, object: &Object) -> Result<Vec<&Name>, AllocError>
    ensures { IfOk result (λ v. map (λ name. name.now) v.items ≡ names_of object.now) }
{
    let mut used = Vec::new(alloc);
    used.push(&object.module)?;
    add_shaped(&mut used, object.declared.as_slice())?;
    add_names(&mut used, object.used.as_slice())?;
    add_globals(&mut used, object.globals.as_slice())?;
    add_functions(&mut used, object.functions.as_slice())?;
    Ok(used)
}

/// The names of functions alone.
pub(crate) fn function_names(
    alloc: Global,
    functions: &[ObjectFn],
) -> Result<Vec<&Name>, AllocError>
    ensures { IfOk result (λ v. map (λ name. name.now) v.items ≡ map (λ f. f.name) functions.now) }
{
    let mut names = Vec::new(alloc);
    for function in functions {
        names.push(&function.name)?;
    }
    Ok(names)
}
