//! The names of the objects of static lifetime.

ghost use Rattle.std.specs.Prelude.{◌≡◌, ◌++◌, map, IfOk, OnOk};
ghost use Rattle.pw_typed.specs.Views.{view_module};
ghost use Rattle.pw_cmean.specs.Worlds as worlds;
ghost use Rattle.pw_interp_world.specs.Views.{view_part, view_program};

use crate::program::Part;
use pw_lower_forms::full_name;
use pw_value::Name;
use std::alloc::{AllocError, Global};

/// The full names of the objects of static lifetime, each at its object's number.
pub fn global_names(alloc: Global, parts: &[Part]) -> Result<Vec<Name>, AllocError>
    ensures { IfOk result (λ v. v.items ≡ worlds.global_names (view_program parts.now)) }
{
    let mut names = Vec::new(alloc);
    for part in parts {
        add_names(alloc, &mut names, *part)?;
    }
    Ok(names)
}

/// Puts the names of a module's objects behind the others.
fn add_names(alloc: Global, names: &mut Vec<Name>, part: Part) -> Result<(), AllocError>
    ensures { OnOk result (names.new.items ≡ names.old.items ++ map (λ g. worlds.full_name part.entry.name.now g.name) (view_module part.entry.tree.now).globals) }
{
    for global in &part.tree.globals {
        names.push(full_name(alloc, part.name, &global.name)?)?;
    }
    Ok(())
}
