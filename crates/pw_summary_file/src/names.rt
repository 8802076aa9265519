//! The names that a summary uses.

ghost use Rattle.std.specs.Prelude.{◌≡◌, map, IfOk};
ghost use Rattle.pw_summary_file.specs.Spelling.{names_of};

use pw_files::used::{add_names, add_shaped};
use pw_summary::Summary;
use pw_summary_parts::{add_all_uses, add_globals};
use pw_value::{Kind, Name, Shape};
use std::alloc::{AllocError, Global};

/// The names that a summary uses, in the order of their use.
pub(crate) fn used_names(alloc: Global, summary: &Summary) -> Result<Vec<&Name>, AllocError>
    ensures { IfOk result (λ v. map (λ name. name.now) v.items ≡ names_of summary.now) }
{
    let mut used = Vec::new(alloc);
    used.push(&summary.module)?;
    add_globals(&mut used, summary.globals.as_slice())?;
    add_shaped(&mut used, summary.functions.as_slice())?;
    add_shaped(&mut used, summary.declared.as_slice())?;
    add_names(&mut used, summary.used.as_slice())?;
    add_shaped(&mut used, summary.taken.as_slice())?;
    add_names(&mut used, summary.escaped.as_slice())?;
    add_all_uses(&mut used, summary.uses.as_slice())?;
    Ok(used)
}

/// The names of functions, in order, without their shapes.
pub(crate) fn function_names(
    alloc: Global,
    functions: &[(Name, Shape)],
) -> Result<Vec<&Name>, AllocError>
    ensures { IfOk result (λ v. map (λ name. name.now) v.items ≡ map (λ f. f.0) functions.now) }
{
    let mut names = Vec::new(alloc);
    add_shaped(&mut names, functions)?;
    Ok(names)
}

/// The names of globals, in order, without what a summary says of them.
pub(crate) fn global_names(
    alloc: Global,
    globals: &[(Name, Shape, Option<Kind>, bool)],
) -> Result<Vec<&Name>, AllocError>
    ensures { IfOk result (λ v. map (λ name. name.now) v.items ≡ map (λ g. g.0) globals.now) }
{
    let mut names = Vec::new(alloc);
    add_globals(&mut names, globals)?;
    Ok(names)
}
