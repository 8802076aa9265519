//! Modules as their summaries show them to the others.

ghost use Rattle.std.specs.Prelude.{◌≡◌, map, option_map, IfOk};
ghost use Rattle.pw_graph.specs.Program.{main_in, interface_of};

use pw_items::Items;
use pw_link_rules::Interface;
use pw_summary::Summary;
use pw_value::program_names::MAIN;
use pw_value::{Kind, Name, Shape, copied_shapes};
use std::alloc::{AllocError, Global};

/// The same names again.
fn copied_names(alloc: Global, names: &[Name]) -> Result<Items<Name>, AllocError>
    ensures { IfOk result (λ v. v ≡ names.now) }
{
    let mut copies = Items::new(alloc);
    for name in names {
        copies.push(name.copy(alloc)?)?;
    }
    Ok(copies)
}

/// The names of functions.
fn function_names(alloc: Global, functions: &[(Name, Shape)]) -> Result<Items<Name>, AllocError>
    ensures { IfOk result (λ v. v ≡ map (λ f. f.0) functions.now) }
{
    let mut names = Items::new(alloc);
    for function in functions {
        names.push(function.0.copy(alloc)?)?;
    }
    Ok(names)
}

/// The names of globals.
fn global_names(
    alloc: Global,
    globals: &[(Name, Shape, Option<Kind>, bool)],
) -> Result<Items<Name>, AllocError>
    ensures { IfOk result (λ v. v ≡ map (λ g. g.0) globals.now) }
{
    let mut names = Items::new(alloc);
    for global in globals {
        names.push(global.0.copy(alloc)?)?;
    }
    Ok(names)
}

/// The shape of `main`, where it is one of the functions.
fn main_of(alloc: Global, functions: &[(Name, Shape)]) -> Result<Option<Shape>, AllocError>
    ensures { IfOk result (λ shape. shape ≡ main_in functions.now) }
{
    for (name, shape) in functions {
        if name.as_bytes() == MAIN {
            return Ok(Some(shape.copy(alloc)?));
        }
    }
    Ok(None)
}

/// What a module shows to the others.
fn view_of(alloc: Global, summary: &Summary) -> Result<Interface, AllocError>
    ensures { IfOk result (λ i. i ≡ interface_of summary.now) }
{
    Ok(Interface {
        module: summary.module.copy(alloc)?,
        functions: function_names(alloc, summary.functions.as_slice())?,
        globals: global_names(alloc, summary.globals.as_slice())?,
        declared: Items::from_vec(copied_shapes(alloc, summary.declared.as_slice())?),
        used: copied_names(alloc, summary.used.as_slice())?,
        main: main_of(alloc, summary.functions.as_slice())?,
    })
}

/// What modules show to each other.
pub(crate) fn views(alloc: Global, summaries: &[Summary]) -> Result<Vec<Interface>, AllocError>
    ensures { IfOk result (λ v. v.items ≡ map interface_of summaries.now) }
{
    let mut modules = Vec::new(alloc);
    for summary in summaries {
        modules.push(view_of(alloc, summary)?)?;
    }
    Ok(modules)
}
