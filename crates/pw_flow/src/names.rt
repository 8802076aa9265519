//! The names in a flow graph, collected behind those that are there.

ghost use Rattle.std.specs.Prelude.{◌≡◌, ◌++◌, map, OnOk, IfOk};
ghost use Rattle.std.specs.List.{flat_map};
ghost use Rattle.pw_flow.specs.FlowGraph.{item_names, op_names, names_in_global};

use crate::flow::{FlowFn, FlowGlobal, Item, Op};
use pw_value::Name;
use std::alloc::{AllocError, Global};

/// Adds the name that an operation names.
pub fn add_op<'a>(names: &mut Vec<&'a Name>, op: &'a Op) -> Result<(), AllocError>
    ensures { OnOk result (map (λ name. name.now) names.new.items ≡ map (λ name. name.now) names.old.items ++ op_names op.now) }
{
    match op {
        Op::AddrGlobal(_, name, _)
        | Op::AddrFn(_, name)
        | Op::LoadG(_, name, _)
        | Op::StoreG(name, _, _)
        | Op::Call(_, name, _) => names.push(name)?,
        _ => {}
    }
    Ok(())
}

/// Adds the names that items name.
pub fn add_items<'a>(names: &mut Vec<&'a Name>, items: &'a [(u32, Item)]) -> Result<(), AllocError>
    ensures { OnOk result (map (λ name. name.now) names.new.items ≡ map (λ name. name.now) names.old.items ++ flat_map (λ placed. item_names placed.1) items.now) }
{
    for (_, item) in items {
        if let Item::Address(name, _) = item {
            names.push(name)?;
        }
    }
    Ok(())
}

/// Adds the names that the items of objects name.
pub fn add_items_of_all<'a>(
    names: &mut Vec<&'a Name>,
    globals: &'a [FlowGlobal],
) -> Result<(), AllocError>
    ensures { OnOk result (map (λ name. name.now) names.new.items ≡ map (λ name. name.now) names.old.items ++ flat_map names_in_global globals.now) }
{
    for global in globals {
        add_items(names, global.items.as_slice())?;
    }
    Ok(())
}

/// The names of objects alone.
pub fn global_names(alloc: Global, globals: &[FlowGlobal]) -> Result<Vec<&Name>, AllocError>
    ensures { IfOk result (λ v. map (λ name. name.now) v.items ≡ map (λ g. g.name) globals.now) }
{
    let mut names = Vec::new(alloc);
    for global in globals {
        names.push(&global.name)?;
    }
    Ok(names)
}

/// The names of functions, in order, without those that their code uses. Fails only for want of memory.
pub fn function_names(alloc: Global, functions: &[FlowFn]) -> Result<Vec<&Name>, AllocError>
    ensures { IfOk result (λ v. map (λ name. name.now) v.items ≡ map (λ f. f.name) functions.now) }
{
    let mut names = Vec::new(alloc);
    for function in functions {
        names.push(&function.name)?;
    }
    Ok(names)
}
