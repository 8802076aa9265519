//! The names that a module uses, in the order of the file.

ghost use Rattle.std.specs.Prelude.{◌≡◌, ◌++◌, map, OnOk, IfOk};
ghost use Rattle.std.specs.List.{flat_map};
ghost use Rattle.pw_flow.specs.FlowGraph.{op_names, names_in_block};
ghost use Rattle.pw_flowfile.specs.FlowFile.{all_in_global, all_in_function, names_of};

use pw_files::used::add_shaped;
use pw_flow::names::{add_items, add_op};
use pw_flow::{Block, FlowFn, FlowGlobal, FlowModule, Op};
use pw_value::Name;
use std::alloc::{AllocError, Global};

/// The names that operations name.
fn add_ops<'a>(used: &mut Vec<&'a Name>, ops: &'a [Op]) -> Result<(), AllocError>
    ensures { OnOk result (map (λ name. name.now) used.new.items ≡ map (λ name. name.now) used.old.items ++ flat_map op_names ops.now) }
{
    for op in ops {
        add_op(used, op)?;
    }
    Ok(())
}

/// The names that blocks name.
fn add_blocks<'a>(used: &mut Vec<&'a Name>, blocks: &'a [Block]) -> Result<(), AllocError>
    ensures { OnOk result (map (λ name. name.now) used.new.items ≡ map (λ name. name.now) used.old.items ++ flat_map names_in_block blocks.now) }
{
    for block in blocks {
        add_ops(used, block.ops.as_slice())?;
    }
    Ok(())
}

/// The names of functions, and those that they name.
fn add_functions<'a>(used: &mut Vec<&'a Name>, functions: &'a [FlowFn]) -> Result<(), AllocError>
    ensures { OnOk result (map (λ name. name.now) used.new.items ≡ map (λ name. name.now) used.old.items ++ flat_map all_in_function functions.now) }
{
    for function in functions {
        used.push(&function.name)?;
        add_blocks(used, function.blocks.as_slice())?;
    }
    Ok(())
}

/// The name of an object, and those that it names.
fn add_global<'a>(used: &mut Vec<&'a Name>, global: &'a FlowGlobal) -> Result<(), AllocError>
    ensures { OnOk result (map (λ name. name.now) used.new.items ≡ map (λ name. name.now) used.old.items ++ all_in_global global.now) }
{
    used.push(&global.name)?;
    add_items(used, global.items.as_slice())
}

/// The names of objects, and those that they name.
pub fn add_globals<'a>(
    used: &mut Vec<&'a Name>,
    globals: &'a [FlowGlobal],
) -> Result<(), AllocError>
    ensures { OnOk result (map (λ name. name.now) used.new.items ≡ map (λ name. name.now) used.old.items ++ flat_map all_in_global globals.now) }
{
    for global in globals {
        add_global(used, global)?;
    }
    Ok(())
}

/// Every name of a module, in the order of the file.
pub fn used_names(alloc: Global, flow: &FlowModule) -> Result<Vec<&Name>, AllocError>
    ensures { IfOk result (λ v. map (λ name. name.now) v.items ≡ names_of flow.now) }
{
    let mut used = Vec::new(alloc);
    used.push(&flow.name)?;
    add_globals(&mut used, flow.globals.as_slice())?;
    add_shaped(&mut used, flow.declared.as_slice())?;
    add_functions(&mut used, flow.functions.as_slice())?;
    Ok(used)
}
