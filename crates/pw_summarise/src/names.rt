//! The names in the operations and items of a flow graph.

ghost use Rattle.std.specs.Prelude.{◌≡◌, ◌++◌, map, OnOk, IfOk};
ghost use Rattle.std.specs.List.{flat_map};
ghost use Rattle.pw_flow.specs.FlowGraph.{names_in_global};
ghost use Rattle.pw_fields.specs.FieldNames.{IsTableOf};
ghost use Rattle.pw_summarise.specs.Summarises.{called, referenced, addressed, in_function, in_module};
ghost use Rattle.pw_summarise.specs.Tallies.{names_as};

use pw_fields::names::table_of;
use pw_flow::names::{add_items_of_all, add_op};
use pw_flow::{Block, FlowFn, FlowModule, Op};
use pw_items::Items;
use pw_value::Name;
use std::alloc::{AllocError, Global};

/// Which names of operations are asked for.
#[derive(Clone, Copy)]
pub(crate) enum Part {
    /// Every name.
    Named,
    /// The functions that are called by name.
    Called,
    /// The globals that are read or written by name.
    Referenced,
    /// The names whose address is taken.
    Addressed,
}

/// The function that an operation calls by its name.
fn add_called<'a>(names: &mut Vec<&'a Name>, op: &'a Op) -> Result<(), AllocError>
    ensures { OnOk result (map (λ name. name.now) names.new.items ≡ map (λ name. name.now) names.old.items ++ called op.now) }
{
    if let Op::Call(_, name, _) = op {
        names.push(name)?;
    }
    Ok(())
}

/// The global that an operation reads or writes by its name.
fn add_referenced<'a>(names: &mut Vec<&'a Name>, op: &'a Op) -> Result<(), AllocError>
    ensures { OnOk result (map (λ name. name.now) names.new.items ≡ map (λ name. name.now) names.old.items ++ referenced op.now) }
{
    if let Op::LoadG(_, name, _) | Op::StoreG(name, _, _) = op {
        names.push(name)?;
    }
    Ok(())
}

/// The name whose address an operation takes.
fn add_addressed<'a>(names: &mut Vec<&'a Name>, op: &'a Op) -> Result<(), AllocError>
    ensures { OnOk result (map (λ name. name.now) names.new.items ≡ map (λ name. name.now) names.old.items ++ addressed op.now) }
{
    if let Op::AddrGlobal(_, name, _) | Op::AddrFn(_, name) = op {
        names.push(name)?;
    }
    Ok(())
}

/// The name of an operation, where it is asked for.
fn add_as<'a>(names: &mut Vec<&'a Name>, part: Part, op: &'a Op) -> Result<(), AllocError>
    ensures { OnOk result (map (λ name. name.now) names.new.items ≡ map (λ name. name.now) names.old.items ++ names_as part op.now) }
{
    match part {
        Part::Named => add_op(names, op),
        Part::Called => add_called(names, op),
        Part::Referenced => add_referenced(names, op),
        Part::Addressed => add_addressed(names, op),
    }
}

/// The names of operations that are asked for.
fn add_ops<'a>(names: &mut Vec<&'a Name>, part: Part, ops: &'a [Op]) -> Result<(), AllocError>
    ensures { OnOk result (map (λ name. name.now) names.new.items ≡ map (λ name. name.now) names.old.items ++ flat_map (names_as part) ops.now) }
{
    for op in ops {
        add_as(names, part, op)?;
    }
    Ok(())
}

/// The names of blocks that are asked for.
fn add_blocks<'a>(
    names: &mut Vec<&'a Name>,
    part: Part,
    blocks: &'a [Block],
) -> Result<(), AllocError>
    ensures { OnOk result (map (λ name. name.now) names.new.items ≡ map (λ name. name.now) names.old.items ++ flat_map (λ b. flat_map (names_as part) b.ops) blocks.now) }
{
    for block in blocks {
        add_ops(names, part, block.ops.as_slice())?;
    }
    Ok(())
}

/// The names of functions that are asked for.
fn add_functions<'a>(
    names: &mut Vec<&'a Name>,
    part: Part,
    functions: &'a [FlowFn],
) -> Result<(), AllocError>
    ensures { OnOk result (map (λ name. name.now) names.new.items ≡ map (λ name. name.now) names.old.items ++ flat_map (in_function (names_as part)) functions.now) }
{
    for function in functions {
        add_blocks(names, part, function.blocks.as_slice())?;
    }
    Ok(())
}

/// The names of a function that are asked for, each once and in byte order.
pub(crate) fn function_names(
    alloc: Global,
    part: Part,
    function: &FlowFn,
) -> Result<Items<Name>, AllocError>
    ensures { IfOk result (λ v. IsTableOf v (in_function (names_as part) function.now)) }
{
    let mut names = Vec::new(alloc);
    add_blocks(&mut names, part, function.blocks.as_slice())?;
    Ok(Items::from_vec(table_of(alloc, names)?))
}

/// The names of a module's items and those of its operations that are asked for, each once and in byte
/// order.
pub(crate) fn module_names(
    alloc: Global,
    part: Part,
    flow: &FlowModule,
) -> Result<Items<Name>, AllocError>
    ensures { IfOk result (λ v. IsTableOf v (in_module (names_as part) flow.now)) }
{
    let mut names = Vec::new(alloc);
    add_items_of_all(&mut names, flow.globals.as_slice())?;
    add_functions(&mut names, part, flow.functions.as_slice())?;
    Ok(Items::from_vec(table_of(alloc, names)?))
}
