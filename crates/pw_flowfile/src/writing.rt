//! Writing a flow file.

ghost use Rattle.std.specs.Prelude.{◌≡◌, ◌++◌, ℕ, List, map, OnOk, IfOk, Contains};
ghost use Rattle.std.specs.List.{flat_map, AllByRecursion};
ghost use Rattle.pw_fields.specs.FieldNames.{IsNameTable};
ghost use Rattle.pw_flow.specs.FlowGraph.{item_names, names_in_block, names_in_global};
ghost use Rattle.pw_files.specs.Rising.{counted};
ghost use Rattle.pw_flow.specs.ValidFlow.{IsValid};
ghost use Rattle.pw_flowfile.specs.FlowFile.{all_in_global, all_in_function, names_of, item as item_text, placed_item as placed_item_text, global_body as global_body_text, global as global_text, block as block_text, function as function_text, spelling, IsFlowFile};

use crate::globals::ItemForm;
use crate::reading::{KIND, VERSION};
use crate::used::used_names;
use pw_fields::names::{push_name, push_names};
use pw_fields::writing::{push_flag, push_u8, push_u32};
use pw_files::kinds::push_kind;
use pw_files::writing::{
    make_table, push_bytes, push_count, push_shaped_list, push_words, seal_payload,
};
use pw_flow::{Block, FlowFn, FlowGlobal, FlowModule, Item};
use pw_flow_ops::{push_end, push_ops};
use pw_value::Name;
use std::alloc::{AllocError, Global};

/// An item.
fn push_item(out: &mut Vec<u8>, names: &[Name], item: &Item) -> Result<(), AllocError>
    requires table { IsNameTable names.now }
    requires stands { AllByRecursion (Contains names.now) (item_names item.now) }
    ensures { OnOk result (out.new.items ≡ out.old.items ++ item_text names.now item.now) }
{
    match item {
        Item::Bytes(bytes) => {
            push_u8(out, ItemForm::Bytes as u8)?;
            push_bytes(out, bytes.as_slice())
        }
        Item::Address(name, offset) => {
            push_u8(out, ItemForm::Address as u8)?;
            push_name(out, names, name)?;
            push_u32(out, *offset)
        }
    }
}

/// Items with their offsets.
fn push_items(out: &mut Vec<u8>, names: &[Name], items: &[(u32, Item)]) -> Result<(), AllocError>
    requires table { IsNameTable names.now }
    requires stand { AllByRecursion (Contains names.now) (flat_map (λ placed. item_names placed.1) items.now) }
    ensures { OnOk result (out.new.items ≡ out.old.items ++ flat_map (placed_item_text names.now) items.now) }
{
    for placed in items {
        push_u32(out, placed.0)?;
        push_item(out, names, &placed.1)?;
    }
    Ok(())
}

/// What stands behind an object's name.
pub fn push_global_body(
    out: &mut Vec<u8>,
    names: &[Name],
    global: &FlowGlobal,
) -> Result<(), AllocError>
    requires table { IsNameTable names.now }
    requires stand { AllByRecursion (Contains names.now) (names_in_global global.now) }
    ensures { OnOk result (out.new.items ≡ out.old.items ++ global_body_text names.now global.now) }
{
    push_u32(out, global.size)?;
    push_bytes(out, global.shape.as_bytes())?;
    push_kind(out, global.kind)?;
    push_flag(out, global.volatile)?;
    push_count(out, global.items.len())?;
    push_items(out, names, global.items.as_slice())
}

/// Writes an object of a flow graph: its name, size, shape, kind, whether it is volatile, and its initial items;
/// `names` is the file's table, and has each name that it uses.
pub fn push_global(out: &mut Vec<u8>, names: &[Name], global: &FlowGlobal) -> Result<(), AllocError>
    requires table { IsNameTable names.now }
    requires stand { AllByRecursion (Contains names.now) (all_in_global global.now) }
    ensures { OnOk result (out.new.items ≡ out.old.items ++ global_text names.now global.now) }
{
    push_name(out, names, &global.name)?;
    push_global_body(out, names, global)
}

/// Objects.
fn push_global_items(
    out: &mut Vec<u8>,
    names: &[Name],
    globals: &[FlowGlobal],
) -> Result<(), AllocError>
    requires table { IsNameTable names.now }
    requires stand { AllByRecursion (Contains names.now) (flat_map all_in_global globals.now) }
    ensures { OnOk result (out.new.items ≡ out.old.items ++ flat_map (global_text names.now) globals.now) }
{
    for global in globals {
        push_global(out, names, global)?;
    }
    Ok(())
}

/// The count of objects, and the objects.
#[tactic(auto, unfolding(pw_files::specs::Rising::counted))]
fn push_globals(out: &mut Vec<u8>, names: &[Name], globals: &[FlowGlobal]) -> Result<(), AllocError>
    requires table { IsNameTable names.now }
    requires stand { AllByRecursion (Contains names.now) (flat_map all_in_global globals.now) }
    ensures { OnOk result (out.new.items ≡ out.old.items ++ counted (global_text names.now) globals.now) }
{
    push_count(out, globals.len())?;
    push_global_items(out, names, globals)
}

/// A block.
fn push_block(out: &mut Vec<u8>, names: &[Name], block: &Block) -> Result<(), AllocError>
    requires table { IsNameTable names.now }
    requires stand { AllByRecursion (Contains names.now) (names_in_block block.now) }
    ensures { OnOk result (out.new.items ≡ out.old.items ++ block_text names.now block.now) }
{
    push_u32(out, block.depth)?;
    push_count(out, block.ops.len())?;
    push_ops(out, names, block.ops.as_slice())?;
    push_end(out, block.end)
}

/// Blocks.
fn push_blocks(out: &mut Vec<u8>, names: &[Name], blocks: &[Block]) -> Result<(), AllocError>
    requires table { IsNameTable names.now }
    requires stand { AllByRecursion (Contains names.now) (flat_map names_in_block blocks.now) }
    ensures { OnOk result (out.new.items ≡ out.old.items ++ flat_map (block_text names.now) blocks.now) }
{
    for block in blocks {
        push_block(out, names, block)?;
    }
    Ok(())
}

/// A function.
fn push_function(out: &mut Vec<u8>, names: &[Name], function: &FlowFn) -> Result<(), AllocError>
    requires table { IsNameTable names.now }
    requires stand { AllByRecursion (Contains names.now) (all_in_function function.now) }
    ensures { OnOk result (out.new.items ≡ out.old.items ++ function_text names.now function.now) }
{
    push_name(out, names, &function.name)?;
    push_bytes(out, function.shape.as_bytes())?;
    push_u32(out, function.params)?;
    push_u32(out, function.temps)?;
    push_count(out, function.slots.len())?;
    push_words(out, function.slots.as_slice())?;
    push_count(out, function.blocks.len())?;
    push_blocks(out, names, function.blocks.as_slice())
}

/// Functions.
fn push_function_items(
    out: &mut Vec<u8>,
    names: &[Name],
    functions: &[FlowFn],
) -> Result<(), AllocError>
    requires table { IsNameTable names.now }
    requires stand { AllByRecursion (Contains names.now) (flat_map all_in_function functions.now) }
    ensures { OnOk result (out.new.items ≡ out.old.items ++ flat_map (function_text names.now) functions.now) }
{
    for function in functions {
        push_function(out, names, function)?;
    }
    Ok(())
}

/// The count of functions, and the functions.
#[tactic(auto, unfolding(pw_files::specs::Rising::counted))]
fn push_functions(out: &mut Vec<u8>, names: &[Name], functions: &[FlowFn]) -> Result<(), AllocError>
    requires table { IsNameTable names.now }
    requires stand { AllByRecursion (Contains names.now) (flat_map all_in_function functions.now) }
    ensures { OnOk result (out.new.items ≡ out.old.items ++ counted (function_text names.now) functions.now) }
{
    push_count(out, functions.len())?;
    push_function_items(out, names, functions)
}

/// The payload of a flow file.
fn push_module(out: &mut Vec<u8>, names: &[Name], flow: &FlowModule) -> Result<(), AllocError>
    requires table { IsNameTable names.now }
    requires stand { AllByRecursion (Contains names.now) (names_of flow.now) }
    ensures { OnOk result (out.new.items ≡ out.old.items ++ spelling (record { names = names.now; value = flow.now })) }
{
    push_names(out, names)?;
    push_name(out, names, &flow.name)?;
    push_globals(out, names, flow.globals.as_slice())?;
    push_shaped_list(out, names, flow.declared.as_slice())?;
    push_functions(out, names, flow.functions.as_slice())
}

/// The one file of a flow graph. Where it would have more than 4,294,967,295 bytes, there is no memory
/// for it.
pub fn write(alloc: Global, flow: &FlowModule) -> Result<Vec<u8>, AllocError>
    requires { IsValid flow.now }
    ensures { IfOk result (λ v. IsFlowFile v.items flow.now) }
{
    let used = used_names(alloc, flow)?;
    let names = make_table(alloc, used)?;
    let table = names.as_slice();
    let mut out = Vec::new(alloc);
    push_module(&mut out, table, flow)?;
    let payload = out.as_slice();
    seal_payload(alloc, KIND, VERSION, payload)
}
