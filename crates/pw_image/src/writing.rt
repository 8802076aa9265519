//! Writing an image file.

ghost use Rattle.std.specs.Prelude.{◌≡◌, [], ◌∷◌, ◌++◌, ◌<◌, ◌^◌, ℕ, List, length, OnOk, IfOk, All, Contains};
ghost use Rattle.std.specs.List.{flat_map};
ghost use Rattle.pw_fields.specs.Fields.{u32, parts, FitsText, FitsU32};
ghost use Rattle.pw_fields.specs.FieldFrame.{FitsFile};
ghost use Rattle.pw_fields.specs.FieldNames.{IsNameTable, IsTableOf};
ghost use Rattle.pw_image.specs.Image.{IsMemory, IsImage, IsContents, IsImageFile, item as item_text, memory as memory_text, function as function_text, global as global_text, names_of, spelling};

use crate::image::{DataItem, Function, GlobalObject, Image, Memory};
use crate::reading::{KIND, VERSION, used_names};
use pw_fields::names::{push_name, push_names};
use pw_fields::writing::{push_text, push_u32};
use pw_files::writing::{make_table, push_count, push_words, seal_payload};
use pw_value::Name;
use std::alloc::{AllocError, Global};

/// An item of the data.
fn push_item(out: &mut Vec<u8>, item: &DataItem) -> Result<(), AllocError>
    requires { FitsText item.now.bytes }
    ensures { OnOk result (out.new.items ≡ out.old.items ++ item_text item.now) }
{
    push_u32(out, item.offset)?;
    push_text(out, item.bytes.as_slice())?;
    Ok(())
}

/// The items of the data.
fn push_items(out: &mut Vec<u8>, items: &[DataItem]) -> Result<(), AllocError>
    requires { All (λ i. FitsText i.bytes) items.now }
    ensures { OnOk result (out.new.items ≡ out.old.items ++ flat_map item_text items.now) }
{
    for item in items {
        push_item(out, item)?;
    }
    Ok(())
}

/// A function of the map.
fn push_function(out: &mut Vec<u8>, names: &[Name], function: &Function) -> Result<(), AllocError>
    requires table { IsNameTable names.now }
    requires stands { Contains names.now function.now.name }
    ensures { OnOk result (out.new.items ≡ out.old.items ++ function_text names.now function.now) }
{
    push_name(out, names, &function.name)?;
    push_u32(out, function.address)?;
    push_u32(out, function.frame)?;
    Ok(())
}

/// The functions of the map.
fn push_functions(
    out: &mut Vec<u8>,
    names: &[Name],
    functions: &[Function],
) -> Result<(), AllocError>
    requires table { IsNameTable names.now }
    requires stand { All (λ f. Contains names.now f.name) functions.now }
    ensures { OnOk result (out.new.items ≡ out.old.items ++ flat_map (function_text names.now) functions.now) }
{
    for function in functions {
        push_function(out, names, function)?;
    }
    Ok(())
}

/// A global object of the map.
fn push_global(out: &mut Vec<u8>, names: &[Name], global: &GlobalObject) -> Result<(), AllocError>
    requires table { IsNameTable names.now }
    requires stands { Contains names.now global.now.name }
    ensures { OnOk result (out.new.items ≡ out.old.items ++ global_text names.now global.now) }
{
    push_name(out, names, &global.name)?;
    push_u32(out, global.address)?;
    Ok(())
}

/// The global objects of the map.
fn push_globals(
    out: &mut Vec<u8>,
    names: &[Name],
    globals: &[GlobalObject],
) -> Result<(), AllocError>
    requires table { IsNameTable names.now }
    requires stand { All (λ g. Contains names.now g.name) globals.now }
    ensures { OnOk result (out.new.items ≡ out.old.items ++ flat_map (global_text names.now) globals.now) }
{
    for global in globals {
        push_global(out, names, global)?;
    }
    Ok(())
}

/// The entry, the stack and the end of the stack.
fn push_start(out: &mut Vec<u8>, memory: &Memory) -> Result<(), AllocError>
    ensures { OnOk result (out.new.items ≡ out.old.items ++ parts (u32 memory.now.entry ∷ u32 memory.now.stack ∷ u32 memory.now.stack_end ∷ [])) }
{
    push_u32(out, memory.entry)?;
    push_u32(out, memory.stack)?;
    push_u32(out, memory.stack_end)?;
    Ok(())
}

/// The text.
fn push_code(out: &mut Vec<u8>, words: &[u32]) -> Result<(), AllocError>
    ensures { OnOk result (out.new.items ≡ out.old.items ++ parts (u32 (length words.now) ∷ flat_map u32 words.now ∷ [])) }
{
    push_count(out, words.len())?;
    push_words(out, words)?;
    Ok(())
}

/// The data.
fn push_data(out: &mut Vec<u8>, size: u32, items: &[DataItem]) -> Result<(), AllocError>
    requires { All (λ i. FitsText i.bytes) items.now }
    ensures { OnOk result (out.new.items ≡ out.old.items ++ parts (u32 size ∷ u32 (length items.now) ∷ flat_map item_text items.now ∷ [])) }
{
    push_u32(out, size)?;
    push_count(out, items.len())?;
    push_items(out, items)?;
    Ok(())
}

/// What a machine starts with.
fn push_memory(out: &mut Vec<u8>, memory: &Memory) -> Result<(), AllocError>
    requires { IsMemory memory.now }
    ensures { OnOk result (out.new.items ≡ out.old.items ++ memory_text memory.now) }
{
    push_start(out, memory)?;
    push_code(out, memory.words.as_slice())?;
    push_data(out, memory.data_size, memory.items.as_slice())?;
    Ok(())
}

/// The functions and the global objects of the map.
fn push_map(out: &mut Vec<u8>, names: &[Name], image: &Image) -> Result<(), AllocError>
    requires count { FitsU32 (length names.now) }
    requires table { IsTableOf names.now (names_of image.now) }
    ensures functions { OnOk result (FitsU32 (length image.now.functions)) }
    ensures globals { OnOk result (FitsU32 (length image.now.globals)) }
    ensures written { OnOk result (out.new.items ≡ out.old.items ++ parts (u32 (length image.now.functions) ∷ flat_map (function_text names.now) image.now.functions
        ∷ u32 (length image.now.globals) ∷ flat_map (global_text names.now) image.now.globals ∷ [])) }
{
    push_count(out, image.functions.len())?;
    push_functions(out, names, image.functions.as_slice())?;
    push_count(out, image.globals.len())?;
    push_globals(out, names, image.globals.as_slice())?;
    Ok(())
}

/// The payload of an image file.
fn write_payload(alloc: Global, names: &[Name], image: &Image) -> Result<Vec<u8>, AllocError>
    requires image { IsImage image.now }
    requires count { FitsU32 (length names.now) }
    requires table { IsTableOf names.now (names_of image.now) }
    ensures contents { OnOk result (IsContents (record { names = names.now; value = image.now })) }
    ensures spelled { IfOk result (λ v. v.items ≡ spelling (record { names = names.now; value = image.now })) }
{
    let mut out = Vec::new(alloc);
    push_memory(&mut out, &image.memory)?;
    push_names(&mut out, names)?;
    push_map(&mut out, names, image)?;
    Ok(out)
}

/// The one file of an image. A file that would be too long for its fields is answered as want of memory.
pub fn write_image(alloc: Global, image: &Image) -> Result<Vec<u8>, AllocError>
    requires { IsImage image.now }
    ensures { IfOk result (λ v. (names : List (List ℕ)) × IsImageFile v.items (record { names = names; value = image.now })) }
{
    let used = used_names(alloc, image)?;
    let names = make_table(alloc, used)?;
    let payload = write_payload(alloc, &names, image)?;
    seal_payload(alloc, KIND, VERSION, &payload)
}
