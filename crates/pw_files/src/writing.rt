//! Writing lists, shapes and names. A count, a text or a payload that no file can hold is answered as want
//! of memory.

ghost use Rattle.std.specs.Prelude.{◌≡◌, ◌++◌, List, length, map, OnOk, IfOk, All, Contains};
ghost use Rattle.std.specs.List.{flat_map};
ghost use Rattle.pw_fields.specs.Fields.{u32, text, FitsU32, FitsText};
ghost use Rattle.pw_fields.specs.FieldFrame.{file, FitsFile};
ghost use Rattle.pw_fields.specs.FieldNames.{name_index, IsNameTable, IsTableOf};
ghost use Rattle.pw_files.specs.Rising.{counted, FitsList};
ghost use Rattle.pw_files.specs.Names.{shaped, FitsShapes};

use pw_fields::frame::{FRAME_LEN, seal};
use pw_fields::names::{push_name, table_of};
use pw_fields::writing::{push_text, push_u32};
use pw_value::words::word_of;
use pw_value::{Name, Shape};
use std::alloc::{AllocError, Global};

/// The table of the names that are used, in whatever order and however often.
pub fn make_table(alloc: Global, used: Vec<&Name>) -> Result<Vec<Name>, AllocError>
    ensures fits { IfOk result (λ v. FitsU32 (length v.items)) }
    ensures table { IfOk result (λ v. IsTableOf v.items (map (λ name. name.now) used.entry.items)) }
{
    let names = table_of(alloc, used)?;
    word_of(names.len())?;
    Ok(names)
}

/// The file of this kind and version that holds the payload.
pub fn seal_payload(
    alloc: Global,
    kind: u32,
    version: u32,
    payload: &[u8],
) -> Result<Vec<u8>, AllocError>
    ensures room { OnOk result (FitsFile payload.now) }
    ensures sealed { IfOk result (λ v. v.items ≡ file kind version payload.now) }
{
    word_of(FRAME_LEN + payload.len())?;
    seal(alloc, kind, version, payload)
}

/// The count of a list's items.
pub fn push_count(out: &mut Vec<u8>, count: usize) -> Result<(), AllocError>
    ensures fits { OnOk result (FitsU32 count) }
    ensures written { OnOk result (out.new.items ≡ out.old.items ++ u32 count) }
{
    push_u32(out, word_of(count)?)
}

/// Numbers, one after the other.
pub fn push_words(out: &mut Vec<u8>, words: &[u32]) -> Result<(), AllocError>
    ensures { OnOk result (out.new.items ≡ out.old.items ++ flat_map u32 words.now) }
{
    for word in words {
        push_u32(out, *word)?;
    }
    Ok(())
}

/// A text of whatever length.
pub fn push_bytes(out: &mut Vec<u8>, bytes: &[u8]) -> Result<(), AllocError>
    ensures fits { OnOk result (FitsText bytes.now) }
    ensures written { OnOk result (out.new.items ≡ out.old.items ++ text bytes.now) }
{
    word_of(bytes.len())?;
    push_text(out, bytes)
}

/// Adds a name, by its place in the table, and its shape as a text.
pub fn push_shaped(
    out: &mut Vec<u8>,
    names: &[Name],
    name: &Name,
    shape: &Shape,
) -> Result<(), AllocError>
    requires table { IsNameTable names.now }
    requires stands { Contains names.now name.now }
    ensures fits { OnOk result (FitsText shape.now) }
    ensures written { OnOk result (out.new.items ≡ out.old.items ++ shaped names.now (name.now, shape.now)) }
{
    push_name(out, names, name)?;
    push_bytes(out, shape.as_bytes())
}

/// Names, one after the other.
fn push_name_items(out: &mut Vec<u8>, names: &[Name], items: &[Name]) -> Result<(), AllocError>
    requires table { IsNameTable names.now }
    requires stand { All (Contains names.now) items.now }
    ensures { OnOk result (out.new.items ≡ out.old.items ++ flat_map (name_index names.now) items.now) }
{
    for item in items {
        push_name(out, names, item)?;
    }
    Ok(())
}

/// Adds a list of names: their count, and the place of each in the table.
#[tactic(auto, unfolding(crate::specs::Rising::counted))]
pub fn push_name_list(out: &mut Vec<u8>, names: &[Name], items: &[Name]) -> Result<(), AllocError>
    requires table { IsNameTable names.now }
    requires stand { All (Contains names.now) items.now }
    ensures fits { OnOk result (FitsU32 (length items.now)) }
    ensures written { OnOk result (out.new.items ≡ out.old.items ++ counted (name_index names.now) items.now) }
{
    push_count(out, items.len())?;
    push_name_items(out, names, items)
}

/// Shapes, one after the other.
fn push_shape_items(out: &mut Vec<u8>, items: &[Shape]) -> Result<(), AllocError>
    ensures fits { OnOk result (All FitsText items.now) }
    ensures written { OnOk result (out.new.items ≡ out.old.items ++ flat_map text items.now) }
{
    for item in items {
        push_bytes(out, item.as_bytes())?;
    }
    Ok(())
}

/// Adds a list of shapes: their count, and each as a text.
#[tactic(auto, unfolding(crate::specs::Rising::counted))]
pub fn push_shape_list(out: &mut Vec<u8>, items: &[Shape]) -> Result<(), AllocError>
    ensures fits { OnOk result (FitsList FitsText items.now) }
    ensures written { OnOk result (out.new.items ≡ out.old.items ++ counted text items.now) }
{
    push_count(out, items.len())?;
    push_shape_items(out, items)
}

/// Names with their shapes, one after the other.
fn push_shaped_items(
    out: &mut Vec<u8>,
    names: &[Name],
    items: &[(Name, Shape)],
) -> Result<(), AllocError>
    requires table { IsNameTable names.now }
    requires stand { All (λ f. Contains names.now f.0) items.now }
    ensures fits { OnOk result (All (λ f. FitsText f.1) items.now) }
    ensures written { OnOk result (out.new.items ≡ out.old.items ++ flat_map (shaped names.now) items.now) }
{
    for item in items {
        push_shaped(out, names, &item.0, &item.1)?;
    }
    Ok(())
}

/// A list of names with their shapes.
#[tactic(auto, unfolding(crate::specs::Rising::counted))]
pub fn push_shaped_list(
    out: &mut Vec<u8>,
    names: &[Name],
    items: &[(Name, Shape)],
) -> Result<(), AllocError>
    requires table { IsNameTable names.now }
    requires stand { All (λ f. Contains names.now f.0) items.now }
    ensures fits { OnOk result (FitsShapes items.now) }
    ensures written { OnOk result (out.new.items ≡ out.old.items ++ counted (shaped names.now) items.now) }
{
    push_count(out, items.len())?;
    push_shaped_items(out, names, items)
}
