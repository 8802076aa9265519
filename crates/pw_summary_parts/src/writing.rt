//! Writing the parts of a summary file.

ghost use Rattle.std.specs.Prelude.{◌≡◌, ◌++◌, length, OnOk, All, Contains};
ghost use Rattle.std.specs.List.{flat_map};
ghost use Rattle.pw_fields.specs.Fields.{FitsU32, FitsText};
ghost use Rattle.pw_fields.specs.FieldNames.{IsNameTable};
ghost use Rattle.pw_files.specs.Rising.{counted, FitsList};
ghost use Rattle.pw_summary_parts.specs.Spelling.{FitsUses, AreNamed, global as global_text, reference as reference_text, need as need_text, uses as uses_text};

use pw_fields::names::push_name;
use pw_fields::writing::{push_flag, push_u8, push_u64};
use pw_files::kinds::push_kind;
use pw_files::writing::{push_count, push_name_list, push_shape_list, push_shaped};
use pw_summary::{FIRST, Uses};
use pw_value::{Kind, Name, Shape};
use std::alloc::AllocError;

/// A global.
fn push_global(
    out: &mut Vec<u8>,
    names: &[Name],
    global: &(Name, Shape, Option<Kind>, bool),
) -> Result<(), AllocError>
    requires table { IsNameTable names.now }
    requires stands { Contains names.now global.now.0 }
    ensures fits { OnOk result (FitsText global.now.1) }
    ensures written { OnOk result (out.new.items ≡ out.old.items ++ global_text names.now global.now) }
{
    push_shaped(out, names, &global.0, &global.1)?;
    push_kind(out, global.2)?;
    push_flag(out, global.3)
}

/// Globals, one after the other.
fn push_global_items(
    out: &mut Vec<u8>,
    names: &[Name],
    globals: &[(Name, Shape, Option<Kind>, bool)],
) -> Result<(), AllocError>
    requires table { IsNameTable names.now }
    requires stand { All (λ g. Contains names.now g.0) globals.now }
    ensures fits { OnOk result (All (λ g. FitsText g.1) globals.now) }
    ensures written { OnOk result (out.new.items ≡ out.old.items ++ flat_map (global_text names.now) globals.now) }
{
    for global in globals {
        push_global(out, names, global)?;
    }
    Ok(())
}

/// Writes the count of globals, and the globals; the table has their names.
#[tactic(auto, unfolding(pw_files::specs::Rising::counted))]
pub fn push_global_list(
    out: &mut Vec<u8>,
    names: &[Name],
    globals: &[(Name, Shape, Option<Kind>, bool)],
) -> Result<(), AllocError>
    requires table { IsNameTable names.now }
    requires stand { All (λ g. Contains names.now g.0) globals.now }
    ensures fits { OnOk result (FitsList (λ g. FitsText g.1) globals.now) }
    ensures written { OnOk result (out.new.items ≡ out.old.items ++ counted (global_text names.now) globals.now) }
{
    push_count(out, globals.len())?;
    push_global_items(out, names, globals)
}

/// A global with its weights.
fn push_reference(
    out: &mut Vec<u8>,
    names: &[Name],
    reference: &(Name, u64, u64),
) -> Result<(), AllocError>
    requires table { IsNameTable names.now }
    requires stands { Contains names.now reference.now.0 }
    ensures { OnOk result (out.new.items ≡ out.old.items ++ reference_text names.now reference.now) }
{
    push_name(out, names, &reference.0)?;
    push_u64(out, reference.1)?;
    push_u64(out, reference.2)
}

/// Globals with their weights, one after the other.
fn push_reference_items(
    out: &mut Vec<u8>,
    names: &[Name],
    refs: &[(Name, u64, u64)],
) -> Result<(), AllocError>
    requires table { IsNameTable names.now }
    requires stand { All (λ r. Contains names.now r.0) refs.now }
    ensures { OnOk result (out.new.items ≡ out.old.items ++ flat_map (reference_text names.now) refs.now) }
{
    for reference in refs {
        push_reference(out, names, reference)?;
    }
    Ok(())
}

/// A list of globals with their weights.
#[tactic(auto, unfolding(pw_files::specs::Rising::counted))]
fn push_reference_list(
    out: &mut Vec<u8>,
    names: &[Name],
    refs: &[(Name, u64, u64)],
) -> Result<(), AllocError>
    requires table { IsNameTable names.now }
    requires stand { All (λ r. Contains names.now r.0) refs.now }
    ensures fits { OnOk result (FitsU32 (length refs.now)) }
    ensures written { OnOk result (out.new.items ≡ out.old.items ++ counted (reference_text names.now) refs.now) }
{
    push_count(out, refs.len())?;
    push_reference_items(out, names, refs)
}

/// What a function needs, for which no byte stands in the first version.
fn push_need(out: &mut Vec<u8>, version: u32, need: u8) -> Result<(), AllocError>
    ensures { OnOk result (out.new.items ≡ out.old.items ++ need_text version need) }
{
    if version == FIRST {
        Ok(())
    } else {
        push_u8(out, need)
    }
}

/// What a function uses.
fn push_uses(out: &mut Vec<u8>, version: u32, names: &[Name], uses: &Uses) -> Result<(), AllocError>
    requires table { IsNameTable names.now }
    requires stand { AreNamed names.now uses.now }
    ensures fits { OnOk result (FitsUses uses.now) }
    ensures written { OnOk result (out.new.items ≡ out.old.items ++ uses_text version names.now uses.now) }
{
    push_name_list(out, names, uses.calls.as_slice())?;
    push_shape_list(out, uses.shapes.as_slice())?;
    push_reference_list(out, names, uses.refs.as_slice())?;
    push_need(out, version, uses.need)
}

/// Writes what functions use, one after the other, in the form of a version; the table has the names.
pub fn push_all_uses(
    out: &mut Vec<u8>,
    version: u32,
    names: &[Name],
    all: &[Uses],
) -> Result<(), AllocError>
    requires table { IsNameTable names.now }
    requires stand { All (AreNamed names.now) all.now }
    ensures fits { OnOk result (All FitsUses all.now) }
    ensures written { OnOk result (out.new.items ≡ out.old.items ++ flat_map (uses_text version names.now) all.now) }
{
    for uses in all {
        push_uses(out, version, names, uses)?;
    }
    Ok(())
}
