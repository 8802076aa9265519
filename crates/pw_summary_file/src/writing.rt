//! Writing a summary file.

ghost use Rattle.std.specs.Prelude.{◌≡◌, ◌++◌, length, OnOk, IfOk, All};
ghost use Rattle.pw_fields.specs.Fields.{FitsU32, FitsText};
ghost use Rattle.pw_fields.specs.FieldNames.{IsNameTable};
ghost use Rattle.pw_files.specs.Rising.{FitsList};
ghost use Rattle.pw_files.specs.Names.{FitsShapes};
ghost use Rattle.pw_summary.specs.Summary.{IsVersioned};
ghost use Rattle.pw_summary_parts.specs.Spelling.{FitsUses};
ghost use Rattle.pw_summary_file.specs.Spelling.{IsSummaryFile, FitsSummary, IsNamedBy, own, others, spelling};

use crate::names::used_names;
use pw_fields::names::{push_name, push_names};
use pw_files::writing::{make_table, push_name_list, push_shaped_list, seal_payload};
use pw_summary::{KIND, Summary};
use pw_summary_parts::{push_all_uses, push_global_list};
use pw_value::Name;
use std::alloc::{AllocError, Global};

/// The module's name, its globals, its functions and the names that it declares.
fn push_own(out: &mut Vec<u8>, names: &[Name], summary: &Summary) -> Result<(), AllocError>
    requires table { IsNameTable names.now }
    requires stand { IsNamedBy names.now summary.now }
    ensures globals_fit { OnOk result (FitsList (λ g. FitsText g.1) summary.now.globals) }
    ensures functions_fit { OnOk result (FitsShapes summary.now.functions) }
    ensures declared_fit { OnOk result (FitsShapes summary.now.declared) }
    ensures written { OnOk result (out.new.items ≡ out.old.items ++ own names.now summary.now) }
{
    push_name(out, names, &summary.module)?;
    push_global_list(out, names, summary.globals.as_slice())?;
    push_shaped_list(out, names, summary.functions.as_slice())?;
    push_shaped_list(out, names, summary.declared.as_slice())?;
    Ok(())
}

/// The names that the module uses, those whose address it takes, and what each function uses.
fn push_used(out: &mut Vec<u8>, names: &[Name], summary: &Summary) -> Result<(), AllocError>
    requires table { IsNameTable names.now }
    requires stand { IsNamedBy names.now summary.now }
    ensures used_fit { OnOk result (FitsU32 (length summary.now.used)) }
    ensures taken_fit { OnOk result (FitsShapes summary.now.taken) }
    ensures escaped_fit { OnOk result (FitsU32 (length summary.now.escaped)) }
    ensures uses_fit { OnOk result (All FitsUses summary.now.uses) }
    ensures written { OnOk result (out.new.items ≡ out.old.items ++ others summary.now.version names.now summary.now) }
{
    push_name_list(out, names, summary.used.as_slice())?;
    push_shaped_list(out, names, summary.taken.as_slice())?;
    push_name_list(out, names, summary.escaped.as_slice())?;
    push_all_uses(out, summary.version, names, summary.uses.as_slice())?;
    Ok(())
}

/// The payload of a summary file.
fn write_payload(alloc: Global, names: &[Name], summary: &Summary) -> Result<Vec<u8>, AllocError>
    requires table { IsNameTable names.now }
    requires stand { IsNamedBy names.now summary.now }
    ensures fits { OnOk result (FitsSummary summary.now) }
    ensures written { IfOk result (λ v. v.items ≡ spelling summary.now.version (record { names = names.now; value = summary.now })) }
{
    let mut out = Vec::new(alloc);
    push_names(&mut out, names)?;
    push_own(&mut out, names, summary)?;
    push_used(&mut out, names, summary)?;
    Ok(out)
}

/// The one file of a summary. Where it would be longer than a file can be, that is want of memory.
pub fn write(alloc: Global, summary: &Summary) -> Result<Vec<u8>, AllocError>
    requires { IsVersioned summary.now }
    ensures { IfOk result (λ v. IsSummaryFile v.items summary.now) }
{
    let used = used_names(alloc, summary)?;
    let names = make_table(alloc, used)?;
    let payload = write_payload(alloc, &names, summary)?;
    seal_payload(alloc, KIND, summary.version, &payload)
}
