//! Writing a database.

ghost use Rattle.std.specs.Prelude.{◌≡◌, ◌++◌, map, OnOk, IfOk, All, Contains};
ghost use Rattle.std.specs.List.{flat_map};
ghost use Rattle.pw_fields.specs.Fields.{u8, FitsU32};
ghost use Rattle.pw_fields.specs.FieldNames.{IsNameTable};
ghost use Rattle.pw_db.specs.Database.{IsDatabase, IsVersioned, of_version};
ghost use Rattle.pw_db_file.specs.Spelling.{IsDatabaseContents, IsDatabaseFile, IsNewFile, IsPayload, FitsFunction, FitsDatabase, IsNamedBy, role_code, web as web_text, function as function_text, spelling};
ghost use Rattle.pw_files.specs.Contents.{IsContentsOf};

use crate::names::used_names;
use pw_db::{Database, Directives, KIND, Role, VERSION, Web};
use pw_db_sharing::push_sharing;
use pw_fields::names::{push_name, push_names};
use pw_fields::writing::{push_flag, push_u8, push_u32};
use pw_files::kinds::push_scalar;
use pw_files::writing::{make_table, push_count, seal_payload};
use pw_items::refs_of;
use pw_value::Name;
use std::alloc::{AllocError, Global};

/// The byte of a role.
fn push_role(out: &mut Vec<u8>, role: Role) -> Result<(), AllocError>
    ensures { OnOk result (out.new.items ≡ out.old.items ++ u8 (role_code role)) }
{
    push_u8(out, role as u8)
}

/// A web.
fn push_web(out: &mut Vec<u8>, names: &[Name], web: &(Web, Role)) -> Result<(), AllocError>
    requires table { IsNameTable names.now }
    requires stands { Contains names.now web.now.0.global }
    ensures fits { OnOk result (FitsU32 web.now.0.id) }
    ensures written { OnOk result (out.new.items ≡ out.old.items ++ web_text names.now web.now) }
{
    push_u32(out, web.0.id)?;
    push_name(out, names, &web.0.global)?;
    push_scalar(out, web.0.kind)?;
    push_u8(out, web.0.reg)?;
    push_flag(out, web.0.writes)?;
    push_role(out, web.1)
}

/// Webs, one after the other.
fn push_webs(out: &mut Vec<u8>, names: &[Name], webs: &[(Web, Role)]) -> Result<(), AllocError>
    requires table { IsNameTable names.now }
    requires stand { All (λ w. Contains names.now w.0.global) webs.now }
    ensures fits { OnOk result (All (λ w. FitsU32 w.0.id) webs.now) }
    ensures written { OnOk result (out.new.items ≡ out.old.items ++ flat_map (web_text names.now) webs.now) }
{
    for web in webs {
        push_web(out, names, web)?;
    }
    Ok(())
}

/// A function.
#[tactic(auto, unfolding(pw_files::specs::Rising::counted))]
fn push_function(
    out: &mut Vec<u8>,
    version: u32,
    names: &[Name],
    function: &(Name, Directives),
) -> Result<(), AllocError>
    requires table { IsNameTable names.now }
    requires stand { IsNamedBy names.now function.now }
    ensures fits { OnOk result (FitsFunction function.now) }
    ensures written { OnOk result (out.new.items ≡ out.old.items ++ function_text version names.now function.now) }
{
    push_name(out, names, &function.0)?;
    push_count(out, function.1.webs.len())?;
    push_webs(out, names, function.1.webs.as_slice())?;
    push_sharing(out, version, &function.1)?;
    Ok(())
}

/// Functions, one after the other.
fn push_functions(
    out: &mut Vec<u8>,
    version: u32,
    names: &[Name],
    functions: &[&(Name, Directives)],
) -> Result<(), AllocError>
    requires table { IsNameTable names.now }
    requires stand { All (λ f. IsNamedBy names.now f.now) functions.now }
    ensures fits { OnOk result (All (λ f. FitsFunction f.now) functions.now) }
    ensures written { OnOk result (out.new.items ≡ out.old.items ++ flat_map (function_text version names.now) (map (λ f. f.now) functions.now)) }
{
    for function in functions {
        push_function(out, version, names, function)?;
    }
    Ok(())
}

/// The payload of functions in a version, with this table of names.
#[tactic(auto, unfolding(pw_files::specs::Rising::counted))]
fn write_contents(
    alloc: Global,
    version: u32,
    names: &[Name],
    functions: &[&(Name, Directives)],
) -> Result<Vec<u8>, AllocError>
    requires table { IsNameTable names.now }
    requires stand { All (λ f. IsNamedBy names.now f.now) functions.now }
    ensures fits { OnOk result (FitsDatabase (map (λ f. f.now) functions.now)) }
    ensures written { IfOk result (λ v. v.items ≡ spelling version (record { names = names.now; value = of_version version (map (λ f. f.now) functions.now) })) }
{
    let mut out = Vec::new(alloc);
    push_names(&mut out, names)?;
    push_count(&mut out, functions.len())?;
    push_functions(&mut out, version, names, functions)?;
    Ok(out)
}

/// The payload of a database's functions in a version.
fn write_version(
    alloc: Global,
    version: u32,
    functions: &[&(Name, Directives)],
) -> Result<Vec<u8>, AllocError>
    requires { IsVersioned (of_version version (map (λ f. f.now) functions.now)) }
    ensures { IfOk result (λ v. IsContentsOf (spelling version) (IsDatabaseContents version) v.items (of_version version (map (λ f. f.now) functions.now))) }
{
    let used = used_names(alloc, functions)?;
    let names = make_table(alloc, used)?;
    write_contents(alloc, version, &names, functions)
}

/// The payload of a database's functions.
pub(crate) fn write_payload(
    alloc: Global,
    functions: &[&(Name, Directives)],
) -> Result<Vec<u8>, AllocError>
    requires { IsDatabase (map (λ f. f.now) functions.now) }
    ensures { IfOk result (λ v. IsPayload v.items (map (λ f. f.now) functions.now)) }
{
    write_version(alloc, VERSION, functions)
}

/// The one file of a database. Where it would be longer than a file can be, that is want of memory.
pub fn write(alloc: Global, db: &Database) -> Result<Vec<u8>, AllocError>
    requires { IsVersioned db.now }
    ensures { IfOk result (λ v. IsDatabaseFile v.items db.now) }
{
    let refs = refs_of(alloc, db.functions.as_slice())?;
    let payload = write_version(alloc, db.version, &refs)?;
    seal_payload(alloc, KIND, db.version, &payload)
}

/// The one file of functions, in the last version.
pub fn write_functions(
    alloc: Global,
    functions: &[(Name, Directives)],
) -> Result<Vec<u8>, AllocError>
    requires { IsDatabase functions.now }
    ensures { IfOk result (λ v. IsNewFile v.items functions.now) }
{
    let refs = refs_of(alloc, functions)?;
    let payload = write_payload(alloc, &refs)?;
    seal_payload(alloc, KIND, VERSION, &payload)
}
