//! Writing an object file.

ghost use Rattle.std.specs.Prelude.{◌≡◌, ◌++◌, ◌↔◌, List, length, IsTrue, OnOk, IfOk, All, Contains};
ghost use Rattle.std.specs.List.{flat_map, AllByRecursion};
ghost use Rattle.pw_fields.specs.Fields.{u8, u32, FitsU32, FitsText};
ghost use Rattle.pw_fields.specs.FieldNames.{IsNameTable};
ghost use Rattle.pw_files.specs.Rising.{counted, FitsList};
ghost use Rattle.pw_files.specs.Names.{FitsShapes};
ghost use Rattle.pw_flowfile.specs.FlowFile.{global as global_text, all_in_global, FitsGlobal};
ghost use Rattle.pw_object.specs.Functions.{IsSymbolNamed, IsFunctionNamed, kind_code, symbol_spelling, fix as fix_text, function as function_text};
ghost use Rattle.pw_object.specs.Object.{IsObject, IsObjectFile, IsNamedBy, FitsFunction, FitsObject, own, code, spelling};

use crate::functions::{ObjectFn, SymbolForm};
use crate::names::used_names;
use crate::object::{Object, VERSION};
use crate::reading::KIND;
use pw_fields::names::{push_name, push_names};
use pw_fields::writing::{push_u8, push_u32};
use pw_files::writing::{
    make_table, push_bytes, push_count, push_name_list, push_shaped_list, push_words, seal_payload,
};
use pw_flow::FlowGlobal;
use pw_flowfile::push_global;
use pw_inst::{Fix, FixKind, Symbol};
use pw_value::Name;
use pw_value::words::word_of;
use std::alloc::{AllocError, Global};

/// A symbol.
fn push_symbol(out: &mut Vec<u8>, names: &[Name], symbol: &Symbol) -> Result<(), AllocError>
    requires table { IsNameTable names.now }
    requires stands { IsSymbolNamed names.now symbol.now }
    ensures { OnOk result (out.new.items ≡ out.old.items ++ symbol_spelling names.now symbol.now) }
{
    match symbol {
        Symbol::Named(name) => {
            push_u8(out, SymbolForm::Named as u8)?;
            push_name(out, names, name)
        }
        Symbol::Word(word) => {
            push_u8(out, SymbolForm::Word as u8)?;
            push_u32(out, *word)
        }
        Symbol::StackLimit => push_u8(out, SymbolForm::StackLimit as u8),
        Symbol::Routine(number) => {
            push_u8(out, SymbolForm::Routine as u8)?;
            push_u8(out, *number)
        }
    }
}

/// The byte of a fix's kind.
fn push_kind(out: &mut Vec<u8>, kind: FixKind) -> Result<(), AllocError>
    ensures { OnOk result (out.new.items ≡ out.old.items ++ u8 (kind_code kind)) }
{
    push_u8(out, kind as u8)
}

/// A fix.
fn push_fix(out: &mut Vec<u8>, names: &[Name], fix: &Fix) -> Result<(), AllocError>
    requires table { IsNameTable names.now }
    requires stands { IsSymbolNamed names.now fix.now.symbol }
    ensures { OnOk result (out.new.items ≡ out.old.items ++ fix_text names.now fix.now) }
{
    push_u32(out, fix.word)?;
    push_kind(out, fix.kind)?;
    push_symbol(out, names, &fix.symbol)?;
    push_u32(out, fix.addend)
}

/// Fixes, one after the other.
fn push_fixes(out: &mut Vec<u8>, names: &[Name], fixes: &[Fix]) -> Result<(), AllocError>
    requires table { IsNameTable names.now }
    requires stand { All (λ f. IsSymbolNamed names.now f.symbol) fixes.now }
    ensures { OnOk result (out.new.items ≡ out.old.items ++ flat_map (fix_text names.now) fixes.now) }
{
    for fix in fixes {
        push_fix(out, names, fix)?;
    }
    Ok(())
}

/// A function of an object file. A count that no file can hold is want of memory.
#[tactic(auto, unfolding(pw_files::specs::Rising::counted))]
pub fn push_function(
    out: &mut Vec<u8>,
    names: &[Name],
    function: &ObjectFn,
) -> Result<(), AllocError>
    requires table { IsNameTable names.now }
    requires stand { IsFunctionNamed names.now function.now }
    ensures words_fit { OnOk result (FitsU32 (length function.now.words)) }
    ensures fixes_fit { OnOk result (FitsU32 (length function.now.fixes)) }
    ensures written { OnOk result (out.new.items ≡ out.old.items ++ function_text names.now function.now) }
{
    push_name(out, names, &function.name)?;
    push_u32(out, function.frame)?;
    push_count(out, function.words.len())?;
    push_words(out, function.words.as_slice())?;
    push_count(out, function.fixes.len())?;
    push_fixes(out, names, function.fixes.as_slice())?;
    Ok(())
}

/// Whether a file can hold the counts and texts of a global.
fn has_room(global: &FlowGlobal) -> bool
    ensures { IsTrue result ↔ FitsGlobal global.now }
{
    word_of(global.shape.as_bytes().len()).is_ok() && word_of(global.items.len()).is_ok()
}

/// Globals, one after the other.
fn push_globals(out: &mut Vec<u8>, names: &[Name], globals: &[FlowGlobal]) -> Result<(), AllocError>
    requires table { IsNameTable names.now }
    requires stand { All (λ g. AllByRecursion (Contains names.now) (all_in_global g)) globals.now }
    ensures fits { OnOk result (All (λ g. FitsGlobal g) globals.now) }
    ensures written { OnOk result (out.new.items ≡ out.old.items ++ flat_map (global_text names.now) globals.now) }
{
    for global in globals {
        if !has_room(global) {
            return Err(AllocError);
        }
        push_global(out, names, global)?;
    }
    Ok(())
}

/// Functions, one after the other.
fn push_functions(
    out: &mut Vec<u8>,
    names: &[Name],
    functions: &[ObjectFn],
) -> Result<(), AllocError>
    requires table { IsNameTable names.now }
    requires stand { All (λ f. IsFunctionNamed names.now f) functions.now }
    ensures fits { OnOk result (All (λ f. FitsFunction f) functions.now) }
    ensures written { OnOk result (out.new.items ≡ out.old.items ++ flat_map (function_text names.now) functions.now) }
{
    for function in functions {
        push_function(out, names, function)?;
    }
    Ok(())
}

/// What stands before the globals.
fn push_own(out: &mut Vec<u8>, names: &[Name], object: &Object) -> Result<(), AllocError>
    requires table { IsNameTable names.now }
    requires stand { IsNamedBy names.now object.now }
    ensures flow_fits { OnOk result (FitsText object.now.flow) }
    ensures directives_fit { OnOk result (FitsText object.now.directives) }
    ensures declared_fit { OnOk result (FitsShapes object.now.declared) }
    ensures used_fit { OnOk result (FitsU32 (length object.now.used)) }
    ensures written { OnOk result (out.new.items ≡ out.old.items ++ own names.now object.now) }
{
    push_name(out, names, &object.module)?;
    push_bytes(out, object.flow.as_slice())?;
    push_bytes(out, object.directives.as_slice())?;
    push_shaped_list(out, names, object.declared.as_slice())?;
    push_name_list(out, names, object.used.as_slice())?;
    Ok(())
}

/// The globals and the functions.
#[tactic(auto, unfolding(pw_files::specs::Rising::counted))]
fn push_code(out: &mut Vec<u8>, names: &[Name], object: &Object) -> Result<(), AllocError>
    requires table { IsNameTable names.now }
    requires stand { IsNamedBy names.now object.now }
    ensures globals_fit { OnOk result (FitsList FitsGlobal object.now.globals) }
    ensures functions_fit { OnOk result (FitsList FitsFunction object.now.functions) }
    ensures written { OnOk result (out.new.items ≡ out.old.items ++ code names.now object.now) }
{
    push_count(out, object.globals.len())?;
    push_globals(out, names, object.globals.as_slice())?;
    push_count(out, object.functions.len())?;
    push_functions(out, names, object.functions.as_slice())?;
    Ok(())
}

/// The payload of an object file.
fn write_payload(alloc: Global, names: &[Name], object: &Object) -> Result<Vec<u8>, AllocError>
    requires table { IsNameTable names.now }
    requires stand { IsNamedBy names.now object.now }
    ensures fits { OnOk result (FitsObject object.now) }
    ensures written { IfOk result (λ v. v.items ≡ spelling (record { names = names.now; value = object.now })) }
{
    let mut out = Vec::new(alloc);
    push_names(&mut out, names)?;
    push_own(&mut out, names, object)?;
    push_code(&mut out, names, object)?;
    Ok(out)
}

/// The one file of an object. Where it would be longer than a file can be, that is want of memory.
pub fn write(alloc: Global, object: &Object) -> Result<Vec<u8>, AllocError>
    requires { IsObject object.now }
    ensures { IfOk result (λ v. IsObjectFile v.items object.now) }
{
    let used = used_names(alloc, object)?;
    let names = make_table(alloc, used)?;
    let payload = write_payload(alloc, &names, object)?;
    seal_payload(alloc, KIND, VERSION, &payload)
}
