//! Reading an object file.

ghost use Rattle.std.specs.Prelude.{◌≡◌, ◌+◌, ◌<◌, ◌^◌, ℕ, length, Option, IfOk, IfErr, Ok};
ghost use Rattle.std.specs.List.{flat_map};
ghost use Rattle.pw_fields.specs.Fields.{text, repeated};
ghost use Rattle.pw_fields.specs.FieldFaults.{AnswersField, GivesFile, Fails};
ghost use Rattle.pw_fields.specs.FieldFrame.{ended};
ghost use Rattle.pw_files.specs.Rising.{counted_at};
ghost use Rattle.pw_files.specs.Contents.{broken_at, value_of};
ghost use Rattle.pw_object.specs.declared.object.Object.{Object as AnyObject};
ghost use Rattle.pw_object.specs.Object.{kind as kind_of_file, object_version, whole_object, IsObjectFile};
ghost use Rattle.pw_object.specs.Reading.{global_at, function_at, last_rules, defined_at, fields_at, object_file_at};

use crate::functions::{ObjectFn, read_function};
use crate::names::{function_names, used_names};
use crate::object::{Object, VERSION};
use pw_fields::names::{find_unused, read_name};
use pw_fields::{FieldFault, read_text_in_place, read_u32};
use pw_files::format::{Format, read_value};
use pw_files::late::check_module;
use pw_files::lists::{read_name_list, read_shaped_list};
use pw_flow::FlowGlobal;
use pw_flow::names::global_names;
use pw_flowfile::read_global_body;
use pw_items::Items;
use pw_value::program_names::StartName;
use pw_value::{FileError, Name, Shape};
use std::alloc::{AllocError, Global};

/// `PAWO`, the first four bytes of an object file.
pub const KIND: u32 = 0x5041_574f;

/// A global.
#[tactic(auto, unfolding(crate::specs::Reading::global_at))]
fn read_global<'a>(
    alloc: Global,
    names: &[Name],
    bytes: &'a [u8],
) -> Result<(FlowGlobal, &'a [u8]), FieldFault>
    ensures { AnswersField (λ x. (x.0, x.1.now)) result (global_at names.now bytes.now) }
{
    let (name, rest) = read_name(names, bytes)?;
    read_global_body(alloc, StartName::Allowed, names, name, rest)
}

/// So many globals.
fn read_global_items<'a>(
    alloc: Global,
    names: &[Name],
    count: u32,
    bytes: &'a [u8],
) -> Result<(Items<FlowGlobal>, &'a [u8]), FieldFault>
    ensures { AnswersField (λ x. (x.0, x.1.now)) result (repeated (global_at names.now) count bytes.now) }
{
    let mut items = Items::new(alloc);
    let mut rest = bytes;
    for _ in 0..count {
        let (item, after) = read_global(alloc, names, rest)?;
        items.push(item)?;
        rest = after;
    }
    Ok((items, rest))
}

/// So many functions.
fn read_function_items<'a>(
    alloc: Global,
    names: &[Name],
    count: u32,
    bytes: &'a [u8],
) -> Result<(Items<ObjectFn>, &'a [u8]), FieldFault>
    ensures { AnswersField (λ x. (x.0, x.1.now)) result (repeated (function_at names.now) count bytes.now) }
{
    let mut items = Items::new(alloc);
    let mut rest = bytes;
    for _ in 0..count {
        let (item, after) = read_function(alloc, names, rest)?;
        items.push(item)?;
        rest = after;
    }
    Ok((items, rest))
}

/// The count of globals, and the globals.
#[tactic(auto, unfolding(pw_files::specs::Rising::counted_at))]
fn read_globals<'a>(
    alloc: Global,
    names: &[Name],
    bytes: &'a [u8],
) -> Result<(Items<FlowGlobal>, &'a [u8]), FieldFault>
    ensures { AnswersField (λ x. (x.0, x.1.now)) result (counted_at (global_at names.now) bytes.now) }
{
    let (count, rest) = read_u32(bytes)?;
    read_global_items(alloc, names, count, rest)
}

/// The count of functions, and the functions.
#[tactic(auto, unfolding(pw_files::specs::Rising::counted_at))]
fn read_functions<'a>(
    alloc: Global,
    names: &[Name],
    bytes: &'a [u8],
) -> Result<(Items<ObjectFn>, &'a [u8]), FieldFault>
    ensures { AnswersField (λ x. (x.0, x.1.now)) result (counted_at (function_at names.now) bytes.now) }
{
    let (count, rest) = read_u32(bytes)?;
    read_function_items(alloc, names, count, rest)
}

/// An object of these parts, of which texts and the name are copied.
fn object_of(
    alloc: Global,
    texts: (&Name, &[u8], &[u8]),
    declared: Items<(Name, Shape)>,
    used: Items<Name>,
    globals: Items<FlowGlobal>,
    functions: Items<ObjectFn>,
) -> Result<Object, AllocError>
    ensures { IfOk result (λ o. o ≡ whole_object texts.entry.0.now texts.entry.1.now texts.entry.2.now declared used globals functions) }
{
    let (module, flow, directives) = texts;
    Ok(Object {
        version: VERSION,
        module: module.copy(alloc)?,
        flow: Items::from_slice(alloc, flow)?,
        directives: Items::from_slice(alloc, directives)?,
        declared,
        used,
        globals,
        functions,
    })
}

/// The globals and the functions behind the other fields: the object, how many bytes are left from the count of its
/// functions on, and what is left behind it.
#[tactic(auto, unfolding(crate::specs::Reading::defined_at))]
fn read_defined<'a>(
    alloc: Global,
    names: &[Name],
    texts: (&Name, &[u8], &[u8]),
    declared: Items<(Name, Shape)>,
    used: Items<Name>,
    bytes: &'a [u8],
) -> Result<(Object, usize, &'a [u8]), FieldFault>
    ensures found { IfOk result (λ x. (late : AnyObject → ℕ → Option ℕ) → defined_at names.now late texts.entry.0.now texts.entry.1.now texts.entry.2.now declared used bytes.now ≡ ended (late x.0 x.1) (record { names = names.now; value = x.0 }) x.2.now) }
    ensures fault { IfErr result (λ e. (late : AnyObject → ℕ → Option ℕ) → Fails e (defined_at names.now late texts.entry.0.now texts.entry.1.now texts.entry.2.now declared used bytes.now)) }
{
    let (globals, count) = read_globals(alloc, names, bytes)?;
    let (functions, rest) = read_functions(alloc, names, count)?;
    let object = object_of(alloc, texts, declared, used, globals, functions)?;
    Ok((object, count.len(), rest))
}

/// The fields behind the table of names: the object, how many bytes are left from the count of its functions
/// on, and what is left behind it.
#[tactic(auto, unfolding(crate::specs::Reading::fields_at))]
fn read_parts<'a>(
    alloc: Global,
    names: &[Name],
    bytes: &'a [u8],
) -> Result<(Object, usize, &'a [u8]), FieldFault>
    ensures found { IfOk result (λ x. (late : AnyObject → ℕ → Option ℕ) → fields_at names.now late bytes.now ≡ ended (late x.0 x.1) (record { names = names.now; value = x.0 }) x.2.now) }
    ensures fault { IfErr result (λ e. (late : AnyObject → ℕ → Option ℕ) → Fails e (fields_at names.now late bytes.now)) }
{
    let (module, rest) = read_name(names, bytes)?;
    let (flow, rest) = read_text_in_place(rest)?;
    let (directives, rest) = read_text_in_place(rest)?;
    let (declared, rest) = read_shaped_list(alloc, names, StartName::Allowed, rest)?;
    let (used, rest) = read_name_list(alloc, names, StartName::Allowed, rest)?;
    let texts = (module, flow, directives);
    read_defined(alloc, names, texts, declared, used, rest)
}

/// The rules that are looked at last: each name of the table is used, where so many bytes are left behind
/// the table; and that of `$start`, where so many are left from the count of the functions on.
fn check_last(
    alloc: Global,
    names: &[Name],
    object: &Object,
    behind: usize,
    count: usize,
) -> Result<(), FieldFault>
    requires { length (flat_map text names.now) + behind < 2 ^ 64 }
    ensures { AnswersField (λ x. x) result (broken_at (last_rules names.now behind object.now count)) }
{
    let used = used_names(alloc, object)?;
    let unused = find_unused(alloc, names, used, behind)?;
    let functions = function_names(alloc, object.functions.as_slice())?;
    let globals = global_names(alloc, object.globals.as_slice())?;
    check_module(unused, &functions, &globals, count)
}

/// Object files, which are read as all files of the compiler are.
struct ObjectFormat;

impl Format for ObjectFormat {
    type Value = Object;

    const KIND: u32 = KIND;

    ghost KIND = { kind_of_file };

    const FIRST: u32 = VERSION;

    ghost FIRST = { object_version };

    const VERSION: u32 = VERSION;

    ghost VERSION = { object_version };

    ghost fields = { λ version. fields_at };

    ghost late = { last_rules };

    fn read_parts<'a>(
        alloc: Global,
        _version: u32,
        names: &[Name],
        bytes: &'a [u8],
    ) -> Result<(Object, usize, &'a [u8]), FieldFault> {
        read_parts(alloc, names, bytes)
    }

    fn check_late(
        alloc: Global,
        names: &[Name],
        value: &Object,
        behind: usize,
        place: usize,
    ) -> Result<(), FieldFault> {
        check_last(alloc, names, value, behind, place)
    }
}

/// The object that the bytes are the file of. A fault is the first field, in order, that is short or breaks
/// its rule.
pub fn read(alloc: Global, bytes: &[u8]) -> Result<Object, FileError>
    // The bytes are the file of what is read.
    ensures found { IfOk result (λ o. IsObjectFile bytes.now o) }
    // A file of an object is read, unless memory runs out.
    ensures only { (o : AnyObject) → IsObjectFile bytes.now o → GivesFile (λ o. o) result (Ok o) }
    // Which fault it is.
    ensures exact { GivesFile (λ o. o) result (value_of (object_file_at bytes.now)) }
{
    read_value::<ObjectFormat>(alloc, bytes)
}
