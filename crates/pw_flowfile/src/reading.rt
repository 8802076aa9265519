//! Reading a flow file.

ghost use Rattle.std.specs.Prelude.{◌≡◌, ◌+◌, ◌<◌, ◌^◌, ℕ, [], length, map, Option, IfOk, IfErr, Ok};
ghost use Rattle.std.specs.List.{flat_map};
ghost use Rattle.pw_fields.specs.Fields.{text};
ghost use Rattle.pw_fields.specs.FieldFaults.{Fails, AnswersField, GivesFile};
ghost use Rattle.pw_fields.specs.FieldFrame.{ended};
ghost use Rattle.pw_fields.specs.FieldNames.{IsRisingFrom};
ghost use Rattle.pw_files.specs.Contents.{broken_at, value_of};
ghost use Rattle.pw_flow.specs.declared.flow.FlowModule.{FlowModule as AnyModule};
ghost use Rattle.pw_flowfile.specs.FlowFile.{IsFlowFile, kind_of_file, flow_version};
ghost use Rattle.pw_flowfile.specs.Reading.{global_at, next_global, declared_at, next_declared, function_at, next_function, seen_after, list_at, parts_at, fields_at, late_rules, flow_file_at};
ghost use Rattle.pw_flowfile.specs.Marks.{Marks};

use crate::globals::{read_declared, read_globals};
use crate::graphs::read_functions;
use crate::met::unmarked;
use crate::used::used_names;
use pw_fields::names::{find_unused, read_name};
use pw_fields::{FieldFault, read_u32};
use pw_files::format::{Format, read_value};
use pw_files::late::check_module;
use pw_flow::names::{function_names, global_names};
use pw_flow::{FlowFn, FlowGlobal, FlowModule};
use pw_items::Items;
use pw_value::{FileError, Name, Shape};
use std::alloc::Global;

/// `PAWF`, the first four bytes of a flow file.
pub const KIND: u32 = 0x5041_5746;

/// The version of the form of a flow file.
pub const VERSION: u32 = 1;

/// The objects, and which names were met in them.
#[tactic(auto, unfolding(crate::specs::Reading::list_at))]
fn read_first<'a>(
    alloc: Global,
    names: &[Name],
    bytes: &'a [u8],
) -> Result<((Items<FlowGlobal>, Vec<bool>), &'a [u8]), FieldFault>
    requires { IsRisingFrom [] names.now }
    ensures found { AnswersField (λ x. (x.0.0, x.1.now)) result (list_at (global_at names.now) next_global [] bytes.now) }
    ensures marked { IfOk result (λ x. Marks names.now (seen_after [] (map (λ g. g.name) x.0.0)) x.0.1.items) }
{
    let (count, rest) = read_u32(bytes)?;
    let mut met = unmarked(alloc, names)?;
    let (globals, rest) = read_globals(alloc, names, &mut met, count, rest)?;
    Ok(((globals, met), rest))
}

/// The declared names.
#[tactic(auto, unfolding(crate::specs::Reading::list_at))]
fn read_second<'a>(
    alloc: Global,
    names: &[Name],
    bytes: &'a [u8],
) -> Result<(Items<(Name, Shape)>, &'a [u8]), FieldFault>
    requires { IsRisingFrom [] names.now }
    ensures { AnswersField (λ x. (x.0, x.1.now)) result (list_at (declared_at names.now) next_declared [] bytes.now) }
{
    let (count, rest) = read_u32(bytes)?;
    let mut met = unmarked(alloc, names)?;
    read_declared(alloc, names, &mut met, count, rest)
}

/// The functions, behind objects with these names, which were met.
#[tactic(auto, unfolding(crate::specs::Reading::list_at))]
fn read_third<'a>(
    alloc: Global,
    names: &[Name],
    globals: &[FlowGlobal],
    mut met: Vec<bool>,
    bytes: &'a [u8],
) -> Result<(Items<FlowFn>, &'a [u8]), FieldFault>
    requires rising { IsRisingFrom [] names.now }
    requires marked { Marks names.now (seen_after [] (map (λ g. g.name) globals.now)) met.items }
    ensures { AnswersField (λ x. (x.0, x.1.now)) result (list_at (function_at names.now) next_function (seen_after [] (map (λ g. g.name) globals.now)) bytes.now) }
{
    let (count, rest) = read_u32(bytes)?;
    read_functions(alloc, names, &mut met, count, rest)
}

/// The fields of a module, and how many bytes are left from the count of its functions on.
#[tactic(auto, unfolding(crate::specs::Reading::parts_at))]
fn read_parts<'a>(
    alloc: Global,
    names: &[Name],
    bytes: &'a [u8],
) -> Result<((FlowModule, usize), &'a [u8]), FieldFault>
    requires { IsRisingFrom [] names.now }
    ensures { AnswersField (λ x. (x.0, x.1.now)) result (parts_at names.now bytes.now) }
{
    let (name, rest) = read_name(names, bytes)?;
    let ((globals, met), rest) = read_first(alloc, names, rest)?;
    let (declared, behind) = read_second(alloc, names, rest)?;
    let (functions, rest) = read_third(alloc, names, globals.as_slice(), met, behind)?;
    let flow = FlowModule {
        name: name.copy(alloc)?,
        globals,
        functions,
        declared,
    };
    Ok(((flow, behind.len()), rest))
}

/// The rule that each name of the table is used, where so many bytes are left behind the table, and then
/// that on `$start`, where so many are left from the count of the functions on.
fn check_late(
    alloc: Global,
    names: &[Name],
    flow: &FlowModule,
    behind: usize,
    place: usize,
) -> Result<(), FieldFault>
    requires { length (flat_map text names.now) + behind < 2 ^ 64 }
    ensures { AnswersField (λ x. x) result (broken_at (late_rules names.now behind flow.now place)) }
{
    let used = used_names(alloc, flow)?;
    let unused = find_unused(alloc, names, used, behind)?;
    let functions = function_names(alloc, flow.functions.as_slice())?;
    let globals = global_names(alloc, flow.globals.as_slice())?;
    check_module(unused, &functions, &globals, place)
}

/// The fields of a module, how many bytes are left from the count of its functions on, and what is left behind them.
#[tactic(auto, unfolding(crate::specs::Reading::fields_at))]
fn read_fields<'a>(
    alloc: Global,
    names: &[Name],
    bytes: &'a [u8],
) -> Result<(FlowModule, usize, &'a [u8]), FieldFault>
    requires { IsRisingFrom [] names.now }
    ensures found { IfOk result (λ x. (rule : AnyModule → ℕ → Option ℕ) → fields_at names.now rule bytes.now ≡ ended (rule x.0 x.1) (record { names = names.now; value = x.0 }) x.2.now) }
    ensures fault { IfErr result (λ e. (rule : AnyModule → ℕ → Option ℕ) → Fails e (fields_at names.now rule bytes.now)) }
{
    let ((flow, place), rest) = read_parts(alloc, names, bytes)?;
    Ok((flow, place, rest))
}

/// Flow files, which are read as all files of the compiler are.
struct FlowFormat;

impl Format for FlowFormat {
    type Value = FlowModule;

    const KIND: u32 = KIND;

    ghost KIND = { kind_of_file };

    const FIRST: u32 = VERSION;

    ghost FIRST = { flow_version };

    const VERSION: u32 = VERSION;

    ghost VERSION = { flow_version };

    ghost fields = { λ version. fields_at };

    ghost late = { late_rules };

    fn read_parts<'a>(
        alloc: Global,
        _version: u32,
        names: &[Name],
        bytes: &'a [u8],
    ) -> Result<(FlowModule, usize, &'a [u8]), FieldFault> {
        read_fields(alloc, names, bytes)
    }

    fn check_late(
        alloc: Global,
        names: &[Name],
        value: &FlowModule,
        behind: usize,
        place: usize,
    ) -> Result<(), FieldFault> {
        check_late(alloc, names, value, behind, place)
    }
}

/// The flow graph that the bytes are the file of. A fault is the first field, in order, that is short or
/// breaks its rule; that each name is used and the rule on `$start` are looked at after the others, and
/// the digest last.
pub fn read(alloc: Global, bytes: &[u8]) -> Result<FlowModule, FileError>
    // What is read is lawful, and the bytes are its file.
    ensures found { IfOk result (λ m. IsFlowFile bytes.now m) }
    // A file of a flow graph is read, unless memory runs out.
    ensures only { (m : AnyModule) → IsFlowFile bytes.now m → GivesFile (λ m. m) result (Ok m) }
    // Which fault it is.
    ensures exact { GivesFile (λ m. m) result (value_of (flow_file_at bytes.now)) }
{
    read_value::<FlowFormat>(alloc, bytes)
}
