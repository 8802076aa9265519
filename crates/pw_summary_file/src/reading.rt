//! Reading a summary file.

ghost use Rattle.std.specs.Prelude.{◌≡◌, ◌+◌, ◌<◌, ◌^◌, ℕ, Option, length, IfOk, IfErr, Ok};
ghost use Rattle.std.specs.List.{flat_map};
ghost use Rattle.pw_fields.specs.Fields.{text};
ghost use Rattle.pw_fields.specs.FieldFaults.{AnswersField, GivesFile, Fails};
ghost use Rattle.pw_fields.specs.FieldFrame.{ended};
ghost use Rattle.pw_files.specs.Contents.{broken_at, value_of};
ghost use Rattle.pw_summary.specs.declared.summary.Summary.{Summary as AnySummary};
ghost use Rattle.pw_summary.specs.Summary.{kind as kind_of_file, first_version, summary_version, IsSummary, IsVersioned};
ghost use Rattle.pw_summary_file.specs.Spelling.{IsSummaryFile};
ghost use Rattle.pw_summary_file.specs.Reading.{defined_at, used_at, last_rules, fields_at, summary_file_at};

use crate::names::{function_names, global_names, used_names};
use pw_fields::FieldFault;
use pw_fields::names::{find_unused, read_name};
use pw_files::format::{Format, read_value};
use pw_files::late::check_module;
use pw_files::lists::{read_name_list, read_shaped_list};
use pw_summary::{Defined, FIRST, KIND, Summary, Used, VERSION, summary_of};
use pw_summary_parts::{read_all_uses, read_global_list};
use pw_value::program_names::StartName;
use pw_value::{FileError, Name};
use std::alloc::Global;

/// What the module defines and declares, and how many bytes are left from the count of its functions on.
#[tactic(auto, unfolding(crate::specs::Reading::defined_at))]
fn read_defined<'a>(
    alloc: Global,
    names: &[Name],
    bytes: &'a [u8],
) -> Result<((Defined, usize), &'a [u8]), FieldFault>
    ensures { AnswersField (λ x. (x.0, x.1.now)) result (defined_at names.now bytes.now) }
{
    let (globals, count) = read_global_list(alloc, names, bytes)?;
    let (functions, rest) = read_shaped_list(alloc, names, StartName::Allowed, count)?;
    let (declared, rest) = read_shaped_list(alloc, names, StartName::Allowed, rest)?;
    let defined = Defined {
        globals,
        functions,
        declared,
    };
    Ok(((defined, count.len()), rest))
}

/// What the module uses, which defines so many functions.
#[tactic(auto, unfolding(crate::specs::Reading::used_at))]
fn read_used<'a>(
    alloc: Global,
    version: u32,
    names: &[Name],
    functions: usize,
    bytes: &'a [u8],
) -> Result<(Used, &'a [u8]), FieldFault>
    ensures { AnswersField (λ x. (x.0, x.1.now)) result (used_at version names.now functions bytes.now) }
{
    let (used, rest) = read_name_list(alloc, names, StartName::Allowed, bytes)?;
    let (taken, rest) = read_shaped_list(alloc, names, StartName::Refused, rest)?;
    let (escaped, rest) = read_name_list(alloc, names, StartName::Allowed, rest)?;
    let (uses, rest) = read_all_uses(alloc, version, names, functions, rest)?;
    let used = Used {
        used,
        taken,
        escaped,
        uses,
    };
    Ok((used, rest))
}

/// The fields of the summary, behind the table of names: the summary, how many bytes are left from the
/// count of its functions on, and what is left behind it.
fn read_parts<'a>(
    alloc: Global,
    version: u32,
    names: &[Name],
    bytes: &'a [u8],
) -> Result<(Summary, usize, &'a [u8]), FieldFault>
    ensures found { IfOk result (λ x. (late : AnySummary → ℕ → Option ℕ) → fields_at version names.now late bytes.now ≡ ended (late x.0 x.1) (record { names = names.now; value = x.0 }) x.2.now) }
    ensures fault { IfErr result (λ e. (late : AnySummary → ℕ → Option ℕ) → Fails e (fields_at version names.now late bytes.now)) }
{
    let (module, rest) = read_name(names, bytes)?;
    let ((defined, count), rest) = read_defined(alloc, names, rest)?;
    let (used, rest) = read_used(alloc, version, names, defined.functions.len(), rest)?;
    let name = module.copy(alloc)?;
    Ok((summary_of(version, name, defined, used), count, rest))
}

/// The rules that are looked at last: each name of the table is used, where so many bytes are left behind
/// the table; and `$start` stands beside `main` and is no global, where so many are left from the count of
/// the functions on.
fn check_last(
    alloc: Global,
    names: &[Name],
    summary: &Summary,
    behind: usize,
    count: usize,
) -> Result<(), FieldFault>
    requires { length (flat_map text names.now) + behind < 2 ^ 64 }
    ensures { AnswersField (λ x. x) result (broken_at (last_rules names.now behind summary.now count)) }
{
    let used = used_names(alloc, summary)?;
    let unused = find_unused(alloc, names, used, behind)?;
    let functions = function_names(alloc, summary.functions.as_slice())?;
    let globals = global_names(alloc, summary.globals.as_slice())?;
    check_module(unused, &functions, &globals, count)
}

/// Summary files, which are read as all files of the compiler are.
struct SummaryFormat;

impl Format for SummaryFormat {
    type Value = Summary;

    const KIND: u32 = KIND;

    ghost KIND = { kind_of_file };

    const FIRST: u32 = FIRST;

    ghost FIRST = { first_version };

    const VERSION: u32 = VERSION;

    ghost VERSION = { summary_version };

    ghost fields = { fields_at };

    ghost late = { last_rules };

    fn read_parts<'a>(
        alloc: Global,
        version: u32,
        names: &[Name],
        bytes: &'a [u8],
    ) -> Result<(Summary, usize, &'a [u8]), FieldFault> {
        read_parts(alloc, version, names, bytes)
    }

    fn check_late(
        alloc: Global,
        names: &[Name],
        value: &Summary,
        behind: usize,
        place: usize,
    ) -> Result<(), FieldFault> {
        check_last(alloc, names, value, behind, place)
    }
}

/// The summary that the bytes are the file of. A fault is the first field, in order, that is short or
/// breaks its rule.
pub fn read(alloc: Global, bytes: &[u8]) -> Result<Summary, FileError>
    // The bytes are the file of what is read.
    ensures found { IfOk result (λ s. IsSummaryFile bytes.now s) }
    // A file of a summary is read, unless memory runs out.
    ensures only { (s : AnySummary) → IsSummaryFile bytes.now s → GivesFile (λ s. s) result (Ok s) }
    // Which fault it is.
    ensures exact { GivesFile (λ s. s) result (value_of (summary_file_at bytes.now)) }
    ensures lawful { IfOk result (λ s. IsSummary s) }
    ensures versioned { IfOk result (λ s. IsVersioned s) }
{
    read_value::<SummaryFormat>(alloc, bytes)
}
