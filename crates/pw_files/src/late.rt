//! The rules of a file that are looked at last, where no field before the digest is faulty.

ghost use Rattle.std.specs.Prelude.{◌≡◌, ◌≢◌, ◌+◌, ◌<◌, ◌^◌, length, map, IfErr};
ghost use Rattle.std.specs.List.{flat_map};
ghost use Rattle.pw_fields.specs.Fields.{text};
ghost use Rattle.pw_fields.specs.FieldFaults.{AnswersField};
ghost use Rattle.pw_fields.specs.FieldNames.{first_unused};
ghost use Rattle.pw_files.specs.Start.{start_rule, sooner};
ghost use Rattle.pw_files.specs.Contents.{broken_at};

use pw_fields::FieldFault;
use pw_fields::names::find_unused;
use pw_value::Name;
use pw_value::program_names::is_start_kept;
use std::alloc::Global;

/// The rule that each name of the table is used, where so many bytes are left behind the table. `used` are
/// the names that are used, in whatever order and however often.
pub fn check_used(
    alloc: Global,
    names: &[Name],
    used: Vec<&Name>,
    behind: usize,
) -> Result<(), FieldFault>
    requires { length (flat_map text names.now) + behind < 2 ^ 64 }
    ensures { AnswersField (λ x. x) result (broken_at (first_unused names.now (map (λ name. name.now) used.entry.items) behind)) }
{
    match find_unused(alloc, names, used, behind)? {
        Some(left) => Err(FieldFault::Fault { left }),
        None => Ok(()),
    }
}

/// The rule of `$start`, where so many bytes are left from the count of the functions on.
fn check_start(functions: &[&Name], globals: &[&Name], count: usize) -> Result<(), FieldFault>
    ensures found { AnswersField (λ x. x) result (broken_at (start_rule (map (λ name. name.now) functions.now) (map (λ name. name.now) globals.now) count)) }
    ensures no_memory { IfErr result (λ e. e ≢ FieldFault.NoMemory) }
{
    if is_start_kept(functions, globals) {
        Ok(())
    } else {
        Err(FieldFault::Fault { left: count })
    }
}

/// The rules of a module's file: that each name of the table is used, where `unused` tells the place of the
/// first that is not, as [`find_unused`] finds it; and then that of `$start`, where so many bytes are left
/// from the count of the functions on. `functions` and `globals` are the names of the functions and of the
/// objects.
///
/// [`find_unused`]: pw_fields::names::find_unused
pub fn check_module(
    unused: Option<usize>,
    functions: &[&Name],
    globals: &[&Name],
    count: usize,
) -> Result<(), FieldFault>
    ensures found { AnswersField (λ x. x) result (broken_at (sooner unused (start_rule (map (λ name. name.now) functions.now) (map (λ name. name.now) globals.now) count))) }
    ensures no_memory { IfErr result (λ e. e ≢ FieldFault.NoMemory) }
{
    match unused {
        Some(left) => Err(FieldFault::Fault { left }),
        None => check_start(functions, globals, count),
    }
}
