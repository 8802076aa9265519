//! Names that are used and defined nowhere.

ghost use Rattle.std.specs.Prelude.{◌≡◌, ◌<◌, ℕ, List, [], Some, slice_get, Contains, MatchOption, IfOk};
ghost use Rattle.std.specs.Bool.{MatchBool};
ghost use Rattle.pw_fields.specs.FieldNames.{IsRisingFrom};
ghost use Rattle.pw_value.specs.ProgramNames.{IsOrdinary};
ghost use Rattle.pw_link_rules.specs.Linking.{library, all_defined, Answers};

use crate::interface::Interface;
use crate::names::{defined_names, used_names};
use pw_fields::names::{find_name, table_of};
use pw_value::program_names::is_ordinary;
use pw_value::{LinkFault, Name};
use std::alloc::Global;

/// Whether a name is defined, or `$start`.
fn is_known(name: &Name, defined: &[Name]) -> bool
    requires { IsRisingFrom [] defined.now }
    ensures { MatchBool result (IsOrdinary name.now → Contains defined.now name.now) (IsOrdinary name.now × ¬ Contains defined.now name.now) }
{
    if is_ordinary(name) {
        find_name(defined, name).is_some()
    } else {
        true
    }
}

/// The first of these names that is not known.
fn first_unknown<'a>(used: &'a [Name], defined: &[Name]) -> Option<&'a Name>
    requires { IsRisingFrom [] defined.now }
    ensures { MatchOption result ((k : ℕ) (name : List ℕ) → slice_get used.now k ≡ Some name → IsOrdinary name → Contains defined.now name) (λ name. (place : ℕ) × (slice_get used.now place ≡ Some name.now) × IsOrdinary name.now × (¬ Contains defined.now name.now) × ((k : ℕ) (other : List ℕ) → k < place → slice_get used.now k ≡ Some other → IsOrdinary other → Contains defined.now other)) }
{
    for name in used {
        if !is_known(name, defined) {
            return Some(name);
        }
    }
    None
}

/// The test that each name that is used is defined.
pub(crate) fn check_defined(
    alloc: Global,
    built_in: &Interface,
    modules: &[Interface],
) -> Result<(), LinkFault>
    requires { built_in.now ≡ library }
    ensures { Answers all_defined modules.now result }
{
    let used = table_of(alloc, used_names(alloc, modules)?)?;
    let defined = table_of(alloc, defined_names(alloc, built_in, modules)?)?;
    match first_unknown(&used, &defined) {
        Some(name) => Err(LinkFault::Undefined(name.copy(alloc)?)),
        None => Ok(()),
    }
}
