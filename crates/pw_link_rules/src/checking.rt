//! When modules make a program.

ghost use Rattle.std.specs.Prelude.{◌≡◌, ◌≢◌, ◌⊎◌, OnOk, IfErr};
ghost use Rattle.pw_link_rules.specs.Linking.{library, Links, Refusal, Answers, AnswersUpTo, Passed, few_functions, few_globals, has_main};

use crate::conflicts::check_shapes;
use crate::duplicates::check_once;
use crate::interface::Interface;
use crate::library::built_in;
use crate::mains::is_main_anywhere;
use crate::names::{count_functions, count_globals};
use crate::undefined::check_defined;
use pw_value::limits::{FUNCTION_LIMIT, GLOBAL_LIMIT};
use pw_value::{LinkFault, What};
use std::alloc::Global;

/// The test of the count of functions.
fn check_functions(modules: &[Interface]) -> Result<(), LinkFault>
    ensures answers { Answers few_functions modules.now result }
    ensures no_memory { IfErr result (λ fault. fault ≢ LinkFault.NoMemory) }
{
    let count = count_functions(modules);
    if count > FUNCTION_LIMIT {
        return Err(LinkFault::TooMany(What::Functions, count));
    }
    Ok(())
}

/// The test of the count of objects.
fn check_globals(modules: &[Interface]) -> Result<(), LinkFault>
    ensures answers { Answers few_globals modules.now result }
    ensures no_memory { IfErr result (λ fault. fault ≢ LinkFault.NoMemory) }
{
    let count = count_globals(modules);
    if count > GLOBAL_LIMIT {
        return Err(LinkFault::TooMany(What::Globals, count));
    }
    Ok(())
}

/// The tests of the counts.
fn check_counts(modules: &[Interface]) -> Result<(), LinkFault>
    ensures answers { AnswersUpTo 2 modules.now result }
    ensures no_memory { IfErr result (λ fault. fault ≢ LinkFault.NoMemory) }
{
    check_functions(modules)?;
    check_globals(modules)
}

/// The tests of the names, which stand behind those of the counts; `own` is the library.
fn check_names(alloc: Global, own: &Interface, modules: &[Interface]) -> Result<(), LinkFault>
    requires library { own.now ≡ library }
    requires counts { Passed 2 modules.now }
    ensures { AnswersUpTo 5 modules.now result }
{
    check_defined(alloc, own, modules)?;
    check_once(alloc, own, modules)?;
    check_shapes(alloc, own, modules)
}

/// The test that there is a `main`.
fn check_main(modules: &[Interface]) -> Result<(), LinkFault>
    ensures answers { Answers has_main modules.now result }
    ensures no_memory { IfErr result (λ fault. fault ≢ LinkFault.NoMemory) }
{
    if is_main_anywhere(modules) {
        Ok(())
    } else {
        Err(LinkFault::NoMain)
    }
}

/// Whether modules make a program, the library being one more. It is told which of the rules is broken
/// first, and where; for want of memory nothing is told.
pub fn check_program(alloc: Global, modules: &[Interface]) -> Result<(), LinkFault>
    ensures links { OnOk result (Links modules.now) }
    ensures refused { IfErr result (λ fault. (fault ≡ LinkFault.NoMemory) ⊎ Refusal modules.now fault) }
{
    check_counts(modules)?;
    let own = built_in(alloc)?;
    check_names(alloc, &own, modules)?;
    check_main(modules)
}
