//! The rules on a module's names.

ghost use Rattle.std.specs.Prelude.{◌≡◌, ◌↔◌, ◌++◌, map, IsTrue, IfOk};
ghost use Rattle.pw_value.specs.ProgramNames.{KeepsStart};
ghost use Rattle.pw_flow.specs.FlowGraph as flow_names;
ghost use Rattle.pw_flow.specs.ValidFlow.{AreDistinct, HasDistinctNames, AreNamesLawful};

use crate::distinct::are_distinct;
use pw_flow::names::{function_names, global_names};
use pw_flow::{FlowFn, FlowGlobal, FlowModule};
use pw_value::program_names::{is_start_kept, start_tests_are_the_rules};
use pw_value::{Name, Shape};
use std::alloc::{AllocError, Global};

/// Whether no two of the objects and functions, taken together, have one name.
fn are_defined_distinct(
    alloc: Global,
    globals: &[FlowGlobal],
    functions: &[FlowFn],
) -> Result<bool, AllocError>
    ensures { IfOk result (λ distinct. IsTrue distinct ↔ AreDistinct (map (λ g. g.name) globals.now ++ map (λ f. f.name) functions.now)) }
{
    let mut names = global_names(alloc, globals)?;
    let functions = function_names(alloc, functions)?;
    names.extend_from_slice(&functions)?;
    are_distinct(alloc, &names)
}

/// The names that are declared.
fn declared_names<'a>(
    alloc: Global,
    declared: &'a [(Name, Shape)],
) -> Result<Vec<&'a Name>, AllocError>
    ensures { IfOk result (λ names. map (λ name. name.now) names.items ≡ map (λ d. d.0) declared.now) }
{
    let mut names = Vec::new(alloc);
    for (name, _) in declared {
        names.push(name)?;
    }
    Ok(names)
}

/// Whether no two declared names are one.
fn are_declared_distinct(alloc: Global, declared: &[(Name, Shape)]) -> Result<bool, AllocError>
    ensures { IfOk result (λ distinct. IsTrue distinct ↔ AreDistinct (map (λ d. d.0) declared.now)) }
{
    let names = declared_names(alloc, declared)?;
    are_distinct(alloc, &names)
}

/// Whether functions and objects keep the rule of `$start`.
fn keeps_start(functions: &[&Name], globals: &[&Name]) -> bool
    ensures { IsTrue result ↔ KeepsStart (map (λ name. name.now) functions.now) (map (λ name. name.now) globals.now) }
{
    start_tests_are_the_rules();
    is_start_kept(functions, globals)
}

/// Whether names are distinct: those of what a module defines, and those that it declares.
fn has_distinct_names(alloc: Global, flow: &FlowModule) -> Result<bool, AllocError>
    ensures { IfOk result (λ distinct. IsTrue distinct ↔ HasDistinctNames flow.now) }
{
    let defined = are_defined_distinct(alloc, flow.globals.as_slice(), flow.functions.as_slice())?;
    let declared = are_declared_distinct(alloc, flow.declared.as_slice())?;
    Ok(defined && declared)
}

/// Whether a module keeps the rule of `$start`.
fn is_start_lawful(alloc: Global, flow: &FlowModule) -> Result<bool, AllocError>
    ensures { IfOk result (λ lawful. IsTrue lawful ↔ KeepsStart (flow_names.function_names flow.now) (flow_names.global_names flow.now)) }
{
    let globals = global_names(alloc, flow.globals.as_slice())?;
    let functions = function_names(alloc, flow.functions.as_slice())?;
    Ok(keeps_start(&functions, &globals))
}

/// Whether the names of what a module defines and declares are lawful.
pub fn are_names_lawful(alloc: Global, flow: &FlowModule) -> Result<bool, AllocError>
    ensures { IfOk result (λ lawful. IsTrue lawful ↔ AreNamesLawful flow.now) }
{
    let distinct = has_distinct_names(alloc, flow)?;
    let start = is_start_lawful(alloc, flow)?;
    Ok(distinct && start)
}
