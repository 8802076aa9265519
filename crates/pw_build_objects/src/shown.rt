//! What kept objects show to linking beside what their modules do. Anybody may have written a kept object; but where each
//! shows what its module does, the rules of linking, which the modules' summaries keep, need not be looked at again.

ghost use Rattle.std.specs.Prelude.{◌≡◌, ◌++◌, ◌⊎◌, ℕ, List, Contains, IfOk, IsTrue, OnOk, map};
ghost use Rattle.std.specs.List.{flat_map};
ghost use Rattle.pw_link_interface.specs.Interface.{names_of_fixes};
ghost use Rattle.pw_law_shown.specs.Alike.{ShowsModule, globals_of, named_by};
ghost use Rattle.pw_build_objects.specs.Showing.{ShowWhereKept, ShowsIfKept};

use pw_flow::FlowModule;
use pw_flow::names::{add_items_of_all, function_names, global_names};
use pw_object::{Object, ObjectFn, add_fixes};
use pw_summary::Summary;
use pw_value::{Name, Shape};
use std::alloc::{AllocError, Global};
use std::collections::VecDeque;

/// Adds the names of global objects of a module.
fn add_globals<'a>(names: &mut Vec<&'a Name>, flow: &'a FlowModule) -> Result<(), AllocError>
    ensures { OnOk result (map (λ name. name.now) names.new.items ≡ map (λ name. name.now) names.old.items ++ map (λ g. g.name) flow.now.globals) }
{
    for global in flow.globals.as_slice() {
        names.push(&global.name)?;
    }
    Ok(())
}

/// The names of the global objects that the modules of a program define, in byte order.
fn globals_of(alloc: Global, flows: &[FlowModule]) -> Result<Vec<&Name>, AllocError>
    ensures { IfOk result (λ names. (n : List ℕ) → Contains (map (λ name. name.now) names.items) n → Contains (globals_of flows.now) n) }
{
    let mut names = Vec::new(alloc);
    for flow in flows {
        add_globals(&mut names, flow)?;
    }
    names.sort_unstable();
    Ok(names)
}

/// The names of functions as words.
fn names_of_functions(alloc: Global, functions: &[ObjectFn]) -> Result<Vec<&Name>, AllocError>
    ensures { IfOk result (λ names. map (λ name. name.now) names.items ≡ map (λ f. f.name) functions.now) }
{
    let mut names = Vec::new(alloc);
    for function in functions {
        names.push(&function.name)?;
    }
    Ok(names)
}

/// Adds the names in relocations of functions.
fn add_code<'a>(names: &mut Vec<&'a Name>, functions: &'a [ObjectFn]) -> Result<(), AllocError>
    ensures { OnOk result (map (λ name. name.now) names.new.items ≡ map (λ name. name.now) names.old.items ++ flat_map names_of_fixes functions.now) }
{
    for function in functions {
        add_fixes(names, function.fixes.as_slice())?;
    }
    Ok(())
}

/// The names in the items of an object's globals, and in the relocations of its words.
fn named_by(alloc: Global, object: &Object) -> Result<Vec<&Name>, AllocError>
    ensures { IfOk result (λ names. map (λ name. name.now) names.items ≡ named_by object.now) }
{
    let mut names = Vec::new(alloc);
    add_items_of_all(&mut names, object.globals.as_slice())?;
    add_code(&mut names, object.functions.as_slice())?;
    Ok(names)
}

/// Whether names are the same, in the same order.
fn are_same_names(names: &[&Name], others: &[&Name]) -> bool
    ensures { IsTrue result → map (λ name. name.now) names.now ≡ map (λ name. name.now) others.now }
{
    names == others
}

/// Whether lists of names are the same.
fn are_same_lists(names: &[Name], others: &[Name]) -> bool
    ensures { IsTrue result → names.now ≡ others.now }
{
    names == others
}

/// Whether declarations are the same.
fn are_same_declarations(declared: &[(Name, Shape)], others: &[(Name, Shape)]) -> bool
    ensures { IsTrue result → declared.now ≡ others.now }
{
    declared == others
}

/// Whether a name is found among those that a summary lists, or else among the globals of the program.
fn is_known(name: &Name, used: &[Name], globals: &[&Name]) -> bool
    ensures { IsTrue result → Contains used.now name.now ⊎ Contains (map (λ global. global.now) globals.now) name.now }
{
    used.binary_search(name).is_ok() || globals.binary_search(&name).is_ok()
}

/// Whether each name is known.
fn are_known(names: &[&Name], used: &[Name], globals: &[&Name]) -> bool
    ensures { IsTrue result → (n : List ℕ) → Contains (map (λ name. name.now) names.now) n → Contains used.now n ⊎ Contains (map (λ global. global.now) globals.now) n }
{
    for name in names {
        if !is_known(name, used, globals) {
            return false;
        }
    }
    true
}

/// Whether an object defines what its module does.
fn defines_module(alloc: Global, flow: &FlowModule, object: &Object) -> Result<bool, AllocError>
    ensures functions { IfOk result (λ same. IsTrue same → map (λ f. f.name) object.now.functions ≡ map (λ f. f.name) flow.now.functions) }
    ensures globals { IfOk result (λ same. IsTrue same → map (λ g. g.name) object.now.globals ≡ map (λ g. g.name) flow.now.globals) }
{
    let functions = names_of_functions(alloc, object.functions.as_slice())?;
    let own_functions = function_names(alloc, flow.functions.as_slice())?;
    let globals = global_names(alloc, object.globals.as_slice())?;
    let own_globals = global_names(alloc, flow.globals.as_slice())?;
    Ok(are_same_names(&functions, &own_functions) && are_same_names(&globals, &own_globals))
}

/// Whether an object is of the module of a flow graph.
fn is_of(flow: &FlowModule, object: &Object) -> bool
    ensures { IsTrue result → object.now.module ≡ flow.now.name }
{
    object.module == flow.name
}

/// Whether an object lists what a summary does.
fn lists_as(summary: &Summary, object: &Object) -> bool
    ensures declared { IsTrue result → object.now.declared ≡ summary.now.declared }
    ensures used { IsTrue result → object.now.used ≡ summary.now.used }
{
    are_same_declarations(object.declared.as_slice(), summary.declared.as_slice())
        && are_same_lists(object.used.as_slice(), summary.used.as_slice())
}

/// Whether an object shows what its module does, which has this summary; `globals` are those of the program.
fn shows_module(
    alloc: Global,
    program: &[FlowModule],
    globals: &[&Name],
    flow: &FlowModule,
    summary: &Summary,
    object: &Object,
) -> Result<bool, AllocError>
    requires { (n : List ℕ) → Contains (map (λ global. global.now) globals.now) n → Contains (globals_of program.now) n }
    ensures { IfOk result (λ shows. IsTrue shows → ShowsModule program.now flow.now summary.now object.now) }
{
    if !is_of(flow, object) {
        return Ok(false);
    }
    if !lists_as(summary, object) {
        return Ok(false);
    }
    let same = defines_module(alloc, flow, object)?;
    if !same {
        return Ok(false);
    }
    let named = named_by(alloc, object)?;
    Ok(are_known(&named, summary.used.as_slice(), globals))
}

/// Whether what was kept of a module, if anything was, shows what the module does.
fn shows_if_kept(
    alloc: Global,
    program: &[FlowModule],
    globals: &[&Name],
    flow: &FlowModule,
    summary: &Summary,
    old: &Option<Object>,
) -> Result<bool, AllocError>
    requires { (n : List ℕ) → Contains (map (λ global. global.now) globals.now) n → Contains (globals_of program.now) n }
    ensures { IfOk result (λ shows. IsTrue shows → ShowsIfKept program.now old.now flow.now summary.now) }
{
    match old {
        Some(object) => shows_module(alloc, program, globals, flow, summary, object),
        None => Ok(true),
    }
}

/// Whether each of what was kept of modules shows what its module does, as far as there are modules; `globals` are those of the
/// program.
fn show_each(
    alloc: Global,
    program: &[FlowModule],
    globals: &[&Name],
    flows: &[FlowModule],
    summaries: &[Summary],
    kept: &[Option<Object>],
) -> Result<bool, AllocError>
    requires { (n : List ℕ) → Contains (map (λ global. global.now) globals.now) n → Contains (globals_of program.now) n }
    ensures { IfOk result (λ show. IsTrue show → ShowWhereKept program.now kept.now flows.now summaries.now) }
{
    let mut modules = flows;
    let mut rest = summaries;
    let mut left = kept;
    while let [old, more @ ..] = left {
        let [flow, flows_behind @ ..] = modules else {
            return Ok(true);
        };
        let [summary, behind @ ..] = rest else {
            return Ok(true);
        };
        if !shows_if_kept(alloc, program, globals, flow, summary, old)? {
            return Ok(false);
        }
        modules = flows_behind;
        rest = behind;
        left = more;
    }
    Ok(true)
}

/// Whether what was kept of modules shows what the modules do, which have these summaries; it is seen where the queue of it lies
/// in one piece, as one does to which nothing was added in front.
fn show_where_kept(
    alloc: Global,
    flows: &[FlowModule],
    summaries: &[Summary],
    kept: &VecDeque<Option<Object>>,
) -> Result<bool, AllocError>
    ensures { IfOk result (λ show. IsTrue show → ShowWhereKept flows.now kept.now.items flows.now summaries.now) }
{
    let (front, behind) = kept.as_slices();
    if !behind.is_empty() {
        return Ok(false);
    }
    let globals = globals_of(alloc, flows)?;
    show_each(alloc, flows, &globals, flows, summaries, front)
}

/// Whether what was kept of modules is seen to show what the modules do, which have these summaries: for want of memory it is
/// not seen.
pub fn show_no_more(
    alloc: Global,
    flows: &[FlowModule],
    summaries: &[Summary],
    kept: &VecDeque<Option<Object>>,
) -> bool
    ensures { IsTrue result → ShowWhereKept flows.now kept.now.items flows.now summaries.now }
{
    match show_where_kept(alloc, flows, summaries, kept) {
        Ok(show) => show,
        Err(AllocError) => false,
    }
}
