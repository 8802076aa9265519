//! The call graph of a program.

ghost use Rattle.std.specs.Prelude.{◌≡◌, ◌<◌, ◌≤◌, ◌^◌, ◌⊎◌, ℕ, [], List, length, map, All, IfOk, IfErr, OnOk};
ghost use Rattle.std.specs.List.{AllByRecursion, AllZip};
ghost use Rattle.pw_fields.specs.FieldNames.{IsRisingFrom, IsTableOf};
ghost use Rattle.pw_files.specs.Rising.{IsRising};
ghost use Rattle.pw_summary.specs.Summary.{IsSummary};
ghost use Rattle.pw_graph.specs.CallGraph.{IsGraph};
ghost use Rattle.pw_graph.specs.Making.{IsOrdered, home, scalar, target, all_homes, all_taken, all_escaped, IsCallRow, HasRefs, need_of};
ghost use Rattle.pw_graph.specs.Program.{AreLinked, AreRefused, IsGraphOf};

use crate::calls::{Target, call_rows, targets};
use crate::eligible::{Scalar, copied, eligible, escaped_names, scalar_names, taken_names};
use crate::graph::CallGraph;
use crate::homes::{Home, home_names, home_needs, sorted_homes};
use crate::references::ref_rows;
use crate::views::views;
use pw_items::Items;
use pw_link_rules::{built_in, check_program};
use pw_summary::Summary;
use pw_value::{LinkFault, Name};
use std::alloc::{AllocError, Global};

/// The graph of functions and eligible globals, row by row.
fn rows_of(
    alloc: Global,
    homes: &[Home],
    names: Vec<Name>,
    targets: &[Target],
    scalars: &[Scalar],
) -> Result<CallGraph, AllocError>
    requires few_names { length names.items ≤ 2 ^ 32 }
    requires names { IsRisingFrom [] names.items }
    requires targets { AllByRecursion (λ t. t.1 < length names.items) (map target targets.now) }
    requires few_scalars { length scalars.now ≤ 2 ^ 32 }
    requires scalars { IsRising (map (λ v. v.0) (map scalar scalars.now)) }
    ensures functions { IfOk result (λ g. g.functions ≡ names.items) }
    ensures globals { IfOk result (λ g. g.globals ≡ map scalar scalars.now) }
    ensures calls { IfOk result (λ g. AllZip (IsCallRow names.items (map target targets.now)) (map home homes.now) g.calls) }
    ensures refs { IfOk result (λ g. HasRefs (map scalar scalars.now) (map home homes.now) g.refs) }
    ensures needs { IfOk result (λ g. g.needs ≡ map (λ h. need_of h.2) (map home homes.now)) }
{
    let globals = scalar_names(alloc, scalars)?;
    let needs = home_needs(alloc, homes)?;
    let calls = call_rows(alloc, &names, targets, homes)?;
    let refs = ref_rows(alloc, &globals, homes)?;
    Ok(CallGraph {
        globals: copied(alloc, scalars)?,
        calls,
        refs,
        needs,
        functions: Items::from_vec(names),
    })
}

/// The call graph of modules that make a program, of their functions and the names whose address is taken.
fn graph_from(
    alloc: Global,
    summaries: &[Summary],
    homes: &[Home],
    taken: &[Name],
    escaped: &[Name],
) -> Result<CallGraph, AllocError>
    requires lawful { All IsSummary summaries.now }
    requires linked { AreLinked summaries.now }
    requires homes { IsOrdered (λ h. h.0) (all_homes summaries.now) (map home homes.now) }
    requires count { length (map home homes.now) ≡ length (all_homes summaries.now) }
    requires taken { IsTableOf taken.now (all_taken summaries.now) }
    requires escaped { IsTableOf escaped.now (all_escaped summaries.now) }
    ensures of { IfOk result (IsGraphOf summaries.now) }
    ensures graph { IfOk result IsGraph }
{
    let names = home_names(alloc, homes)?;
    let scalars = eligible(alloc, summaries, taken, escaped)?;
    let targets = targets(alloc, homes, taken)?;
    rows_of(alloc, homes, names, &targets, &scalars)
}

/// The call graph of modules that make a program, of their functions.
fn graph_among(
    alloc: Global,
    summaries: &[Summary],
    homes: &[Home],
) -> Result<CallGraph, AllocError>
    requires lawful { All IsSummary summaries.now }
    requires linked { AreLinked summaries.now }
    requires homes { IsOrdered (λ h. h.0) (all_homes summaries.now) (map home homes.now) }
    requires count { length (map home homes.now) ≡ length (all_homes summaries.now) }
    ensures of { IfOk result (IsGraphOf summaries.now) }
    ensures graph { IfOk result IsGraph }
{
    let taken = taken_names(alloc, summaries)?;
    let escaped = escaped_names(alloc, summaries)?;
    graph_from(alloc, summaries, homes, &taken, &escaped)
}

/// The call graph of modules that make a program.
fn graph_of(alloc: Global, summaries: &[Summary]) -> Result<CallGraph, AllocError>
    requires lawful { All IsSummary summaries.now }
    requires linked { AreLinked summaries.now }
    ensures of { IfOk result (IsGraphOf summaries.now) }
    ensures graph { IfOk result IsGraph }
{
    let library = built_in(alloc)?;
    let homes = sorted_homes(alloc, &library, summaries)?;
    graph_among(alloc, summaries, &homes)
}

/// The call graph of a program, made of the summaries of its modules; or which rule of linking they break.
pub fn build_graph(alloc: Global, summaries: &[Summary]) -> Result<CallGraph, LinkFault>
    requires { All IsSummary summaries.now }
    ensures of { IfOk result (IsGraphOf summaries.now) }
    ensures graph { IfOk result IsGraph }
    ensures linked { OnOk result (AreLinked summaries.now) }
    ensures refused { IfErr result (λ fault. (fault ≡ LinkFault.NoMemory) ⊎ AreRefused summaries.now fault) }
{
    let modules = views(alloc, summaries)?;
    check_program(alloc, &modules)?;
    Ok(graph_of(alloc, summaries)?)
}
