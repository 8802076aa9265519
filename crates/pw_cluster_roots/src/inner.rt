//! Which functions may work for others alone.

ghost use Rattle.std.specs.Prelude.{◌≡◌, ◌↔◌, ℕ, [], length, IsTrue, IfOk};
ghost use Rattle.pw_fields.specs.FieldNames.{IsTableOf, IsRisingFrom};
ghost use Rattle.pw_fix.specs.Row.{Holds};
ghost use Rattle.pw_graph.specs.CallGraph.{Calls, Path};
ghost use Rattle.pw_graph.specs.Making.{all_taken, all_escaped};
ghost use Rattle.pw_graph.specs.Program.{IsGraphOf};
ghost use Rattle.pw_webs.specs.Walking.{Leads};
ghost use Rattle.pw_cluster_roots.specs.Inner.{all_defined, is_named as named, AreInner};

use pw_fields::names::table_of;
use pw_files::used::add_shaped;
use pw_fix::BitRow;
use pw_graph::{CallGraph, escaped_names, is_among, taken_names};
use pw_items::Items;
use pw_summary::Summary;
use pw_value::Name;
use pw_value::program_names::START;
use std::alloc::{AllocError as NoMemory, Global};

/// The names that tell which functions may work for others alone: those that modules define, and those whose address one takes.
#[derive(Drop)]
struct Known {
    defined: Vec<Name>,
    taken: Vec<Name>,
    escaped: Vec<Name>,
}

/// The functions that modules define.
fn defined_names(alloc: Global, summaries: &[Summary]) -> Result<Vec<Name>, NoMemory>
    ensures { IfOk result (λ v. IsTableOf v.items (all_defined summaries.now)) }
{
    let mut names = Vec::new(alloc);
    for each in summaries {
        add_shaped(&mut names, each.functions.as_slice())?;
    }
    table_of(alloc, names)
}

/// All these names.
fn find_known(alloc: Global, summaries: &[Summary]) -> Result<Known, NoMemory>
    ensures defined { IfOk result (λ k. IsTableOf k.defined.items (all_defined summaries.now)) }
    ensures taken { IfOk result (λ k. IsTableOf k.taken.items (all_taken summaries.now)) }
    ensures escaped { IfOk result (λ k. IsTableOf k.escaped.items (all_escaped summaries.now)) }
{
    Ok(Known {
        defined: defined_names(alloc, summaries)?,
        taken: taken_names(alloc, summaries)?,
        escaped: escaped_names(alloc, summaries)?,
    })
}

/// Whether the name allows it.
fn is_named(known: &Known, name: &Name) -> bool
    requires defined { IsRisingFrom [] known.now.defined.items }
    requires taken { IsRisingFrom [] known.now.taken.items }
    requires escaped { IsRisingFrom [] known.now.escaped.items }
    ensures { result ≡ named known.now.defined.items known.now.taken.items known.now.escaped.items name.now }
{
    name.as_bytes() != START
        && (is_among(&known.defined, name)
            && (!is_among(&known.taken, name) && !is_among(&known.escaped, name)))
}

/// Whether a function may work for others alone: somebody calls it, it does not come to call itself, and its name allows it.
fn is_inner(known: &Known, cycles: &BitRow, callers: &[u32], name: &Name, place: usize) -> bool
    requires defined { IsRisingFrom [] known.now.defined.items }
    requires taken { IsRisingFrom [] known.now.taken.items }
    requires escaped { IsRisingFrom [] known.now.escaped.items }
    ensures { IsTrue result ↔ ((¬ (callers.now ≡ [])) × (¬ Holds cycles.now place) × IsTrue (named known.now.defined.items known.now.taken.items known.now.escaped.items name.now)) }
{
    if callers.is_empty() {
        return false;
    }
    if cycles.contains(place) {
        return false;
    }
    is_named(known, name)
}

/// The functions that may work for others alone.
pub(crate) fn inner_of(
    alloc: Global,
    summaries: &[Summary],
    graph: &CallGraph,
    callers: &[Items<u32>],
    cycles: &BitRow,
) -> Result<BitRow, NoMemory>
    requires of { IsGraphOf summaries.now graph.now }
    requires count { length callers.now ≡ length graph.now.functions }
    requires callers { (a b : ℕ) → Leads callers.now a b ↔ Calls graph.now b a }
    requires cycles { (f : ℕ) → Holds cycles.now f ↔ Path graph.now f f }
    ensures { IfOk result (AreInner summaries.now graph.now) }
{
    let known = find_known(alloc, summaries)?;
    let functions = graph.functions.as_slice();
    let mut inner = BitRow::new(alloc, functions.len())?;
    for place in 0..functions.len() {
        let row = callers[place].as_slice();
        if is_inner(&known, cycles, row, &functions[place], place) {
            inner.insert(place);
        }
    }
    Ok(inner)
}
