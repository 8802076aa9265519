//! The connected parts of a region.

ghost use Rattle.std.specs.Prelude.{◌≡◌, ℕ, ◌+◌, ◌<◌, ◌≤◌, ◌^◌, ◌*◌, ◌++◌, ◌⊎◌, ◌↔◌, All, Contains, List, length, IfOk, OnOk, MatchOption};
ghost use Rattle.std.specs.Prelude.{pos, ◌+ℤ◌};
ghost use Rattle.std.specs.Bool.{MatchBool};
ghost use Rattle.std.specs.List.{sum_by};
ghost use Rattle.pw_fix.specs.Row.{Holds, members as numbers};
ghost use Rattle.pw_graph.specs.CallGraph.{IsGraph, Writes};
ghost use Rattle.pw_webs.specs.declared.web.RawWeb.{RawWeb as Web};
ghost use Rattle.pw_webs.specs.Webs.{Region, IsWebAt, IsNextWeb, AreWebsAt, weight, entry_cost};
ghost use Rattle.pw_webs.specs.Walking.{AreSteps, Part, AreEntries, AreNeighbours};

use crate::neighbours::Neighbours;
use crate::region::is_any_within;
use crate::walks::closure;
use crate::web::RawWeb;
use pw_fix::BitRow;
use pw_graph::{CallGraph, numbers};
use pw_items::Items;
use std::alloc::{AllocError as NoMemory, Global};

/// The functions of a region that are connected with one.
fn part(
    alloc: Global,
    both: &[Items<u32>],
    region: &BitRow,
    root: usize,
) -> Result<BitRow, NoMemory>
    requires steps { AreSteps both.now }
    requires count { region.now.len ≡ length both.now }
    requires root { Holds region.now root }
    ensures length { IfOk result (λ found. found.len ≡ region.now.len) }
    ensures holds { IfOk result (λ found. (f : ℕ) → Holds found f ↔ Part both.now region.now root f) }
{
    let mut from = BitRow::new(alloc, region.len)?;
    from.insert(root);
    closure(alloc, both, region, from)
}

/// Adds a member, where none of its callers stands in the region.
fn add_entry(found: &mut BitRow, place: usize, row: &[u32], region: &BitRow)
    requires { place < found.old.len }
    ensures length { found.new.len ≡ found.old.len }
    ensures kept { (f : ℕ) → Holds found.old f → Holds found.new f }
    ensures added { (f : ℕ) → Holds found.new f → Holds found.old f ⊎ ((f ≡ place) × ((b : ℕ) → Contains row.now b → ¬ Holds region.now b)) }
    ensures others { Holds found.new place ⊎ ((b : ℕ) × Contains row.now b × Holds region.now b) }
{
    if is_any_within(row, region) {
        return;
    }
    found.insert(place);
}

/// Those without a caller in the region.
fn entries(
    alloc: Global,
    callers: &[Items<u32>],
    region: &BitRow,
    members: &[usize],
) -> Result<BitRow, NoMemory>
    requires places { All (λ f. f < region.now.len) members.now }
    requires rows { region.now.len ≡ length callers.now }
    ensures length { IfOk result (λ found. found.len ≡ region.now.len) }
    ensures entries { IfOk result (AreEntries callers.now region.now members.now) }
{
    let mut found = BitRow::new(alloc, region.len)?;
    for place in members {
        add_entry(&mut found, *place, callers[*place].as_slice(), region);
    }
    Ok(found)
}

/// The weighted reads and weighted writes of a global in a row.
fn weights(row: &[(u32, u64, u64)], global: u32) -> (u64, u64)
    ensures { Contains row.now (global, result.0, result.1) ⊎ ((result.0 ≡ 0) × (result.1 ≡ 0) × ((reads writes : ℕ) → ¬ Contains row.now (global, reads, writes))) }
{
    for (each, reads, writes) in row {
        if *each == global {
            return (*reads, *writes);
        }
    }
    (0, 0)
}

/// Whether one of the members writes a global.
fn is_written(graph: &CallGraph, members: &[usize], global: u32) -> bool
    requires graph { IsGraph graph.now }
    requires places { All (λ f. f < length graph.now.functions) members.now }
    ensures { MatchBool result ((f : ℕ) × Contains members.now f × Writes graph.now f global) ((f : ℕ) → Contains members.now f → ¬ Writes graph.now f global) }
{
    let refs = graph.refs.as_slice();
    for place in members {
        if weights(refs[*place].as_slice(), global).1 > 0 {
            return true;
        }
    }
    false
}

/// The weights of all members together.
fn total(graph: &CallGraph, members: &[usize], global: u32) -> u64
    requires graph { IsGraph graph.now }
    requires places { All (λ f. f < length graph.now.functions) members.now }
    requires count { length members.now ≤ length graph.now.functions }
    ensures sum { result ≡ sum_by (weight graph.now global) members.now }
    ensures small { result < 2 ^ 48 }
{
    let refs = graph.refs.as_slice();
    let mut sum = 0;
    for place in members {
        let (reads, writes) = weights(refs[*place].as_slice(), global);
        sum += reads + writes;
    }
    sum
}

/// What a web saves: the weights of its members, less two for each entry where it writes, and else one.
fn saved(total: u64, writes: bool, entries: u64) -> i64
    requires total { total < 2 ^ 48 }
    requires entries { entries < 2 ^ 48 }
    ensures { result +ℤ pos (entry_cost writes * entries) ≡ pos total }
{
    if writes {
        total as i64 - (2 * entries) as i64
    } else {
        total as i64 - entries as i64
    }
}

/// The web of a global that has these members.
fn web_of(
    alloc: Global,
    graph: &CallGraph,
    beside: &Neighbours,
    global: u32,
    region: &BitRow,
    root: usize,
    members: BitRow,
) -> Result<RawWeb, NoMemory>
    requires graph { IsGraph graph.now }
    requires beside { AreNeighbours graph.now beside.now }
    requires global { global < length graph.now.globals }
    requires count { region.now.len ≡ length graph.now.functions }
    requires region { (f : ℕ) → Holds region.now f ↔ Region graph.now global f }
    requires root { Holds region.now root }
    requires places { members.len ≡ region.now.len }
    requires members { (f : ℕ) → Holds members f ↔ Part beside.now.both.items region.now root f }
    ensures web { IfOk result (IsWebAt graph.now global) }
    ensures same { IfOk result (λ w. w.members ≡ members) }
{
    let places = numbers(alloc, &members)?;
    let entries = entries(alloc, &beside.callers, region, &places)?;
    let entered = numbers(alloc, &entries)?.len();
    let writes = is_written(graph, &places, global);
    let priority = saved(total(graph, &places, global), writes, entered as u64);
    Ok(RawWeb {
        global,
        members,
        entries,
        writes,
        priority,
    })
}

/// The web of a function of the region, where it is in none that is done.
fn next_web(
    alloc: Global,
    graph: &CallGraph,
    beside: &Neighbours,
    global: u32,
    region: &BitRow,
    root: usize,
    done: &BitRow,
) -> Result<Option<RawWeb>, NoMemory>
    requires graph { IsGraph graph.now }
    requires beside { AreNeighbours graph.now beside.now }
    requires global { global < length graph.now.globals }
    requires count { region.now.len ≡ length graph.now.functions }
    requires region { (f : ℕ) → Holds region.now f ↔ Region graph.now global f }
    ensures { IfOk result (λ o. MatchOption o (Holds region.now root → Holds done.now root) (IsNextWeb graph.now global done.now root)) }
{
    if !region.contains(root) {
        return Ok(None);
    }
    if done.contains(root) {
        return Ok(None);
    }
    let members = part(alloc, &beside.both, region, root)?;
    Ok(Some(web_of(alloc, graph, beside, global, region, root, members)?))
}

/// Adds the webs of a global, by their least members.
pub(crate) fn add_webs(
    alloc: Global,
    graph: &CallGraph,
    beside: &Neighbours,
    global: u32,
    region: &BitRow,
    found: &mut Vec<RawWeb>,
) -> Result<(), NoMemory>
    requires graph { IsGraph graph.now }
    requires beside { AreNeighbours graph.now beside.now }
    requires global { global < length graph.now.globals }
    requires count { region.now.len ≡ length graph.now.functions }
    requires region { (f : ℕ) → Holds region.now f ↔ Region graph.now global f }
    ensures { OnOk result ((ws : List Web) × (found.new.items ≡ found.old.items ++ ws) × AreWebsAt graph.now global ws × (length ws ≤ length graph.now.functions)) }
{
    let mut done = BitRow::new(alloc, region.len)?;
    for root in 0..region.len {
        match next_web(alloc, graph, beside, global, region, root, &done)? {
            Some(web) => {
                done.union_with(&web.members);
                found.push(web)?;
            }
            None => {}
        }
    }
    Ok(())
}
