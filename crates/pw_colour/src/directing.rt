//! The database of webs that have registers, and of the registers that roots save.

ghost use Rattle.std.specs.Prelude.{◌≡◌, ◌<◌, ◌^◌, if◌then◌else◌, length, map, All, IfOk};
ghost use Rattle.pw_db.specs.Database.{database_version};
ghost use Rattle.pw_db.specs.declared.database.Role.TheVariants.{Entry, Member};
ghost use Rattle.pw_colour.specs.Colours.{numbered as numbered_from, web_of as web_at, has_number, webs_of as webs_at, directives_of as directives_at};
ghost use Rattle.pw_colour.specs.Giving.{coloured as seen, paired, entries_from, AreClusters};

use pw_cluster_roots::{free, saved};
use pw_db::{Database, Directives, Role, VERSION, Web};
use pw_graph::CallGraph;
use pw_items::Items;
use pw_webs::RawWeb;
use std::alloc::{AllocError, Global};

/// A web that has a register, with its number.
#[derive(Clone, Copy)]
pub(crate) struct Coloured<'a> {
    pub id: u32,
    pub web: &'a RawWeb,
    pub reg: u8,
}

/// The webs that have a register, numbered in their order.
pub(crate) fn numbered<'a>(
    alloc: Global,
    webs: &'a [RawWeb],
    registers: &[Option<u8>],
) -> Result<Vec<Coloured<'a>>, AllocError>
    requires count { length registers.now ≡ length webs.now }
    requires few { length webs.now < 2 ^ 32 }
    ensures { IfOk result (λ v. map seen v.items ≡ numbered_from 0 (paired webs.now registers.now)) }
{
    let mut found = Vec::new(alloc);
    for i in 0..webs.len() {
        match registers[i] {
            Some(reg) => {
                let id = found.len() as u32;
                let web = &webs[i];
                found.push(Coloured { id, web, reg })?;
            }
            None => {}
        }
    }
    Ok(found)
}

/// A web as the database has it.
fn web_of(alloc: Global, graph: &CallGraph, coloured: &Coloured) -> Result<Web, AllocError>
    requires { coloured.now.web.now.global < length graph.now.globals }
    ensures { IfOk result (λ w. w ≡ web_at graph.now (seen coloured.now)) }
{
    let globals = graph.globals.as_slice();
    let global = &globals[coloured.web.global as usize];
    Ok(Web {
        id: coloured.id,
        global: global.0.copy(alloc)?,
        kind: global.1,
        reg: coloured.reg,
        writes: coloured.web.writes,
    })
}

/// What a function is in a web.
fn role_of(web: &RawWeb, place: usize) -> Role
    ensures { result ≡ (if has_number web.now.entries place then Entry else Member) }
{
    if web.entries.contains(place) {
        Role::Entry
    } else {
        Role::Member
    }
}

/// The webs of a function, in the order of their numbers.
fn webs_of(
    alloc: Global,
    graph: &CallGraph,
    coloured: &[Coloured],
    place: usize,
) -> Result<Items<(Web, Role)>, AllocError>
    requires { All (λ c. c.web.now.global < length graph.now.globals) coloured.now }
    ensures { IfOk result (λ v. v ≡ webs_at graph.now (map seen coloured.now) place) }
{
    let mut webs = Items::new(alloc);
    for each in coloured {
        if each.web.members.contains(place) {
            webs.push((web_of(alloc, graph, each)?, role_of(each.web, place)))?;
        }
    }
    Ok(webs)
}

/// Of each function the root, and of each root what the member needs that needs most.
#[derive(Clone, Copy)]
pub(crate) struct Clusters<'a> {
    pub roots: &'a [u32],
    pub needs: &'a [u8],
}

/// The directives of a function.
fn directives_of(
    alloc: Global,
    graph: &CallGraph,
    coloured: &[Coloured],
    clusters: Clusters,
    place: usize,
) -> Result<Directives, AllocError>
    requires globals { All (λ c. c.web.now.global < length graph.now.globals) coloured.now }
    requires clusters { AreClusters graph.now clusters.roots.now clusters.needs.now }
    requires place { place < length graph.now.functions }
    ensures { IfOk result (λ d. d ≡ directives_at graph.now clusters.entry.roots.now (map seen coloured.now) place) }
{
    let root = clusters.roots[place] as usize;
    let need = clusters.needs[root];
    Ok(Directives {
        webs: webs_of(alloc, graph, coloured, place)?,
        free: free(alloc, place, root, need)?,
        saves: saved(alloc, place, root, need)?,
    })
}

/// The functions whose directives say something, each with these.
pub(crate) fn database(
    alloc: Global,
    graph: &CallGraph,
    coloured: &[Coloured],
    clusters: Clusters,
) -> Result<Database, AllocError>
    requires globals { All (λ c. c.web.now.global < length graph.now.globals) coloured.now }
    requires clusters { AreClusters graph.now clusters.roots.now clusters.needs.now }
    ensures functions { IfOk result (λ db. db.functions ≡ entries_from graph.now clusters.entry.roots.now (map seen coloured.now) 0 graph.now.functions) }
    ensures version { IfOk result (λ db. db.version ≡ database_version) }
{
    let functions = graph.functions.as_slice();
    let mut entries = Items::new(alloc);
    for place in 0..functions.len() {
        let directives = directives_of(alloc, graph, coloured, clusters, place)?;
        if directives.say_something() {
            entries.push((functions[place].copy(alloc)?, directives))?;
        }
    }
    Ok(Database {
        version: VERSION,
        functions: entries,
    })
}
