//! All webs of a program.

ghost use Rattle.std.specs.Prelude.{◌≡◌, ◌≤◌, ◌*◌, ◌↔◌, length, IsTrue, IfOk};
ghost use Rattle.pw_graph.specs.CallGraph.{IsGraph, AreRefSets};
ghost use Rattle.pw_webs.specs.Webs.{AreWebs, IsSameWeb, Interfere};

use crate::neighbours::neighbours_of;
use crate::parts::add_webs;
use crate::region::region;
use crate::web::RawWeb;
use pw_graph::{CallGraph, RefSets};
use std::alloc::{AllocError as NoMemory, Global};

/// The webs of a program, by their globals and then by their least members.
pub fn webs(alloc: Global, graph: &CallGraph, sets: &RefSets) -> Result<Vec<RawWeb>, NoMemory>
    requires graph { IsGraph graph.now }
    requires sets { AreRefSets graph.now sets.now }
    ensures webs { IfOk result (λ v. AreWebs graph.now v.items) }
    ensures count { IfOk result (λ v. length v.items ≤ length graph.now.globals * length graph.now.functions) }
{
    let beside = neighbours_of(alloc, graph)?;
    let mut found = Vec::new(alloc);
    for global in 0..graph.globals.len() {
        let set = region(alloc, graph, &beside, sets, global)?;
        add_webs(alloc, graph, &beside, global as u32, &set, &mut found)?;
    }
    Ok(found)
}

/// Whether two webs are the same.
fn is_same(a: &RawWeb, b: &RawWeb) -> bool
    requires { a.now.members.len ≡ b.now.members.len }
    ensures { IsTrue result ↔ IsSameWeb a.now b.now }
{
    a.global == b.global && a.members.is_subset(&b.members) && b.members.is_subset(&a.members)
}

/// Whether two webs share a function and are not the same.
pub fn interfere(a: &RawWeb, b: &RawWeb) -> bool
    requires { a.now.members.len ≡ b.now.members.len }
    ensures { IsTrue result ↔ Interfere a.now b.now }
{
    a.members.intersects(&b.members) && !is_same(a, b)
}
