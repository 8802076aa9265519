//! The law of webs.

ghost use Rattle.std.specs.Prelude.{ℕ, List};
ghost use Rattle.pw_graph.specs.declared.graph.CallGraph.{CallGraph};
ghost use Rattle.pw_webs.specs.Webs.{IsWeb, IsClosed};

/// Calls come into a web by its entries alone, and no path leads out of it to a function that refers to the
/// global, or back into it.
pub fn webs_are_closed()
    ensures { (g : CallGraph) (v : ℕ) (members entries : List ℕ) → IsWeb g v members entries → IsClosed g v members entries }
{}
