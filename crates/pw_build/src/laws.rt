//! Laws of builds. A function here does nothing: its clauses are facts about all values.

ghost use Rattle.std.specs.Prelude.{◌≡◌, ◌≤◌, ℕ, List, [], Option, Result, map};
ghost use Rattle.std.specs.List.{AllByRecursion};
ghost use Rattle.pw_store_modules.specs.Modules.{Source};
ghost use Rattle.pw_object.specs.declared.object.Object.{Object};
ghost use Rattle.pw_build_objects.specs.Programs.{Parts};
ghost use Rattle.pw_build_objects.specs.Kept.{IsGenuineIfKept};
ghost use Rattle.pw_build.specs.declared.fault.BuildFault.{BuildFault};
ghost use Rattle.pw_build.specs.Builds.{Builds, BuildsAnew};
ghost use Rattle.pw_build.specs.Full.{built_anew};
ghost use Rattle.pw_db.specs.Limits.{colour_limit};
ghost use Rattle.pw_build_opts.specs.declared.opts.Opts.{Opts};

use pw_build_objects::laws::{flow_graphs_have_one_answer, genuine_objects_change_nothing};

/// Modules and what was kept of them come to one answer, and so many objects of theirs are made anew.
pub fn modules_have_one_build()
    ensures answer { (sources : List Source) (kept : List (Option Object)) (opts : Opts) (a b : Result Parts BuildFault) → opts.colours ≤ colour_limit → Builds sources kept opts a → Builds sources kept opts b → a ≡ b }
    ensures count { (sources : List Source) (kept : List (Option Object)) (opts : Opts) (made other : ℕ) → opts.colours ≤ colour_limit → BuildsAnew sources kept opts made → BuildsAnew sources kept opts other → made ≡ other }
{
    flow_graphs_have_one_answer();
}

/// Where the second phase made what was kept, the answer is that of the full build, in which all objects are made anew.
pub fn genuine_objects_give_the_full_build()
    ensures { (sources : List Source) (kept : List (Option Object)) (opts : Opts) (a : Result Parts BuildFault) → AllByRecursion IsGenuineIfKept kept → Builds sources kept opts a → Builds sources [] opts (built_anew a) }
{
    genuine_objects_change_nothing();
}
