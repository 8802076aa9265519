//! The laws of databases.

ghost use Rattle.std.specs.Prelude.{◌≡◌, ◌≤◌, ℕ, List, All};
ghost use Rattle.pw_db.specs.declared.database.Directives.{Directives};
ghost use Rattle.pw_db.specs.Database.{IsDatabase};
ghost use Rattle.pw_summary.specs.declared.summary.Summary.{Summary};
ghost use Rattle.pw_summary.specs.Summary.{IsSummary};
ghost use Rattle.pw_graph.specs.declared.graph.CallGraph.{CallGraph};
ghost use Rattle.pw_graph.specs.Program.{IsGraphOf};
ghost use Rattle.pw_db_sound.specs.CallGraphs.{Graph};
ghost use Rattle.pw_db_sound.specs.Sound.{Sound};
ghost use Rattle.pw_colour.specs.Colours.{IsDatabaseOf};
ghost use Rattle.pw_clusters.specs.ByName.{IsNamed};
ghost use Rattle.pw_clusters.specs.Naming.{TellsMovable};
ghost use Rattle.pw_db.specs.Limits.{colour_limit, register_count};

use pw_clusters::laws::{
    few_registers_are_saved, free_registers_are_saved_above, free_registers_are_saved_by_name,
    roots_are_one,
};

/// Summaries have at most one database for so many registers.
pub fn databases_are_one()
    ensures { (ss : List Summary) (colours : ℕ) (d e : List (List ℕ × Directives)) → IsDatabaseOf ss colours d → IsDatabaseOf ss colours e → d ≡ e }
{
    roots_are_one();
}

/// The database of summaries keeps the rules of databases, for no more registers than a callee keeps.
pub fn databases_are_lawful()
    ensures { (ss : List Summary) (colours : ℕ) (d : List (List ℕ × Directives)) → colours ≤ register_count → All IsSummary ss → IsDatabaseOf ss colours d → IsDatabase d }
{
    few_registers_are_saved();
}

/// The database of summaries is sound for the call graph that they make, said by names, where that tells as they do which
/// functions may be moved; for no more registers than webs may have, since behind these stand those that roots save.
pub fn databases_are_sound()
    ensures { (ss : List Summary) (colours : ℕ) (d : List (List ℕ × Directives)) (g : CallGraph) (n : Graph) → colours ≤ colour_limit → All IsSummary ss → IsDatabaseOf ss colours d → IsGraphOf ss g → IsNamed g n → TellsMovable ss n → Sound n d }
{
    free_registers_are_saved_above();
    free_registers_are_saved_by_name();
}
