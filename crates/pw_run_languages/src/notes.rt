//! What runs below the flow graphs note (calls, returns, the traffic of globals), in definitions with their laws.

ghost use Rattle.std.specs.Prelude.{ℕ, List};
ghost use Rattle.pw_db.specs.declared.database.Directives.{Directives};
ghost use Rattle.pw_db_sound.specs.CallGraphs.{Graph, SayTheSame};
ghost use Rattle.pw_run_languages.specs.Traces.{Event};
ghost use Rattle.pw_run_languages.specs.Traffic.{ObeysTraffic};

/// Whether a trace in words obeys the law of traffic rests on what the graph says of reads, writes and eligible
/// globals alone.
pub fn traffic_rests_on_relations()
    ensures { (g h : Graph) (d : List (List ℕ × Directives)) (l : List (Event ℕ ℕ)) → SayTheSame g h → ObeysTraffic h d l → ObeysTraffic g d l }
{}
