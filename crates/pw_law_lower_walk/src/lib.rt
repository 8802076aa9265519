//! Laws of lowering, without code: each operation of lowered code, by the names in the typed tree.
#![tactic(auto)]

ghost use Rattle.std.specs.Prelude.{ℕ, List};
ghost use Rattle.std.specs.List.{AllByRecursion};
ghost use Rattle.pw_types.specs.TypeTrees.{RecordValue};
ghost use Rattle.pw_types.specs.TypedTrees.{FunctionValue};
ghost use Rattle.pw_lower.specs.Modules.{lowered_function};
ghost use Rattle.pw_law_lower_walk.specs.Named.{NamesAmong, StatementAmong};

/// Where the names of objects and of functions in a function's tree are among these, so are those in its code.
pub fn each_operation()
    ensures { (objects functions : List (List ℕ)) (home : List ℕ) (records : List RecordValue) (f : FunctionValue) → StatementAmong objects functions home f.body
        → AllByRecursion (λ b. AllByRecursion (NamesAmong objects functions) b.ops) (lowered_function home records f).blocks }
{}
