//! What holds of what is known in functions. A function here does nothing: its clauses are facts about all values.

ghost use Rattle.std.specs.Prelude.{List};
ghost use Rattle.pw_flow.specs.declared.flow.Op.{Op};
ghost use Rattle.pw_flow.specs.declared.flow.FlowFn.{FlowFn};
ghost use Rattle.pw_opt_rules.specs.declared.flat.Flat.{Flat};
ghost use Rattle.pw_opt_rules.specs.Rows.{IsLeastSolution};
ghost use Rattle.pw_opt_order.specs.Rises.{Rises};

/// What is known in a function has a least solution, whatever the function is, where more that is known before an operation is
/// more that is known behind it.
pub fn solutions_exist()
    ensures { (transfer : List Flat → Op → List Flat) → Rises transfer → (f : FlowFn) → (rows : List (List Flat)) × IsLeastSolution transfer f rows }
{}
