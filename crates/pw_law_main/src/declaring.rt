//! What flow graphs of the first phase declare. A function here does nothing: its clauses are facts about all values.

ghost use Rattle.std.specs.Prelude.{◌≡◌, ℕ, List, Ok};
ghost use Rattle.pw_flow.specs.declared.flow.FlowModule.{FlowModule};
ghost use Rattle.pw_phase_one.specs.FirstPhase.{compiled};
ghost use Rattle.pw_law_shown.specs.Alike.{DeclaresMain};

use pw_check_rules::checks_is_exact;
use pw_law_checked::{accepted_functions_are_typed, accepted_names_are_declared};

/// The flow graph to which a text comes declares the `main` that it defines, with its shape, since a module that checking
/// accepts declares what it defines under an external name.
pub fn flow_graphs_declare_main()
    ensures { (name text : List ℕ) (flow : FlowModule) → compiled name text ≡ Ok flow → DeclaresMain flow }
{
    checks_is_exact();
    accepted_functions_are_typed();
    accepted_names_are_declared();
}
