//! What optimisation asks for, there is. A function here does nothing: its clauses are facts about all values.

ghost use Rattle.pw_flow.specs.declared.flow.FlowModule.{FlowModule};
ghost use Rattle.pw_opt_rules.specs.Optimised.{IsOptimisedModule};

use pw_opt_order::transfers_rise;
use pw_opt_rows::solutions_exist;

/// Each module has an optimised form: what is known in a function has a least solution, whatever the function is.
pub fn modules_have_optimised_forms()
    ensures { (m : FlowModule) → (n : FlowModule) × IsOptimisedModule m n }
{
    transfers_rise();
    solutions_exist();
}
