//! The laws of the second phase.

ghost use Rattle.std.specs.Prelude.{◌≡◌, ℕ, List};
ghost use Rattle.pw_flow.specs.declared.flow.FlowModule.{FlowModule};
ghost use Rattle.pw_db.specs.declared.database.Directives.{Directives};
ghost use Rattle.pw_object.specs.declared.object.Object.{Object};
ghost use Rattle.pw_phase_two.specs.Phases.{IsObjectOf};

use pw_db_file::laws::one_list_is_stored;
use pw_flowfile::laws::flow_graphs_and_files_are_one_to_one;

/// A module has one object under its directives.
pub fn a_module_has_one_object()
    ensures { (m : FlowModule) (ds : List (List ℕ × Directives)) (o p : Object) → IsObjectOf m ds o → IsObjectOf m ds p → o ≡ p }
{
    flow_graphs_and_files_are_one_to_one();
    one_list_is_stored();
}
