//! Laws of lowering, without code: the operations of a function's code name all that its tree names.
#![tactic(auto)]

ghost use Rattle.std.specs.Prelude.{ℕ, List};
ghost use Rattle.std.specs.List.{AllByRecursion};
ghost use Rattle.pw_types.specs.TypedModules.{IsFunction};
ghost use Rattle.pw_types.specs.TypedTrees.{FunctionValue, ModuleValue};
ghost use Rattle.pw_lower.specs.Modules.{lowered_function};
ghost use Rattle.pw_law_lower_walk.specs.Named.{NamesAmong, StatementAmong};

use pw_law_lower::later_code_keeps;
use pw_law_refine_code::graphs_contain_functions;

/// Where the names of objects and of functions in the code of a well-typed function are among these, so are those in its tree:
/// lowering leaves nothing out, also not what no run comes to.
pub fn operations_name_all()
    ensures { (objects functions : List (List ℕ)) (home : List ℕ) (m : ModuleValue) (f : FunctionValue) → IsFunction m f
        → AllByRecursion (λ b. AllByRecursion (NamesAmong objects functions) b.ops) (lowered_function home m.records f).blocks
        → StatementAmong objects functions home f.body }
{
    later_code_keeps();
    graphs_contain_functions();
}
