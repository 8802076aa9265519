//! Laws of lowering's refinement, without code: calls of functions, and the globals at each call and return.
#![tactic(auto)]

ghost use Rattle.std.specs.Prelude.{◌≡◌, ℕ, suc, List, length};
ghost use Rattle.pw_value.specs.declared.value.Value.{Value};
ghost use Rattle.pw_cmean.specs.Acts.{State};
ghost use Rattle.pw_cmean.specs.Worlds.{World, Callable};
ghost use Rattle.pw_run_languages.specs.FlowRun.{Machine};
ghost use Rattle.pw_law_source.specs.Lowering.{SameGlobals};
ghost use Rattle.pw_law_refine.specs.Lowerable.{IsLowerableWorld};
ghost use Rattle.pw_law_refine.specs.Standing.{Spot};
ghost use Rattle.pw_law_refine.specs.Activations.{graphs};
ghost use Rattle.pw_law_refine.specs.Matching.{Matches};
ghost use Rattle.pw_law_refine.specs.Calls.{FitShape, CallsKeep, FunctionsKeep};
ghost use Rattle.pw_law_refine_start.specs.Named.{IsDefinedAs};

use pw_law_refine_start::functions_are_found;
use pw_law_refine_steps::machines_step_on;

/// Where states match, each global has the same value on both sides, byte by byte and as a scalar of its kind.
pub fn moments_keep()
    ensures { (world : World) (spots : List Spot) (s : State) (m : Machine) → Matches world spots s m →
        SameGlobals (graphs world) s.objects m.objects }
{}

/// Values that fit the shape of a module's function are as many as it has parameters.
pub fn parameters_are_counted()
    ensures { (world : World) (name : List ℕ) (f : Callable) (vs : List Value) → IsLowerableWorld world →
        (defined : IsDefinedAs world name f) → FitShape f.shape vs → length vs ≡ defined.function.params }
{}

/// Calls keep their promise: at the bound 0, and at each other one where functions keep theirs at the bound below.
pub fn calls_keep()
    ensures none { CallsKeep 0 }
    ensures next { (bound : ℕ) → FunctionsKeep bound → CallsKeep (suc bound) }
{
    functions_are_found();
    machines_step_on();
}
