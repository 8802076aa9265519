//! Laws of lowering, without code: what the operations of lowered code name.

ghost use Rattle.std.specs.Prelude.{ℕ, List, false};
ghost use Rattle.std.specs.List.{AllByRecursion};
ghost use Rattle.pw_types.specs.TypedModules.{IsStatement};
ghost use Rattle.pw_types.specs.TypedTrees.{FunctionValue, ModuleValue};
ghost use Rattle.pw_lower.specs.Modules.{lowered_function};
ghost use Rattle.pw_law_checked.specs.Designators.{StatementNamesObjects};
ghost use Rattle.pw_law_accept.specs.References.{RefersRightly};

/// The operations of a function whose body is a well-typed statement of the module, and in which no node that names an object which
/// all modules share has a function's type, name objects as objects and functions as functions, as the module has them.
pub fn lowered_functions_refer_rightly()
    ensures { (home : List ℕ) (m : ModuleValue) (f : FunctionValue) → IsStatement m f false false f.params f.body → StatementNamesObjects f.body
        → AllByRecursion (λ b. AllByRecursion (RefersRightly m home) b.ops) (lowered_function home m.records f).blocks }
{}
