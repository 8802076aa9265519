//! A law of lowering, without code: the flow graph of a well-typed module within the limits of checking is lawful.

ghost use Rattle.std.specs.Prelude.{ℕ, List};
ghost use Rattle.pw_flow.specs.ValidFlow.{IsValid};
ghost use Rattle.pw_lower.specs.Modules.{lowered};
ghost use Rattle.pw_law_lower.specs.Within.{IsWithin};
ghost use Rattle.pw_types.specs.TypedModules.{WellTyped};
ghost use Rattle.pw_types.specs.TypedTrees.{ModuleValue};

/// The flow graph of a well-typed module that keeps the limits of checking is lawful: no name is defined
/// or declared twice, `$start` stands exactly beside `main`, and each object and each function is lawful.
pub fn modules_are_lawful()
    ensures { (home : List ℕ) (m : ModuleValue) → WellTyped m → IsWithin m → IsValid (lowered home m) }
{}
