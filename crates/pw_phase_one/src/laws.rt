//! Laws of the first phase.

ghost use Rattle.std.specs.Prelude.{◌≡◌, ◌↔◌, ℕ, List, Err, Ok};
ghost use Rattle.pw_check_rules.specs.Checks.{Checks};
ghost use Rattle.pw_front_end.specs.Fronts.{HasTree, HoldsNoWant};
ghost use Rattle.pw_front_end.specs.declared.refusal.Refusal.{Refusal};
ghost use Rattle.pw_flow.specs.ValidFlow.{IsValid};
ghost use Rattle.pw_flow.specs.declared.flow.FlowModule.{FlowModule};
ghost use Rattle.pw_phase_one.specs.FirstPhase.{Compiles, Phase, compiled, typed_text};
ghost use Rattle.pw_lower.specs.Modules.{lowered};
ghost use Rattle.pw_tree.specs.Trees.{Module};
ghost use Rattle.pw_types.specs.TypedTrees.{ModuleValue};

use pw_check_rules::checks_is_exact;
use pw_front_end::front_is_exact;
use pw_law_valid::accepted_texts_are_lawful;

/// A module has one answer, and it is that of the function.
pub fn phase_one_is_exact()
    ensures { (name text : List ℕ) (answer : Phase) → Compiles name text answer ↔ (answer ≡ compiled name text) }
{
    front_is_exact();
    checks_is_exact();
}

/// A text has a typed tree exactly where it has a tree that checking accepts, and it is that which checking gives; its module's
/// flow graph is then that of the typed tree. A text that is refused has the refusal of its module.
pub fn typed_texts_are_exact()
    ensures exact { (text : List ℕ) (typed : ModuleValue) → (typed_text text ≡ Ok typed) ↔ ((tree : Module) × HasTree text tree × Checks tree (Ok typed)) }
    ensures lowers { (name text : List ℕ) (typed : ModuleValue) → typed_text text ≡ Ok typed → compiled name text ≡ Ok (lowered name typed) }
    ensures refused { (name text : List ℕ) (refusal : Refusal) → typed_text text ≡ Err refusal → compiled name text ≡ Err refusal }
{
    front_is_exact();
    checks_is_exact();
}

/// Where the first phase refuses a module, by the definitions alone, it tells a fault of the text: none of its
/// refusals stands for memory.
pub fn no_refusal_is_want_of_memory()
    ensures { (name text : List ℕ) (refusal : Refusal) → compiled name text ≡ Err refusal → HoldsNoWant refusal }
{
    front_is_exact();
    phase_one_is_exact();
}

/// The flow graph of a module that is accepted is lawful.
pub fn flow_graphs_are_lawful()
    ensures { (name text : List ℕ) (flow : FlowModule) → compiled name text ≡ Ok flow → IsValid flow }
{
    phase_one_is_exact();
    accepted_texts_are_lawful();
}
