//! Laws of the checker's answer, the contracts of functions that no program calls: the typed tree that it gives is well
//! typed, and its numbers are words of 32 bits.
#![tactic(auto)]

mod numbers;

ghost use Rattle.std.specs.Prelude.{Ok};
ghost use Rattle.pw_check_rules.specs.Checks.{Checks};
ghost use Rattle.pw_tree.specs.Views.{view_module};
ghost use Rattle.pw_tree.specs.WellFormed.{WellFormedModule};
ghost use Rattle.pw_typed.specs.Views as typed;
ghost use Rattle.pw_types.specs.TypedModules.{WellTyped};
ghost use Rattle.pw_law_checked.specs.Words.{AreShortStrings};

pub use numbers::numbers_are_words;
use pw_law_checked::accepted_is_well_typed;
use pw_tree::Module;
use pw_typed::TModule;

/// A typed tree that the rules give for a syntax tree, as `check` of pw_check says of its answer, is well typed, if the syntax tree
/// is one of C90's grammar and no string literal is longer than an object can be. It is a law: it does nothing but go through the
/// typed tree.
pub fn typed_tree_is_well_typed(tree: &Module, made: &TModule)
    ensures { WellFormedModule (view_module tree.now) → Checks (view_module tree.now) (Ok (typed.view_module made.now))
        → AreShortStrings (typed.view_module made.now) → WellTyped (typed.view_module made.now) }
{
    numbers_are_words(made);
    accepted_is_well_typed();
}
