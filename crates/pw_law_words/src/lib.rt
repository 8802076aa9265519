//! Laws of the static semantics, without code: numbers of 32 bits.
#![tactic(auto)]

ghost use Rattle.std.specs.Prelude.{Ok};
ghost use Rattle.pw_tree.specs.Trees.{Module};
ghost use Rattle.pw_tree.specs.WellFormed.{WellFormedModule};
ghost use Rattle.pw_types.specs.TypedModules.{WellTyped};
ghost use Rattle.pw_types.specs.TypedTrees.{ModuleValue};
ghost use Rattle.pw_check_rules.specs.Checks.{Checks};
ghost use Rattle.pw_law_checked.specs.Names.{HasShortStrings};
ghost use Rattle.pw_law_checked.specs.Words.{AreWordsInModule};

use pw_law_checked::{
    accepted_addresses_lead_inside, accepted_bodies_have_words, accepted_is_well_typed,
    accepted_objects_have_sizes, accepted_strings_are_short,
};

/// Each number of a module that checking accepts is a word of 32 bits, if no string literal is longer than an object can be: those
/// of expressions that are evaluated (ISO C90 6.1.3, 6.3, 6.5.2.2), and the offsets of addresses in the first bytes of objects
/// (6.4), which lead into what keeps the limit on sizes.
pub fn accepted_numbers_are_words()
    ensures { (tree : Module) (m : ModuleValue) → HasShortStrings tree → Checks tree (Ok m) → AreWordsInModule m }
{
    accepted_bodies_have_words();
    accepted_objects_have_sizes();
    accepted_strings_are_short();
    accepted_addresses_lead_inside();
}

/// A module that checking accepts is well typed (`WellTyped`), if its syntax tree is one of C90's grammar and no string
/// literal is longer than an object can be, as of each text.
pub fn accepted_texts_are_well_typed()
    ensures { (tree : Module) (m : ModuleValue) → WellFormedModule tree → HasShortStrings tree → Checks tree (Ok m) → WellTyped m }
{
    accepted_numbers_are_words();
    accepted_strings_are_short();
    accepted_is_well_typed();
}
