//! Laws of the static semantics, without code: what checking keeps of a module beside its types, as limits, lawful
//! names and offsets that are words.

ghost use Rattle.std.specs.Prelude.{◌≡◌, ◌<◌, ◌≤◌, ℕ, All, List, Ok};
ghost use Rattle.pw_law_lower.specs.Parts.{partless};
ghost use Rattle.pw_law_lower.specs.Within.{AreLetters, AreRecordsWithin, IsCopied, IsNamed, IsWithin, KeepsLimits};
ghost use Rattle.pw_check_rules.specs.Checks.{Checks};
ghost use Rattle.pw_token.specs.Tokenization.{IsLexed};
ghost use Rattle.pw_token.specs.declared.token.Token.{Token};
ghost use Rattle.pw_tree.specs.Grammar.{IsTreeOf, spelled_all};
ghost use Rattle.pw_tree.specs.Trees.{Module};
ghost use Rattle.pw_tree.specs.WellFormed.{WellFormedModule};
ghost use Rattle.pw_tree.specs.Words.{WordsSpellModule};
ghost use Rattle.pw_types.specs.Rooms.{room_of};
ghost use Rattle.pw_types.specs.TypeTrees.{type_of};
ghost use Rattle.pw_types.specs.TypedModules.{item_size};
ghost use Rattle.pw_types.specs.TypedTrees.{ModuleValue};
ghost use Rattle.pw_value.specs.Limits.{parameter_limit, room_limit};
ghost use Rattle.pw_law_checked.specs.Bounded.{IsBoundedStatement};
ghost use Rattle.pw_law_checked.specs.Words.{AreShortStrings};
ghost use Rattle.pw_law_checked.specs.Names.{AreNumbered, HasShortStrings};

use crate::well_typed::{accepted_locals_are_objects, accepted_records_are_laid};

/// In a module that checking accepts each structure or union that is defined is copied in lawful units: its alignment is 1, 2 or 4,
/// it has a member, and it keeps the limit on sizes; the offsets of its members are words of 32 bits. One premise: the syntax tree
/// is one of C90's grammar.
pub fn accepted_records_are_within()
    ensures { (tree : Module) (m : ModuleValue) → WellFormedModule tree → Checks tree (Ok m) → AreRecordsWithin m.records }
{
    accepted_records_are_laid();
}

/// Each parameter and local of a function that checking accepts is copied in lawful units, with the same premise: no array is empty
/// (ISO C90 6.5.4.2).
pub fn accepted_locals_are_copied()
    ensures { (tree : Module) (m : ModuleValue) → WellFormedModule tree → Checks tree (Ok m)
        → All (λ f. All (λ l. IsCopied m.records (type_of l.ty)) f.locals) m.functions }
{
    accepted_locals_are_objects();
}

/// In a module that checking accepts each local that is initialised by the bytes of a hidden object has an expression of which they
/// are made, if the syntax tree is one of C90's grammar (ISO C90 6.5.7).
pub fn accepted_initialisers_have_parts()
    ensures { (tree : Module) (m : ModuleValue) → WellFormedModule tree → Checks tree (Ok m) → All (λ f. partless f.body ≡ 0) m.functions }
{}

/// Each function of a module that checking accepts has no more parameters than a function may have, and its room keeps the limit
/// (ISO C90 5.2.4.1).
pub fn accepted_functions_keep_limits()
    ensures params { (tree : Module) (m : ModuleValue) → WellFormedModule tree → Checks tree (Ok m) → All (λ f. f.params ≤ parameter_limit) m.functions }
    ensures room { (tree : Module) (m : ModuleValue) → WellFormedModule tree → Checks tree (Ok m) → All (λ f. room_of m.records f ≤ room_limit) m.functions }
{}

/// The names that a module that checking accepts shares, and those of its functions and objects, are of the bytes of identifiers
/// (ISO C90 6.1.2), if the words of the syntax tree spell what they are (as in the tree of each text) and the tree is one of C90's
/// grammar; an object without a name has a number of 32 bits, as in each module that the code makes.
pub fn accepted_names_are_identifiers()
    ensures declared { (tree : Module) (m : ModuleValue) → WellFormedModule tree → WordsSpellModule tree → Checks tree (Ok m) → All (λ d. AreLetters d.name) m.declared }
    ensures functions { (tree : Module) (m : ModuleValue) → WellFormedModule tree → WordsSpellModule tree → Checks tree (Ok m) → All (λ f. IsNamed f.name) m.functions }
    ensures objects { (tree : Module) (m : ModuleValue) → WellFormedModule tree → WordsSpellModule tree → Checks tree (Ok m) → AreNumbered m → All (λ g. IsNamed g.name) m.globals }
{}

/// No item of the first bytes of an object of a module that checking accepts is empty, with the same premise.
pub fn accepted_items_are_not_empty()
    ensures { (tree : Module) (m : ModuleValue) → WellFormedModule tree → Checks tree (Ok m)
        → All (λ g. All (λ p. 0 < item_size p.item) g.items) m.globals }
{}

/// The string literals of a text's tree are no longer than an object can be, all together, since the text is no longer.
pub fn strings_of_texts()
    ensures { (text : List ℕ) (tokens : List Token) (tree : Module) → IsLexed text tokens → IsTreeOf (spelled_all text tokens) tree → HasShortStrings tree }
{}

/// No string literal of a module that checking accepts is longer than an object can be, if those of the syntax tree are not.
pub fn accepted_strings_are_short()
    ensures { (tree : Module) (m : ModuleValue) → HasShortStrings tree → Checks tree (Ok m) → AreShortStrings m }
{}

/// In each function of a module that checking accepts the types of expressions keep the limit on sizes, and calls that on arguments
/// (ISO C90 5.2.4.1), if no string literal is longer than an object can be.
pub fn accepted_bodies_keep_limits()
    ensures { (tree : Module) (m : ModuleValue) → HasShortStrings tree → Checks tree (Ok m) → All (λ f. KeepsLimits m.records f.body) m.functions }
{}

/// Each function of a module that checking accepts keeps all that `IsBoundedStatement` says of a body, with the same premise: the limits
/// on sizes and arguments, numbers of 32 bits, and that a number which is converted to a pointer, by a cast or without one, is the
/// constant 0 (`IsNullTo`; ISO C90 6.2.2.3, 6.3.4).
pub fn accepted_bodies_are_bounded()
    ensures { (tree : Module) (m : ModuleValue) → HasShortStrings tree → Checks tree (Ok m) → All (λ f. IsBoundedStatement m.records f.body) m.functions }
{}

/// A module that checking accepts is within the limits for which its flow graph is lawful (`IsWithin`). Four premises: the syntax
/// tree is one of C90's grammar, its words spell what they are, no string literal is longer than an object can be, and an object
/// without a name has a number of 32 bits, as in each module that the code makes.
pub fn accepted_is_within()
    ensures { (tree : Module) (m : ModuleValue) → WellFormedModule tree → WordsSpellModule tree → HasShortStrings tree → Checks tree (Ok m) → AreNumbered m → IsWithin m }
{
    accepted_records_are_laid();
    accepted_locals_are_objects();
}
