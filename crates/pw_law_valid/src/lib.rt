//! Laws of accepted texts, without code: the objects without a name are no more than the tokens, and flow graphs are
//! lawful.
#![tactic(auto)]

ghost use Rattle.std.specs.Prelude.{ℕ, ◌≤◌, List, length, All, Ok};
ghost use Rattle.pw_token.specs.Limits.{token_limit};
ghost use Rattle.pw_token.specs.Tokenization.{IsLexed};
ghost use Rattle.pw_token.specs.declared.token.Token.{Token};
ghost use Rattle.pw_tree.specs.Grammar.{IsTreeOf, spelled_all};
ghost use Rattle.pw_tree.specs.Spelling.{symbols};
ghost use Rattle.pw_tree.specs.Trees.{Module};
ghost use Rattle.pw_types.specs.TypedTrees.{ModuleValue};
ghost use Rattle.pw_flow.specs.ValidFlow.{IsValid};
ghost use Rattle.pw_lower.specs.Modules.{lowered};
ghost use Rattle.pw_check_rules.specs.Checks.{Checks};
ghost use Rattle.pw_law_checked.specs.Names.{AreNumbered};
ghost use Rattle.pw_law_valid.specs.Numbered.{IsNumberedBelow};

use pw_law_checked::{accepted_is_within, strings_of_texts};
use pw_law_lower::modules_are_lawful;
use pw_law_words::accepted_texts_are_well_typed;
use pw_tree::words_spell_what_they_are;

/// In a module that checking accepts the objects without a name are no more than the tokens of the syntax tree: each string literal
/// is one at most, each static local is one, and each local that is initialised by bytes has one (ISO C90 6.1.4, 6.5.7). Their
/// numbers are those below.
pub fn accepted_objects_are_few()
    ensures { (tree : Module) (m : ModuleValue) → Checks tree (Ok m) → All (λ g. IsNumberedBelow (length (symbols tree)) g.name) m.globals }
{}

/// The tree of a text has no more tokens than a text may have.
pub fn trees_have_few_tokens()
    ensures { (text : List ℕ) (tokens : List Token) (tree : Module) → IsLexed text tokens → IsTreeOf (spelled_all text tokens) tree → length (symbols tree) ≤ token_limit }
{}

/// An object without a name of an accepted text has a number of 32 bits.
pub fn accepted_objects_are_numbered()
    ensures { (text : List ℕ) (tokens : List Token) (tree : Module) (m : ModuleValue) → IsLexed text tokens → IsTreeOf (spelled_all text tokens) tree → Checks tree (Ok m) → AreNumbered m }
{
    accepted_objects_are_few();
    trees_have_few_tokens();
}

/// The flow graph of an accepted text is lawful: where a text is cut into these tokens, they have this tree, and checking makes this
/// typed tree of it.
pub fn accepted_texts_are_lawful()
    ensures { (home text : List ℕ) (tokens : List Token) (tree : Module) (m : ModuleValue) → IsLexed text tokens → IsTreeOf (spelled_all text tokens) tree → Checks tree (Ok m) → IsValid (lowered home m) }
{
    strings_of_texts();
    words_spell_what_they_are();
    accepted_texts_are_well_typed();
    accepted_is_within();
    accepted_objects_are_numbered();
    modules_are_lawful();
}
