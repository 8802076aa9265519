//! Laws of the grammar: what is written is read, and so tokens have one tree; what is read is written; where reading
//! stops, the tokens leave the grammar.

ghost use Rattle.std.specs.Prelude.{◌≡◌, ◌↔◌, ℕ, List, [], map, Result, Ok, Err};
ghost use Rattle.pw_tree.specs.Grammar.{IsSyntaxFault, IsTreeOf};
ghost use Rattle.pw_tree.specs.Numbering.{NumberedModule};
ghost use Rattle.pw_tree.specs.Spelling.{spelling};
ghost use Rattle.pw_tree.specs.Symbols.{Spelled, symbol_of};
ghost use Rattle.pw_tree.specs.Trees.{Module};
ghost use Rattle.pw_tree.specs.WellFormed.{WellFormedModule};
ghost use Rattle.pw_parse_grammar.specs.Answers.{IsAnswer, answer_in};
ghost use Rattle.pw_parse_grammar.specs.Input.{Input};
ghost use Rattle.pw_parse_grammar.specs.Modules.{read};
ghost use Rattle.pw_parse_grammar.specs.TokenNumbers.{number_module};

use pw_tree::symbols_have_one_spelling;

/// From a well-formed tree's tokens that tree is read, with the numbers of its tokens, and all tokens are read.
pub fn what_is_written_is_read()
    ensures { (tokens : List Spelled) (tree : Module) → IsTreeOf tokens tree → (behind : Input) × (behind.rest ≡ []) × (read (map symbol_of tokens) ≡ Ok (tree, behind)) }
{
    symbols_have_one_spelling();
}

/// Tokens are the spelling of at most one well-formed tree whose nodes have their tokens' numbers.
pub fn one_tree()
    ensures { (tokens : List Spelled) (tree other : Module) → IsTreeOf tokens tree → IsTreeOf tokens other → tree ≡ other }
{
    symbols_have_one_spelling();
}

/// Two well-formed trees of one spelling are one tree but for the numbers of their nodes: with their tokens' numbers they
/// are the same. A tree with its tokens' numbers is spelled as before, and where its nodes have them already it stays as
/// it is.
pub fn one_tree_but_for_numbers()
    ensures same { (tree other : Module) → WellFormedModule tree → WellFormedModule other → spelling tree ≡ spelling other → number_module tree ≡ number_module other }
    ensures spells { (tree : Module) → WellFormedModule tree → IsTreeOf (spelling tree) (number_module tree) }
    ensures kept { (tree : Module) → WellFormedModule tree → NumberedModule tree → number_module tree ≡ tree }
{
    symbols_have_one_spelling();
}

/// What is read from tokens is a well-formed tree whose nodes have their tokens' numbers, and the tokens are its spelling.
pub fn what_is_read_is_written()
    ensures { (tokens : List Spelled) (tree : Module) (behind : Input) → read (map symbol_of tokens) ≡ Ok (tree, behind) → IsTreeOf tokens tree }
{}

/// Tokens have at most one fault.
pub fn one_fault()
    ensures { (tokens : List Spelled) (number other : ℕ) → IsSyntaxFault tokens number → IsSyntaxFault tokens other → number ≡ other }
{}

/// Where reading stops, the tokens leave the grammar: those before the fault begin a well-formed tree, with the token
/// at the fault they begin none, and all of them are the spelling of none.
pub fn where_reading_stops()
    ensures { (tokens : List Spelled) (at : Input) → read (map symbol_of tokens) ≡ Err at → IsSyntaxFault tokens at.next }
{
    symbols_have_one_spelling();
}

/// What is read from tokens is their one answer: the one tree, or the one fault.
pub fn reading_is_exact()
    ensures { (tokens : List Spelled) (answer : Result Module ℕ) → IsAnswer tokens answer ↔ (answer ≡ answer_in (read (map symbol_of tokens))) }
{
    symbols_have_one_spelling();
}
