//! The front end: from the text of a module to its syntax tree.

ghost use Rattle.std.specs.Prelude.{◌≡◌, Ok};
ghost use Rattle.pw_front_end.specs.Fronts.{FrontEnd, FrontEndAnswers, by_lexing, front_end_of};
ghost use Rattle.pw_front_end.specs.AnswersTree.{FrontEndAnswersAs, AnswersTree};
ghost use Rattle.pw_token.specs.Tokenization.{IsLexed};
ghost use Rattle.pw_tree.specs.Views.{view_module};

use crate::refusal::{FrontEndFault, Refusal};
use pw_parse::parse;
use pw_parse_grammar::reading_is_exact;
use pw_token::{Token, lex, unsupported};
use pw_tree::Module;
use std::alloc::Global;

/// The syntax tree of a text's tokens.
fn tree_of(alloc: Global, text: &[u8], tokens: &[Token]) -> Result<Module, FrontEndFault>
    requires { IsLexed text.now tokens.now }
    ensures { AnswersTree view_module (by_lexing text.now (Ok tokens.now)) result }
{
    if let Some((token, feature)) = unsupported(text, tokens) {
        return Err(FrontEndFault::Refused(Refusal::Unsupported(token, feature)));
    }
    Ok(parse(alloc, text, tokens)?)
}

/// The syntax tree of a text, or why it has none.
fn fronted(alloc: Global, text: &[u8]) -> Result<Module, FrontEndFault>
    ensures { AnswersTree view_module (front_end_of text.now) result }
{
    let tokens = lex(alloc, text)?;
    tree_of(alloc, text, tokens.as_slice())
}

/// The syntax tree of a text, which is tested for lexing, for tokens that are left out, for depth and for syntax, in
/// this order.
///
/// # Errors
///
/// `Refused` with what the first of these tests finds, or `NoMemory`.
pub fn front(alloc: Global, text: &[u8]) -> Result<Module, FrontEndFault>
    // The answer as a function of the text, unless memory ran out.
    ensures function { AnswersTree view_module (front_end_of text.now) result }

    // In the words of the text: the tree that it has, or the refusal that it has.
    ensures fronts { FrontEndAnswersAs view_module text.now result }

    // The answer that a text has, that is given, unless memory ran out.
    ensures only { (answer : FrontEnd) → FrontEndAnswers text.now answer → AnswersTree view_module answer result }

    // A text has no other answer.
    ensures one { (answer other : FrontEnd) → FrontEndAnswers text.now answer → FrontEndAnswers text.now other → answer ≡ other }
{
    reading_is_exact();
    fronted(alloc, text)
}
