//! What a text comes to: the tree of its tokens, or why it has none.

ghost use Rattle.pw_token.specs.Tokenization.{IsLexed};

use crate::shape::push_shape;
use pw_parse::{ParseFault, parse};
use pw_rows::Text;
use pw_token::{LexFault, Token, lex, unsupported};
use pw_tree::Module;

/// What is printed for a text that has a tree.
#[derive(Clone, Copy)]
pub enum Wanted {
    /// That it is accepted.
    Verdict,
    /// The tree's shape.
    Shape,
}

/// Adds a fault and its token, counted from 1.
fn push_fault(text: &mut Text, fault: &[u8], token: usize) {
    text.push(fault);
    text.push(b" at token ");
    text.display(&token);
}

/// Adds why a text has no tree.
fn push_parse_fault(text: &mut Text, fault: ParseFault) {
    match fault {
        ParseFault::TooDeep { token } => push_fault(text, b"TooDeep", token),
        ParseFault::Syntax { token } => push_fault(text, b"Syntax", token),
        ParseFault::NoMemory => text.cut(),
    }
}

/// Adds what is wanted of a tree.
fn push_tree(text: &mut Text, tree: &Module, wanted: Wanted) {
    match wanted {
        Wanted::Verdict => text.push(b"accepted"),
        Wanted::Shape => push_shape(text, tree),
    }
}

/// Adds what the tokens of a text come to.
fn push_parsed(text: &mut Text, source: &[u8], tokens: &[Token], wanted: Wanted)
    requires { IsLexed source.now tokens.now }
{
    if unsupported(source, tokens).is_some() {
        return text.push(b"Unsupported");
    }
    match parse(text.alloc(), source, tokens) {
        Ok(tree) => push_tree(text, &tree, wanted),
        Err(fault) => push_parse_fault(text, fault),
    }
}

/// Adds what a text comes to.
pub fn push_answer(text: &mut Text, source: &[u8], wanted: Wanted) {
    match lex(text.alloc(), source) {
        Ok(tokens) => push_parsed(text, source, &tokens, wanted),
        Err(LexFault::NoMemory) => text.cut(),
        Err(_) => text.push(b"Lex"),
    }
}
