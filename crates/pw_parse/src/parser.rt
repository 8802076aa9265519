//! The parser of a module.

ghost use Rattle.std.specs.Prelude.{◌≡◌, ◌≤◌, ◌+◌, All, length, map, IfOk, Result};
ghost use Rattle.pw_parse.specs.Parsing.{Answers, Parses, ParsesAs, fault_gives, parsed, symbol_in};
ghost use Rattle.pw_token.specs.Tokenization.{IsLexed};
ghost use Rattle.pw_parse.specs.declared.parser.ParseFault.{ParseFault};
ghost use Rattle.pw_tree.specs.Lexemes.{view_lexeme};
ghost use Rattle.pw_tree.specs.Trees as tree;
ghost use Rattle.pw_tree.specs.Views.{view_module};

use crate::module::externals;
use pw_parse_cursor::{Stop, Tokens};
use pw_parse_grammar::reading_is_exact;
use pw_token::{Token, nest_fault};
use pw_tree::{Lexeme, Module, lexeme_of};
use std::alloc::{AllocError, Global};

/// Why a text has no tree.
#[derive(Clone, Copy, Debug, PartialEq, Eq)]
pub enum ParseFault {
    /// The first token whose nesting exceeds `NEST_LIMIT` of pw_token, counted from 1.
    TooDeep { token: usize },
    /// The token at which no rule goes on, counted from 1: the count of tokens plus 1 at the end.
    Syntax { token: usize },
    /// There was no memory for the tree.
    NoMemory,
}

fn lexemes<'a>(
    alloc: Global,
    text: &'a [u8],
    tokens: &[Token],
) -> Result<Vec<Lexeme<'a>>, AllocError>
    requires { All (λ t. t.at + t.len ≤ length text.now) tokens.now }
    ensures { IfOk result (λ found. map view_lexeme found.items ≡ map (symbol_in text.now) tokens.now) }
{
    let mut found = Vec::new(alloc);
    for token in tokens {
        found.push(lexeme_of(text, token))?;
    }
    Ok(found)
}

/// What a reader that stopped makes of its text.
fn fault_of(stop: Stop, token: usize) -> ParseFault
    ensures { fault_gives stop token result }
{
    match stop {
        Stop::Fault => ParseFault::Syntax { token },
        Stop::NoMemory => ParseFault::NoMemory,
    }
}

fn parse_tokens(alloc: Global, text: &[u8], tokens: &[Token]) -> Result<Module, ParseFault>
    requires { IsLexed text.now tokens.now }
    ensures { Answers view_module (parsed text.now tokens.now) result }
{
    if let Some(token) = nest_fault(text, tokens) {
        return Err(ParseFault::TooDeep { token });
    }
    let Ok(lexemes) = lexemes(alloc, text, tokens) else {
        return Err(ParseFault::NoMemory);
    };
    let mut cursor = Tokens::new(alloc, &lexemes);
    match externals(alloc, &mut cursor, tokens.len() + 1) {
        Ok(externals) => Ok(Module { externals }),
        Err(stop) => Err(fault_of(stop, cursor.here())),
    }
}

/// The tree of a text's tokens, or why there is none: the first token that is nested deeper than `NEST_LIMIT` of pw_token;
/// or else, where the tokens are the spelling of no well-formed tree, the first whose prefix begins no tree's spelling,
/// which is the count plus 1 where all of them begin one. Nothing nests deeper in a call than that limit allows.
pub fn parse(alloc: Global, text: &[u8], tokens: &[Token]) -> Result<Module, ParseFault>
    requires { IsLexed text.now tokens.now }

    // The parser as a function on lists, unless memory ran out.
    ensures function { Answers view_module (parsed text.now tokens.now) result }

    // In the words of the grammar: the tree that the tokens spell, or the fault that they have.
    ensures parses { ParsesAs view_module text.now tokens.now result }

    // What the text's tree or its fault is, that is answered, unless memory ran out.
    ensures only { (answer : Result tree.Module ParseFault) → Parses text.now tokens.now answer → Answers view_module answer result }
{
    reading_is_exact();
    parse_tokens(alloc, text, tokens)
}
