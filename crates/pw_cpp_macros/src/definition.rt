//! What a `#define` says.

ghost use Rattle.std.specs.Prelude.{◌≡◌, ◌⊎◌, ◌+◌, ◌==◌, List, [], ◌∷◌, Ok, Err, Some, OnOk, IfErr};
ghost use Rattle.std.specs.List.{list_any};
ghost use Rattle.pw_cpp_macros.specs.Definitions as spec;
ghost use Rattle.pw_cpp_macros.specs.Definitions.{Answers, and_then};
ghost use Rattle.pw_token.specs.declared.token.Token.{Token};

use crate::word::{is_hash, is_spelled, is_word, spelled};
use pw_items::Items;
use pw_token::Token;
use std::alloc::{AllocError, Global};

/// The greatest count of parameters of a macro.
pub const PARAMETER_LIMIT: usize = 127;

/// A macro: the names of its parameters, where it takes arguments, and its replacement.
#[derive(Drop)]
pub struct Macro {
    pub parameters: Option<Items<Token>>,
    pub replacement: Items<Token>,
}

/// A macro with its name.
#[derive(Drop)]
pub struct Definition {
    pub name: Token,
    pub meaning: Macro,
}

/// Why a `#define` defines no macro.
#[derive(Clone, Copy, Debug, PartialEq, Eq)]
pub enum DefineFault {
    /// It has not the form of one: no name, or no list of parameters behind a `(` that stands directly behind the name.
    Form,
    /// Two parameters have one name.
    Repeated,
    /// A `#` or a `##` stands in the replacement.
    Hash,
    /// There are more parameters than `PARAMETER_LIMIT`.
    TooMany,
    /// There was no memory for the macro.
    NoMemory,
}

impl From<AllocError> for DefineFault {
    ghost use Rattle.pw_cpp_macros.specs.declared.definition.DefineFault.TheVariants.{NoMemory};

    ghost from_gives = { λ _ fault. fault ≡ NoMemory };

    fn from(_error: AllocError) -> Self {
        DefineFault::NoMemory
    }
}

fn is_among(text: &[u8], tokens: &[Token], token: Token) -> bool
    ensures { result ≡ spec.is_among text.now tokens.now token }
{
    let bytes = spelled(text, token);
    tokens.iter().any(|other| is_spelled(text, bytes, *other))
}

fn has_hash(text: &[u8], tokens: &[Token]) -> bool
    ensures { result ≡ list_any (spec.is_hash text.now) tokens.now }
{
    tokens.iter().any(|token| is_hash(text, *token))
}

/// Adds a parameter to those that stand before it.
fn add_parameter(text: &[u8], names: &mut Items<Token>, token: Token) -> Result<(), DefineFault>
    ensures added { OnOk result (spec.with_parameter text.now names.old token ≡ Ok names.new) }
    ensures fault { IfErr result (λ fault. (fault ≡ DefineFault.NoMemory) ⊎ (spec.with_parameter text.now names.old token ≡ Err fault)) }
{
    if !is_word(token) {
        return Err(DefineFault::Form);
    }
    if is_among(text, names.as_slice(), token) {
        return Err(DefineFault::Repeated);
    }
    if names.len() >= PARAMETER_LIMIT {
        return Err(DefineFault::TooMany);
    }
    names.push(token)?;
    Ok(())
}

/// The definition of a name with these parameters and this replacement.
fn with_replacement(
    alloc: Global,
    text: &[u8],
    name: Token,
    parameters: Option<Items<Token>>,
    replacement: &[Token],
) -> Result<Definition, DefineFault>
    ensures { Answers (spec.with_replacement text.now name parameters replacement.now) result }
{
    if has_hash(text, replacement) {
        return Err(DefineFault::Hash);
    }
    let replacement = Items::from_slice(alloc, replacement)?;
    let meaning = Macro {
        parameters,
        replacement,
    };
    Ok(Definition { name, meaning })
}

/// The definition of a name with one parameter or more, from behind the `(` on.
fn with_parameters(
    alloc: Global,
    text: &[u8],
    name: Token,
    tokens: &[Token],
) -> Result<Definition, DefineFault>
    ensures { Answers (and_then (spec.further_parameters text.now [] tokens.now) (λ list. spec.with_replacement text.now name (Some list.0) list.1)) result }
{
    let mut names = Items::new(alloc);
    let mut left = tokens;
    while let [parameter, after @ ..] = left {
        add_parameter(text, &mut names, *parameter)?;
        let [mark, rest @ ..] = after else {
            return Err(DefineFault::Form);
        };
        if is_spelled(text, b")", *mark) {
            return with_replacement(alloc, text, name, Some(names), rest);
        }
        if !is_spelled(text, b",", *mark) {
            return Err(DefineFault::Form);
        }
        left = rest;
    }
    Err(DefineFault::Form)
}

/// The definition of a name that takes arguments, from behind the `(` on.
fn with_list(
    alloc: Global,
    text: &[u8],
    name: Token,
    tokens: &[Token],
) -> Result<Definition, DefineFault>
    ensures { Answers (and_then (spec.parameter_list text.now tokens.now) (λ list. spec.with_replacement text.now name (Some list.0) list.1)) result }
{
    let [first, rest @ ..] = tokens else {
        return Err(DefineFault::Form);
    };
    if is_spelled(text, b")", *first) {
        return with_replacement(alloc, text, name, Some(Items::new(alloc)), rest);
    }
    with_parameters(alloc, text, name, tokens)
}

/// Whether a token begins where another ends.
fn stands_directly_behind(name: Token, first: Token) -> bool
    ensures { result ≡ (first.at == name.at + name.len) }
{
    match name.at.checked_add(name.len) {
        Some(end) => first.at == end,
        None => false,
    }
}

/// Whether a token is a `(` that stands directly behind a name.
fn opens_parameters(text: &[u8], name: Token, first: Token) -> bool
    ensures { (rest : List Token) → result ≡ spec.opens_parameters text.now name (first ∷ rest) }
{
    is_spelled(text, b"(", first) && stands_directly_behind(name, first)
}

/// What a `#define` says, from its tokens behind the word `define`.
///
/// # Errors
///
/// The first fault in the order of the tokens, or `NoMemory`.
pub fn definition_of(
    alloc: Global,
    text: &[u8],
    tokens: &[Token],
) -> Result<Definition, DefineFault>
    ensures { Answers (spec.definition_of text.now tokens.now) result }
{
    let [name, rest @ ..] = tokens else {
        return Err(DefineFault::Form);
    };
    if !is_word(*name) {
        return Err(DefineFault::Form);
    }
    let [first, behind @ ..] = rest else {
        return with_replacement(alloc, text, *name, None, rest);
    };
    if opens_parameters(text, *name, *first) {
        return with_list(alloc, text, *name, behind);
    }
    with_replacement(alloc, text, *name, None, rest)
}
