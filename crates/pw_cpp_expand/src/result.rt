//! What replaces a macro's name or call.

ghost use Rattle.std.specs.Prelude.{◌≡◌, ◌<◌, ◌&&◌, length, map, option_map, All, IfOk, IfSome};
ghost use Rattle.pw_cpp_expand.specs.Calls as spec;
ghost use Rattle.pw_cpp_expand.specs.Expansion as expansion;
ghost use Rattle.pw_cpp_expand.specs.Numbered.{AreKnown, IsAdded, IsJoined, IsMade, all_named};
ghost use Rattle.pw_cpp_expand.specs.AtHand.{argument_named};
ghost use Rattle.pw_cpp_macros.specs.Definitions as defining;
ghost use Rattle.pw_cpp_sets.specs.Sets.{Keeps, Known, set_at};

use crate::progress::Lexeme;
use pw_cpp_macros::{is_spelled, is_word, spelled};
use pw_cpp_sets::Sets;
use pw_items::Items;
use pw_token::Token;
use std::alloc::{AllocError, Global};

/// An argument that is expanded, for its parameter.
#[derive(Drop)]
pub struct Expanded {
    pub parameter: Token,
    pub tokens: Items<Lexeme>,
}

/// A macro's name with the set of names of what replaces it.
#[derive(Clone, Copy)]
pub struct Replaced {
    pub hidden: usize,
    pub place: usize,
}

/// A set that has the names of what is replaced besides those of another set.
#[derive(Clone, Copy)]
struct Joined {
    own: usize,
    number: usize,
}

/// Whether a token is the word of this spelling.
fn is_name(source: &[u8], name: &[u8], token: Token) -> bool
    ensures { result ≡ (defining.is_word token && defining.is_spelled source.now name.now token) }
{
    is_word(token) && is_spelled(source, name, token)
}

/// Whether a parameter stands in a replacement.
pub fn is_used(source: &[u8], replacement: &[Token], parameter: Token) -> bool
    ensures { result ≡ spec.is_used source.now replacement.now parameter }
{
    let name = spelled(source, parameter);
    replacement
        .iter()
        .any(|token| is_name(source, name, *token))
}

/// The argument for the parameter of this name.
fn argument_of<'e>(source: &[u8], arguments: &'e [Expanded], name: &[u8]) -> Option<&'e [Lexeme]>
    ensures named { (known : Known) → option_map (λ found. all_named known found.now) result ≡ expansion.argument_of (map (argument_named source.now known) arguments.now) name.now }
    ensures known { (known : Known) → All (λ argument. AreKnown known argument.tokens) arguments.now → IfSome result (λ found. AreKnown known found.now) }
{
    for argument in arguments {
        if name == spelled(source, argument.parameter) {
            return Some(argument.tokens.as_slice());
        }
    }
    None
}

/// The argument for a token of a replacement, if it is a parameter.
fn argument_for<'e>(source: &[u8], arguments: &'e [Expanded], token: Token) -> Option<&'e [Lexeme]>
    ensures named { (known : Known) → option_map (λ found. all_named known found.now) result ≡ expansion.argument_for source.now (map (argument_named source.now known) arguments.now) token }
    ensures known { (known : Known) → All (λ argument. AreKnown known argument.tokens) arguments.now → IfSome result (λ found. AreKnown known found.now) }
{
    if !is_word(token) {
        return None;
    }
    argument_of(source, arguments, spelled(source, token))
}

/// The set that has the names of what is replaced besides those of a set. One that was joined last is at hand.
fn joined_with<'a>(
    alloc: Global,
    sets: &mut Sets<'a>,
    hidden: usize,
    own: usize,
    last: Joined,
) -> Result<Joined, AllocError>
    requires hidden { hidden < length sets.old }
    requires own { own < length sets.old }
    requires last { IsJoined sets.old hidden last }
    ensures { IfOk result (λ next. Keeps sets.old sets.new × IsJoined sets.new hidden next × (next.own ≡ own)) }
{
    if own == last.own {
        return Ok(last);
    }
    let number = sets.joined(alloc, hidden, own)?;
    Ok(Joined { own, number })
}

/// Adds the tokens of an argument, each with the names of what is replaced besides its own.
fn push_argument<'a>(
    alloc: Global,
    sets: &mut Sets<'a>,
    replaced: Replaced,
    argument: &[Lexeme],
    made: &mut Items<Lexeme>,
) -> Result<(), AllocError>
    requires hidden { replaced.hidden < length sets.old }
    requires argument { AreKnown sets.old argument.now }
    requires made { AreKnown sets.old made.old }
    ensures { IfOk result (λ _. IsAdded sets.old made.old sets.new made.new (map (spec.passed (set_at sets.old replaced.hidden) replaced.place) (all_named sets.old argument.now))) }
{
    let number = sets.joined(alloc, replaced.hidden, 0)?;
    let mut last = Joined { own: 0, number };
    for lexeme in argument {
        last = joined_with(alloc, sets, replaced.hidden, lexeme.hidden, last)?;
        made.push(Lexeme {
            token: lexeme.token,
            hidden: last.number,
            place: replaced.place,
        })?;
    }
    Ok(())
}

/// Adds what a token of a replacement becomes: the tokens of an argument, or itself.
fn push_replaced<'a>(
    alloc: Global,
    sets: &mut Sets<'a>,
    replaced: Replaced,
    token: Token,
    argument: Option<&[Lexeme]>,
    made: &mut Items<Lexeme>,
) -> Result<(), AllocError>
    requires hidden { replaced.hidden < length sets.old }
    requires argument { IfSome argument (λ found. AreKnown sets.old found.now) }
    requires made { AreKnown sets.old made.old }
    ensures { IfOk result (λ _. IsAdded sets.old made.old sets.new made.new (expansion.replaced (set_at sets.old replaced.hidden) replaced.place token (option_map (λ found. all_named sets.old found.now) argument.entry))) }
{
    let Some(argument) = argument else {
        made.push(Lexeme {
            token,
            hidden: replaced.hidden,
            place: replaced.place,
        })?;
        return Ok(());
    };
    push_argument(alloc, sets, replaced, argument, made)
}

/// What replaces a macro's name or call: the replacement, with the arguments in the place of the parameters.
pub fn result_of<'a>(
    alloc: Global,
    source: &'a [u8],
    sets: &mut Sets<'a>,
    replaced: Replaced,
    arguments: &[Expanded],
    replacement: &[Token],
) -> Result<Items<Lexeme>, AllocError>
    requires hidden { replaced.hidden < length sets.old }
    requires arguments { All (λ argument. AreKnown sets.old argument.tokens) arguments.now }
    ensures { IfOk result (λ made. IsMade sets.old sets.new made (expansion.result_of source.now (set_at sets.old replaced.hidden) replaced.place (map (argument_named source.now sets.old) arguments.now) replacement.now)) }
{
    let mut made = Items::new(alloc);
    for token in replacement {
        let argument = argument_for(source, arguments, *token);
        push_replaced(alloc, sets, replaced, *token, argument, &mut made)?;
    }
    Ok(made)
}
