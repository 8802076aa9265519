//! The conditions of `#if` and `#elif`.

ghost use Rattle.std.specs.Prelude.{◌≡◌, ◌≤◌, ◌<◌, ◌&&◌, All, List, Some, codes, drop, length, option_map, IfOk, IfSome};
ghost use Rattle.pw_cpp_macros.specs.Definitions.{is_spelled, is_word};
ghost use Rattle.pw_cpp_directives.specs.Obeying.{AnswersJudgement, IsJudging, IsVerdictOf};
ghost use Rattle.pw_cpp_directives.specs.Conditions as spec;
ghost use Rattle.pw_cpp_condition.specs.Grammar.{AnswersItems, Means};
ghost use Rattle.pw_cpp_condition.specs.declared.word.Item.{Item};
ghost use Rattle.pw_token.specs.Roles.{spelling};
ghost use Rattle.pw_cpp_expand.specs.AtHand.{IsWithinLimits};
ghost use Rattle.pw_cpp_expand.specs.Numbered.{HaveEmpty, all_named, named};
ghost use Rattle.pw_cpp_sets.specs.Sets.{Keeps, Known};

use pw_cpp_condition::{Item, evaluate, item_of};
use pw_cpp_expand::{ExpandFault, Lexeme, Progress, expand_alone, fresh};
use pw_cpp_macros::{Macros, is_spelled, is_word, spelled};
use pw_cpp_sets::Sets;
use pw_cpp_values::Number;
use pw_items::Items;
use pw_token::Token;
use std::alloc::{AllocError, Global};

/// The tokens that stand for what `defined` says: the digits 0 and 1 before all files.
#[derive(Clone, Copy)]
pub struct Digits {
    pub zero: Token,
    pub one: Token,
}

/// What a condition comes to.
#[derive(Clone, Copy)]
pub enum Verdict {
    /// Whether it holds: its value is not 0.
    Holds(bool),
    /// It is no constant expression, or something in it that is evaluated has no value.
    Faulty,
}

/// The digit that says whether a name is a macro's.
fn truth_token(source: &[u8], macros: &Macros<'_>, digits: Digits, name: Token) -> Token
    ensures { result ≡ spec.truth_token digits macros.now (spelling source.now name) }
{
    match macros.find(spelled(source, name)) {
        Some(_) => digits.one,
        None => digits.zero,
    }
}

/// The digit in the place of a `defined`.
fn said(source: &[u8], macros: &Macros<'_>, digits: Digits, place: usize, name: Token) -> Lexeme
    ensures { result ≡ record { token = spec.truth_token digits macros.now (spelling source.now name); hidden = 0; place = place } }
{
    let token = truth_token(source, macros, digits, name);
    Lexeme {
        token,
        hidden: 0,
        place,
    }
}

/// Whether three tokens are a name in parentheses.
fn is_in_parentheses(source: &[u8], first: Token, name: Token, close: Token) -> bool
    ensures { result ≡ (is_spelled source.now (codes "(") first && is_word name && is_spelled source.now (codes ")") close) }
{
    is_spelled(source, b"(", first) && is_word(name) && is_spelled(source, b")", close)
}

/// A name in parentheses behind a `defined`, with the count of its tokens.
fn name_in_parentheses(source: &[u8], first: Token, tokens: &[Token]) -> Option<(Token, usize)>
    ensures { result ≡ spec.name_in_parentheses source.now first tokens.now }
{
    let [name, close, ..] = tokens else {
        return None;
    };
    if is_in_parentheses(source, first, *name, *close) {
        return Some((*name, 3));
    }
    None
}

/// The name behind a `defined`, with the count of its tokens, or None where it has not the form of one.
fn defined_name(source: &[u8], tokens: &[Token]) -> Option<(Token, usize)>
    ensures value { result ≡ spec.defined_name source.now tokens.now }
    ensures count { IfSome result (λ found. (0 < found.1) × (found.1 ≤ length tokens.now)) }
{
    let [first, rest @ ..] = tokens else {
        return None;
    };
    if is_word(*first) {
        return Some((*first, 1));
    }
    name_in_parentheses(source, *first, rest)
}

/// What the first of some tokens becomes, with the count of those behind it that it takes, or None where it is a `defined` that has not
/// its form.
fn taken_at(
    source: &[u8],
    macros: &Macros<'_>,
    digits: Digits,
    token: Token,
    rest: &[Token],
) -> Option<(Lexeme, usize)>
    ensures value { (known : Known) → HaveEmpty known → option_map (λ found. (named known found.0, found.1)) result ≡ spec.taken_at source.now macros.now digits token rest.now }
    ensures within { IfSome result (λ found. (found.0.hidden ≡ 0) × (found.1 ≤ length rest.now)) }
{
    if !is_spelled(source, b"defined", token) {
        return Some((fresh(token), 0));
    }
    match defined_name(source, rest) {
        Some((name, count)) => Some((said(source, macros, digits, token.at, name), count)),
        None => None,
    }
}

/// The tokens from a number of them on.
fn tokens_from(tokens: &[Token], from: usize) -> &[Token]
    ensures { result.now ≡ drop from tokens.now }
{
    if from < tokens.len() {
        &tokens[from..]
    } else {
        &[]
    }
}

/// The tokens with each `defined` taken, or None where one has not its form.
fn with_defined(
    alloc: Global,
    source: &[u8],
    macros: &Macros<'_>,
    digits: Digits,
    tokens: &[Token],
) -> Result<Option<Items<Lexeme>>, AllocError>
    ensures taken { IfOk result (λ taken. (known : Known) → HaveEmpty known → option_map (all_named known) taken ≡ spec.with_defined source.now macros.now digits tokens.now) }
    ensures known { IfOk result (λ taken. IfSome taken (All (λ lexeme. lexeme.hidden ≡ 0))) }
{
    let mut taken = Items::new(alloc);
    let mut left = tokens;
    while let [token, rest @ ..] = left {
        let found = taken_at(source, macros, digits, *token, rest);
        let Some(one) = found else {
            return Ok(None);
        };
        taken.push(one.0)?;
        left = tokens_from(rest, one.1);
    }
    Ok(Some(taken))
}

/// The items that tokens are, or None where one of them is none.
fn items_of(
    alloc: Global,
    source: &[u8],
    tokens: &[Lexeme],
) -> Result<Option<Items<Item>>, AllocError>
    ensures { IfOk result (λ items. (known : Known) → items ≡ spec.items_of source.now (all_named known tokens.now)) }
{
    let mut items = Items::new(alloc);
    for lexeme in tokens {
        let found = item_of(alloc, lexeme.token.kind, spelled(source, lexeme.token))?;
        let Some(item) = found else {
            return Ok(None);
        };
        items.push(item)?;
    }
    Ok(Some(items))
}

/// What the number of an expression decides.
fn decided(number: Number) -> Verdict
    ensures { (items : List Item) → Means items number → IsVerdictOf (Some items) result }
{
    match number.word {
        Some(word) => Verdict::Holds(word != 0),
        None => Verdict::Faulty,
    }
}

/// What an expression decides, or that there is none.
fn decision(value: Option<Number>) -> Verdict
    ensures { (items : List Item) → AnswersItems items value → IsVerdictOf (Some items) result }
{
    match value {
        Some(number) => decided(number),
        None => Verdict::Faulty,
    }
}

/// What items come to, if tokens are such.
fn verdict_of(alloc: Global, items: Option<Items<Item>>) -> Result<Verdict, AllocError>
    ensures { IfOk result (IsVerdictOf items) }
{
    let Some(found) = items else {
        return Ok(Verdict::Faulty);
    };
    let value = evaluate(alloc, found.as_slice())?;
    Ok(decision(value))
}

/// What tokens that are expanded come to.
fn verdict_on(alloc: Global, source: &[u8], tokens: &[Lexeme]) -> Result<Verdict, AllocError>
    ensures { IfOk result (λ verdict. (known : Known) → IsVerdictOf (spec.items_of source.now (all_named known tokens.now)) verdict) }
{
    let items = items_of(alloc, source, tokens)?;
    verdict_of(alloc, items)
}

/// What the condition of a `#if` or `#elif` comes to.
///
/// # Errors
///
/// What stops the expansion of its macros.
pub fn judge<'a>(
    alloc: Global,
    source: &'a [u8],
    macros: &Macros<'a>,
    sets: &mut Sets<'a>,
    digits: Digits,
    tokens: &[Token],
    progress: &mut Progress,
) -> Result<Verdict, ExpandFault>
    requires fresh { IsJudging progress.old }
    requires limits { IsWithinLimits progress.old }
    requires empty { HaveEmpty sets.old }
    ensures keeps { IfOk result (λ _. Keeps sets.old sets.new) }
    ensures limits { IfOk result (λ _. IsWithinLimits progress.new) }
    ensures judges { AnswersJudgement source.now macros.now digits tokens.now progress.old.produced progress.new.produced result }
{
    let found = with_defined(alloc, source, macros, digits, tokens)?;
    let Some(taken) = found else {
        return Ok(Verdict::Faulty);
    };
    let out = expand_alone(alloc, source, macros, sets, taken, progress)?;
    let verdict = verdict_on(alloc, source, out.as_slice())?;
    Ok(verdict)
}
