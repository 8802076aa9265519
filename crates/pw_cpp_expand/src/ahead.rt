//! The tokens that stand ahead.

ghost use Rattle.std.specs.Prelude.{◌≡◌, ◌≤◌, ◌<◌, ◌++◌, length, map, reverse, OnOk};
ghost use Rattle.pw_cpp_expand.specs.Numbered.{AnswersAhead, AnswersFurther, AnswersTextLine, AreKnown, fresh};
ghost use Rattle.pw_cpp_lines.specs.Heads.{IsHead};
ghost use Rattle.pw_cpp_lines.specs.declared.head.Head.TheVariants as head;
ghost use Rattle.pw_cpp_sets.specs.Sets.{Known};

use crate::progress::{ExpandFault, Lexeme, Mode, OUTPUT_LIMIT, Progress, of_line};
use pw_cpp_lines::{Head, head_of, lex_line, pass_rest};
use pw_items::Items;
use pw_token::Token;
use std::alloc::{AllocError, Global};

/// The tokens of the text line at a place.
pub fn read_line(
    alloc: Global,
    text: &[u8],
    at: usize,
    progress: &mut Progress,
) -> Result<Items<Token>, ExpandFault>
    requires within { at < length text.now }
    requires is_text { IsHead text.now at head.Text }
    ensures answers { AnswersTextLine text.now at progress.old progress.new result }
    ensures within { progress.old.next ≤ length text.now → progress.new.next ≤ length text.now }
{
    let line = match lex_line(alloc, text, at) {
        Ok(line) => line,
        Err(fault) => return Err(of_line(fault)),
    };
    let size = progress.size;
    if size >= OUTPUT_LIMIT {
        return Err(ExpandFault::Length { at });
    }
    progress.rows.push(at)?;
    progress.size = size + 1;
    progress.next = line.next;
    Ok(line.tokens)
}

/// The tokens of the next text line, or None where a directive or the end of the file comes before.
pub fn read_on(
    alloc: Global,
    text: &[u8],
    progress: &mut Progress,
) -> Result<Option<Items<Token>>, ExpandFault>
    requires { progress.old.next ≤ length text.now }
    ensures answers { AnswersFurther text.now progress.old progress.new result }
    ensures within { progress.new.next ≤ length text.now }
{
    let mut at = progress.next;
    while at < text.len() {
        match head_of(text, at) {
            Head::Text => {
                let tokens = read_line(alloc, text, at, progress)?;
                return Ok(Some(tokens));
            }
            Head::Marker { hash } => at = pass_rest(text, hash),
            Head::Directive { .. } => return Ok(None),
        }
    }
    Ok(None)
}

/// A token as it is read of a text: no macro's name is hidden in it.
pub fn fresh(token: Token) -> Lexeme
    ensures { result ≡ fresh token }
{
    Lexeme {
        token,
        hidden: 0,
        place: token.at,
    }
}

/// Puts tokens as they are read in front of those at hand, which are kept with the first one last.
pub fn put_fresh(tokens: Items<Token>, pending: &mut Items<Lexeme>) -> Result<(), AllocError>
    ensures put { OnOk result (pending.new ≡ pending.old ++ reverse (map fresh tokens)) }
    ensures known { OnOk result ((known : Known) → 0 < length known → AreKnown known pending.old → AreKnown known pending.new) }
{
    let mut tokens = tokens;
    while let Some(token) = tokens.pop() {
        pending.push(fresh(token))?;
    }
    Ok(())
}

/// Reads text lines until a token is at hand or the text ends.
fn look_on(
    alloc: Global,
    text: &[u8],
    pending: &mut Items<Lexeme>,
    progress: &mut Progress,
) -> Result<(), ExpandFault>
    requires { progress.old.next ≤ length text.now }
    ensures answers { AnswersAhead text.now Mode.InText pending.old progress.old pending.new progress.new result }
    ensures within { progress.new.next ≤ length text.now }
    ensures known { OnOk result ((known : Known) → 0 < length known → AreKnown known pending.old → AreKnown known pending.new) }
{
    while pending.is_empty() {
        let found = read_on(alloc, text, progress)?;
        let Some(tokens) = found else {
            return Ok(());
        };
        put_fresh(tokens, pending)?;
    }
    Ok(())
}

/// Sees that a token is at hand, where one stands ahead.
pub fn look_ahead(
    alloc: Global,
    text: &[u8],
    mode: Mode,
    pending: &mut Items<Lexeme>,
    progress: &mut Progress,
) -> Result<(), ExpandFault>
    requires { progress.old.next ≤ length text.now }
    ensures answers { AnswersAhead text.now mode pending.old progress.old pending.new progress.new result }
    ensures within { progress.new.next ≤ length text.now }
    ensures known { OnOk result ((known : Known) → 0 < length known → AreKnown known pending.old → AreKnown known pending.new) }
{
    match mode {
        Mode::Alone => Ok(()),
        Mode::InText => look_on(alloc, text, pending, progress),
    }
}
