//! The arguments of a call.

ghost use Rattle.std.specs.Prelude.{◌≡◌, ◌↔◌, ◌≤◌, ◌<◌, ◌++◌, ◌∷◌, [], length, IfOk, IfSome, IsTrue};
ghost use Rattle.pw_cpp_expand.specs.Calls as spec;
ghost use Rattle.pw_cpp_expand.specs.Numbered.{AnswersCall, AreArgumentsKnown, AreKnown, IsPut, named};
ghost use Rattle.pw_cpp_sets.specs.Sets.{Known};

use crate::ahead::look_ahead;
use crate::progress::{ExpandFault, Lexeme, Mode, Progress};
use pw_cpp_lines::lines_go_on;
use pw_cpp_macros::is_spelled;
use pw_items::Items;
use std::alloc::{AllocError, Global};

/// The arguments of a call, and the `)` that closes it.
#[derive(Drop)]
pub struct Arguments {
    pub arguments: Items<Items<Lexeme>>,
    pub close: Lexeme,
}

/// What a token is among arguments.
#[derive(Clone, Copy)]
pub enum Part {
    /// `(`
    Opens,
    /// `)`
    Closes,
    /// `,`
    Parts,
    /// Any other token.
    GoesOn,
}

/// What a token does to the arguments.
#[derive(Clone, Copy)]
pub enum Cut {
    /// It is part of the last one, with so many inner parentheses open behind it.
    Within(u64),
    /// It parts the last one from the next.
    Next,
    /// It closes the call.
    Ends,
}

fn part_of(source: &[u8], lexeme: Lexeme) -> Part
    ensures { (known : Known) → result ≡ spec.part_of source.now (named known lexeme) }
{
    if is_spelled(source, b"(", lexeme.token) {
        Part::Opens
    } else if is_spelled(source, b")", lexeme.token) {
        Part::Closes
    } else if is_spelled(source, b",", lexeme.token) {
        Part::Parts
    } else {
        Part::GoesOn
    }
}

fn cut_of(part: Part, depth: u64) -> Cut
    requires { depth < u64.MAX }
    ensures { result ≡ spec.cut_of part depth }
{
    match part {
        Part::Opens => Cut::Within(depth + 1),
        Part::Closes => if depth == 0 {
            Cut::Ends
        } else {
            Cut::Within(depth - 1)
        },
        Part::Parts => if depth == 0 {
            Cut::Next
        } else {
            Cut::Within(depth)
        },
        Part::GoesOn => Cut::Within(depth),
    }
}

/// Whether a token closes the call.
fn is_end(cut: Cut) -> bool
    ensures { IsTrue result ↔ (cut ≡ Cut.Ends) }
{
    matches!(cut, Cut::Ends)
}

/// Does with a token what it does to the arguments, of which the last one is not whole, and answers how many inner parentheses are open
/// behind it.
fn put(
    alloc: Global,
    cut: Cut,
    lexeme: Lexeme,
    whole: &mut Items<Items<Lexeme>>,
    last: &mut Vec<Lexeme>,
) -> Result<u64, AllocError>
    ensures { IfOk result (λ depth. IsPut cut lexeme whole.old last.old.items whole.new last.new.items depth) }
{
    match cut {
        Cut::Within(inner) => {
            last.push(lexeme)?;
            Ok(inner)
        }
        Cut::Next => {
            let argument = std::mem::replace(last, Vec::new(alloc));
            whole.push(Items::from_vec(argument))?;
            Ok(0)
        }
        Cut::Ends => Ok(0),
    }
}

/// The arguments of a call from behind its `(` on, or None where the text ends before its `)`.
pub fn collect(
    alloc: Global,
    source: &[u8],
    text: &[u8],
    mode: Mode,
    pending: &mut Items<Lexeme>,
    progress: &mut Progress,
) -> Result<Option<Arguments>, ExpandFault>
    requires { progress.old.next ≤ length text.now }
    ensures answers { AnswersCall source.now text.now mode pending.old progress.old pending.new progress.new result }
    ensures within { progress.new.next ≤ length text.now }
    ensures known { IfOk result (λ _. (known : Known) → 0 < length known → AreKnown known pending.old → AreKnown known pending.new) }
    ensures arguments { (known : Known) → 0 < length known → AreKnown known pending.old → IfOk result (λ found. IfSome found (AreArgumentsKnown known)) }
{
    lines_go_on();
    let mut whole = Items::new(alloc);
    let mut last = Vec::new(alloc);
    let mut depth = 0;
    loop {
        look_ahead(alloc, text, mode, pending, progress)?;
        let Some(lexeme) = pending.pop() else {
            return Ok(None);
        };
        let cut = cut_of(part_of(source, lexeme), depth);
        if is_end(cut) {
            let arguments = closed(whole, last, lexeme)?;
            return Ok(Some(arguments));
        }
        depth = put(alloc, cut, lexeme, &mut whole, &mut last)?;
    }
}

fn closed(
    whole: Items<Items<Lexeme>>,
    last: Vec<Lexeme>,
    close: Lexeme,
) -> Result<Arguments, AllocError>
    ensures { IfOk result (λ found. (found.arguments ≡ whole ++ last.items ∷ []) × (found.close ≡ close)) }
{
    let mut arguments = whole;
    arguments.push(Items::from_vec(last))?;
    Ok(Arguments { arguments, close })
}
