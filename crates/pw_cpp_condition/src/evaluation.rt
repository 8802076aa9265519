//! The value of an expression.

ghost use Rattle.std.specs.Prelude.{◌≡◌, List, [], reverse, option_map, Some, None, IfOk, OnOk};
ghost use Rattle.pw_cpp_condition.specs.Grammar.{AnswersItems};
ghost use Rattle.pw_cpp_condition.specs.Machine as spec;
ghost use Rattle.pw_cpp_condition.specs.declared.frame.Frame.{Frame};

use crate::frame::{Follow, Frame, asked, follow_level, follow_of, is_group, lead_of, reduce};
use crate::word::Item;
use pw_cpp_values::Number;
use pw_items::Items;
use std::alloc::{AllocError, Global};

/// What the operand that stands last is behind a step, or why there is no step.
type Outcome = Result<Option<Option<Number>>, AllocError>;

/// Puts the inner frame back within the others, if there is one.
#[tactic(auto, using(crate::proofs::Stack::reverse_pushed))]
fn put_back(inner: Option<Frame>, frames: &mut Items<Frame>) -> Result<(), AllocError>
    ensures { OnOk result (reverse frames.new ≡ spec.with_inner inner (reverse frames.old)) }
{
    if let Some(frame) = inner {
        frames.push(frame)?;
    }
    Ok(())
}

/// Puts a frame within the others.
#[tactic(auto, using(crate::proofs::Stack::reverse_pushed))]
fn push(frame: Frame, frames: &mut Items<Frame>) -> Outcome
    ensures { IfOk result (λ next. option_map (λ last. (last, reverse frames.new)) next ≡ Some (spec.waiting_in (reverse frames.old) frame)) }
{
    frames.push(frame)?;
    Ok(Some(None))
}

/// Puts a frame within the others and the inner one.
fn push_within(inner: Option<Frame>, frame: Frame, frames: &mut Items<Frame>) -> Outcome
    ensures { IfOk result (λ next. option_map (λ last. (last, reverse frames.new)) next ≡ Some (spec.waiting_in (spec.with_inner inner (reverse frames.old)) frame)) }
{
    put_back(inner, frames)?;
    push(frame, frames)
}

/// What a `:` makes of an operand, once no frame but the inner one wants it.
fn part(operand: Number, inner: Option<Frame>, frames: &mut Items<Frame>) -> Outcome
    requires { inner ≡ None → frames.old ≡ [] }
    ensures { IfOk result (λ next. option_map (λ last. (last, reverse frames.new)) next ≡ spec.parted operand (spec.with_inner inner (reverse frames.old))) }
{
    match inner {
        Some(frame) => match asked(frame) {
            Some(condition) => push(Frame::Colon(condition, operand), frames),
            None => Ok(None),
        },
        None => Ok(None),
    }
}

/// What a `)` makes of an operand, once no frame but the inner one wants it.
fn close(operand: Number, inner: Option<Frame>) -> Option<Option<Number>>
    ensures { (frames : List Frame) → (inner ≡ None → frames ≡ []) → option_map (λ last. (last, frames)) result ≡ spec.closed operand (spec.with_inner inner frames) }
{
    match inner {
        Some(frame) => if is_group(frame) {
            Some(Some(operand))
        } else {
            None
        },
        None => None,
    }
}

/// What a mark makes of an operand that stands before it, once no frame but the inner one wants it.
fn follow_with(
    follow: Follow,
    operand: Number,
    inner: Option<Frame>,
    frames: &mut Items<Frame>,
) -> Outcome
    requires { inner ≡ None → frames.old ≡ [] }
    ensures { IfOk result (λ next. option_map (λ last. (last, reverse frames.new)) next ≡ spec.followed follow operand (spec.with_inner inner (reverse frames.old))) }
{
    match follow {
        Follow::Goes(op) => push_within(inner, Frame::Between(op, operand), frames),
        Follow::Asks => push_within(inner, Frame::Question(operand), frames),
        Follow::Parts => part(operand, inner, frames),
        Follow::Closes => Ok(close(operand, inner)),
    }
}

fn follow_mark(follow: Follow, operand: Number, frames: &mut Items<Frame>) -> Outcome
    ensures { IfOk result (λ next. option_map (λ last. (last, reverse frames.new)) next ≡ spec.following operand (reverse frames.old) follow) }
{
    let reduced = reduce(follow_level(follow), operand, frames);
    follow_with(follow, reduced.operand, reduced.inner, frames)
}

/// Reads an item where an operand is wanted.
fn read_first(frames: &mut Items<Frame>, item: Item) -> Outcome
    ensures { IfOk result (λ next. option_map (λ last. (last, reverse frames.new)) next ≡ spec.step None (reverse frames.old) item) }
{
    match item {
        Item::Operand(number) => Ok(Some(Some(number))),
        Item::Mark(mark) => match lead_of(mark) {
            Some(frame) => push(frame, frames),
            None => Ok(None),
        },
    }
}

/// Reads an item behind an operand.
fn read_behind(operand: Number, frames: &mut Items<Frame>, item: Item) -> Outcome
    ensures { IfOk result (λ next. option_map (λ last. (last, reverse frames.new)) next ≡ spec.step (Some operand) (reverse frames.old) item) }
{
    match item {
        Item::Operand(_) => Ok(None),
        Item::Mark(mark) => match follow_of(mark) {
            Some(follow) => follow_mark(follow, operand, frames),
            None => Ok(None),
        },
    }
}

/// Reads an item behind the operand that stands last, if one does.
fn step(last: Option<Number>, frames: &mut Items<Frame>, item: Item) -> Outcome
    ensures { IfOk result (λ next. option_map (λ last. (last, reverse frames.new)) next ≡ spec.step last (reverse frames.old) item) }
{
    match last {
        None => read_first(frames, item),
        Some(operand) => read_behind(operand, frames, item),
    }
}

fn finish(last: Option<Number>, frames: &mut Items<Frame>) -> Option<Number>
    ensures { result ≡ spec.finished last (reverse frames.old) }
{
    let reduced = reduce(0, last?, frames);
    match reduced.inner {
        Some(_) => None,
        None => Some(reduced.operand),
    }
}

#[tactic(auto, using(crate::proofs::Stack::step_on, crate::proofs::Stack::step_none))]
fn run(alloc: Global, items: &[Item]) -> Result<Option<Number>, AllocError>
    ensures { IfOk result (λ found. found ≡ spec.run None [] items.now) }
{
    let mut frames = Items::new(alloc);
    let mut last = None;
    let mut rest = items;
    while let [item, after @ ..] = rest {
        let stepped = step(last, &mut frames, *item)?;
        let Some(next) = stepped else {
            return Ok(None);
        };
        last = next;
        rest = after;
    }
    Ok(finish(last, &mut frames))
}

/// The number that the items of a `#if` come to, or None where they spell no expression.
pub fn evaluate(alloc: Global, items: &[Item]) -> Result<Option<Number>, AllocError>
    ensures { IfOk result (λ found. AnswersItems items.now found) }
{
    run(alloc, items)
}
