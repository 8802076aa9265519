//! What waits for an operand while an expression is read.

ghost use Rattle.std.specs.Prelude.{◌≡◌, [], None, option_map, reverse};
ghost use Rattle.pw_cpp_condition.specs.Grammar.{between};
ghost use Rattle.pw_cpp_condition.specs.Machine as spec;

use crate::word::{Infix, infix_of, level, prefix_of};
use pw_cpp_values::{Number, binary, conditional, logic, unary};
use pw_items::Items;
use pw_token::Mark;
use pw_types::UnaryOperator;

/// What waits for an operand.
#[derive(Clone, Copy)]
pub enum Frame {
    /// A `(`.
    Group,
    /// An operator that stands before its operand.
    Prefix(UnaryOperator),
    /// An operator with its left operand.
    Between(Infix, Number),
    /// A `?` with the operand before it.
    Question(Number),
    /// A `:` with the operands before it.
    Colon(Number, Number),
}

/// What a mark does behind an operand.
#[derive(Clone, Copy)]
pub enum Follow {
    /// It is an operator between two.
    Goes(Infix),
    /// It is a `?`.
    Asks,
    /// It is a `:`.
    Parts,
    /// It is a `)`.
    Closes,
}

/// The level of `?:`.
const CHOICE_LEVEL: u8 = 0;

/// The level of the operators before their operand.
const PREFIX_LEVEL: u8 = 11;

fn is_open(mark: Mark) -> bool
    ensures { result ≡ spec.is_open mark }
{
    matches!(mark, Mark::OpenParen)
}

/// What a mark does where an operand is wanted.
pub fn lead_of(mark: Mark) -> Option<Frame>
    ensures { result ≡ spec.lead_of mark }
{
    if is_open(mark) {
        return Some(Frame::Group);
    }
    match prefix_of(mark) {
        Some(op) => Some(Frame::Prefix(op)),
        None => None,
    }
}

fn special_follow(mark: Mark) -> Option<Follow>
    ensures { result ≡ spec.special_follow mark }
{
    match mark {
        Mark::Question => Some(Follow::Asks),
        Mark::Colon => Some(Follow::Parts),
        Mark::CloseParen => Some(Follow::Closes),
        _ => None,
    }
}

fn goes(op: Option<Infix>) -> Option<Follow>
    ensures { result ≡ option_map Follow.Goes op }
{
    match op {
        Some(op) => Some(Follow::Goes(op)),
        None => None,
    }
}

/// What a mark does behind an operand.
pub fn follow_of(mark: Mark) -> Option<Follow>
    ensures { result ≡ spec.follow_of mark }
{
    match special_follow(mark) {
        Some(follow) => Some(follow),
        None => goes(infix_of(mark)),
    }
}

/// The level at which a mark behind an operand binds: that of the operator, one above that of `?:` for a `?` (C90
/// 6.3.15), and that of `?:` for a `:` or a `)`. What waits at this level or a higher one is applied first.
pub fn follow_level(follow: Follow) -> u8
    ensures { result ≡ spec.follow_level follow }
{
    match follow {
        Follow::Goes(op) => level(op),
        Follow::Asks => CHOICE_LEVEL + 1,
        Follow::Parts | Follow::Closes => CHOICE_LEVEL,
    }
}

fn binds(at: u8, frame: Frame) -> bool
    ensures { result ≡ spec.binds at frame }
{
    match frame {
        Frame::Group | Frame::Question(_) => false,
        Frame::Prefix(_) => at <= PREFIX_LEVEL,
        Frame::Between(op, _) => at <= level(op),
        Frame::Colon(_, _) => at <= CHOICE_LEVEL,
    }
}

fn between(op: Infix, a: Number, b: Number) -> Number
    ensures { result ≡ between op a b }
{
    match op {
        Infix::Binary(op) => binary(op, a, b),
        Infix::Logic(op) => logic(op, a, b),
    }
}

fn applied(frame: Frame, operand: Number) -> Number
    ensures { result ≡ spec.applied frame operand }
{
    match frame {
        Frame::Group | Frame::Question(_) => operand,
        Frame::Prefix(op) => unary(op, operand),
        Frame::Between(op, left) => between(op, left, operand),
        Frame::Colon(condition, left) => conditional(condition, left, operand),
    }
}

/// The condition of a `?` that waits.
pub fn asked(frame: Frame) -> Option<Number>
    ensures { result ≡ spec.asked frame }
{
    match frame {
        Frame::Question(condition) => Some(condition),
        Frame::Group | Frame::Prefix(_) | Frame::Between(_, _) | Frame::Colon(_, _) => None,
    }
}

/// Whether what waits is a `(`, for its `)`.
pub fn is_group(frame: Frame) -> bool
    ensures { result ≡ spec.is_group frame }
{
    matches!(frame, Frame::Group)
}

/// What operands and frames became.
#[derive(Clone, Copy)]
pub struct Reduced {
    /// The operand that the frames made.
    pub operand: Number,
    /// The innermost frame that did not take it, which is taken off the others.
    pub inner: Option<Frame>,
}

/// Gives an operand to the innermost frames as long as they bind at a level.
#[tactic(auto, using(crate::proofs::Stack::reduced_less, crate::proofs::Stack::reduced_none))]
pub fn reduce(at: u8, first: Number, frames: &mut Items<Frame>) -> Reduced
    ensures same { spec.reduced at first (reverse frames.old) ≡ (result.operand, spec.with_inner result.inner (reverse frames.new)) }
    ensures all { result.inner ≡ None → frames.new ≡ [] }
{
    let mut operand = first;
    while let Some(frame) = frames.pop() {
        if !binds(at, frame) {
            return Reduced {
                operand,
                inner: Some(frame),
            };
        }
        operand = applied(frame, operand);
    }
    Reduced {
        operand,
        inner: None,
    }
}
