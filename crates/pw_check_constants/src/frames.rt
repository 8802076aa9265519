//! What operators make of their first operands, when their others are known. The first operands of a constant
//! expression are gone down by a loop, and the operators are done on the way back.

ghost use Rattle.std.specs.Prelude.{◌≡◌};
ghost use Rattle.pw_check_constants.specs.Frames as spec;
ghost use Rattle.pw_check_constants.specs.Views.{view_constancy};

use crate::constancy::Constancy;
use crate::words::{binary_word, choice_word, convert_word, logic_word, unary_word};
use pw_types::{BinaryOperator, IntKind, LogicOperator, UnaryOperator};

/// An operator without its first operand: with the type of that, or whether it is signed, and with what the others
/// are.
#[derive(Clone, Copy)]
pub enum Frame {
    /// A unary operator, with the type of its operand.
    Unary(UnaryOperator, IntKind),
    /// A binary operator, whether its first operand is signed, and what the second is.
    Binary(BinaryOperator, bool, Constancy),
    /// `&&` or `||`, and what the second operand is.
    Logic(LogicOperator, Constancy),
    /// `?:`, and what the second and the third operand are.
    Choice(Constancy, Constancy),
    /// A conversion to this type.
    Cast(IntKind),
}

impl Frame {
    /// What the operator makes of its first operand.
    pub fn applied(self, first: Constancy) -> Constancy
        ensures { view_constancy result ≡ spec.applied self (view_constancy first) }
    {
        match self {
            Frame::Unary(operator, kind) => match first {
                Constancy::Known(n) => unary_word(operator, kind, n),
                Constancy::NoConstant | Constancy::NoValue => first,
            },
            Frame::Binary(operator, signed, second) => binary(operator, signed, first, second),
            Frame::Logic(operator, second) => logic(operator, first, second),
            Frame::Choice(second, third) => choice(first, second, third),
            Frame::Cast(kind) => match first {
                Constancy::Known(n) => Constancy::Known(convert_word(kind, n)),
                Constancy::NoConstant | Constancy::NoValue => first,
            },
        }
    }
}

/// A binary operator, both of whose operands are evaluated.
fn binary(operator: BinaryOperator, signed: bool, first: Constancy, second: Constancy) -> Constancy
    ensures { view_constancy result ≡ spec.binary_of operator signed (view_constancy first) (view_constancy second) }
{
    match (first, second) {
        (Constancy::Known(a), Constancy::Known(b)) => binary_word(operator, signed, a, b),
        (Constancy::NoConstant, _) | (_, Constancy::NoConstant) => Constancy::NoConstant,
        (_, _) => Constancy::NoValue,
    }
}

/// `&&` and `||`, of which both operands are to have the form.
fn logic(operator: LogicOperator, first: Constancy, second: Constancy) -> Constancy
    ensures { view_constancy result ≡ spec.logic_of operator (view_constancy first) (view_constancy second) }
{
    match (first, second) {
        (_, Constancy::NoConstant) => Constancy::NoConstant,
        (Constancy::Known(a), _) => logic_word(operator, a, second),
        (_, _) => first,
    }
}

/// `?:`, of which all operands are to have the form.
fn choice(first: Constancy, second: Constancy, third: Constancy) -> Constancy
    ensures { view_constancy result ≡ spec.choice_of (view_constancy first) (view_constancy second) (view_constancy third) }
{
    match (first, second, third) {
        (_, Constancy::NoConstant, _) | (_, _, Constancy::NoConstant) => Constancy::NoConstant,
        (Constancy::Known(condition), _, _) => choice_word(condition, second, third),
        (_, _, _) => first,
    }
}

/// What the operators make, the last one first.
#[tactic(auto, using(crate::proofs::FrameLemmas::unwound_push))]
pub fn unwind(mut frames: Vec<Frame>, head: Constancy) -> Constancy
    ensures { view_constancy result ≡ spec.unwound frames.items (view_constancy head) }
{
    let mut value = head;
    while let Some(frame) = frames.pop() {
        value = frame.applied(value);
    }
    value
}
