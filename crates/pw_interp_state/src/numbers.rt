//! Operators on numbers (ISO C90 6.3.3.3, 6.3.5 to 6.3.12).

ghost use Rattle.std.specs.Prelude.{◌≡◌};
ghost use Rattle.pw_cmean.specs.Operators as meaning;
ghost use Rattle.pw_interp_state.specs.Operations as spec;

use crate::category::Category;
use crate::fault::Fault;
use pw_cmean::Undef;
use pw_types::{BinaryOperator, IntKind, UnaryOperator};
use pw_value::Value;
use pw_value::words::{
    WordFault, complement, is_at_most, is_less, shift_left, signed_difference, signed_negation,
    signed_product, signed_quotient, signed_remainder, signed_shift_right, signed_sum,
    unsigned_difference, unsigned_negation, unsigned_product, unsigned_quotient,
    unsigned_remainder, unsigned_shift_right, unsigned_sum,
};

/// 1 where it holds, and else 0.
pub(crate) fn number_for(holds: bool) -> u32
    ensures { result ≡ meaning.number_for holds }
{
    u32::from(holds)
}

/// A sum, difference, product, quotient or remainder, or a shift; of an operator of another sort a comparison.
pub(crate) fn arithmetic(op: BinaryOperator, signed: bool, a: u32, b: u32) -> Result<u32, WordFault>
    ensures { result ≡ meaning.arithmetic op signed a b }
{
    match (op, signed) {
        (BinaryOperator::Add, true) => signed_sum(a, b),
        (BinaryOperator::Add, false) => Ok(unsigned_sum(a, b)),
        (BinaryOperator::Subtract, true) => signed_difference(a, b),
        (BinaryOperator::Subtract, false) => Ok(unsigned_difference(a, b)),
        (BinaryOperator::Multiply, true) => signed_product(a, b),
        (BinaryOperator::Multiply, false) => Ok(unsigned_product(a, b)),
        (BinaryOperator::Divide, true) => signed_quotient(a, b),
        (BinaryOperator::Divide, false) => unsigned_quotient(a, b),
        (BinaryOperator::Remainder, true) => signed_remainder(a, b),
        (BinaryOperator::Remainder, false) => unsigned_remainder(a, b),
        (BinaryOperator::ShiftLeft, _) => shift_left(a, b),
        (BinaryOperator::ShiftRight, true) => signed_shift_right(a, b),
        (BinaryOperator::ShiftRight, false) => unsigned_shift_right(a, b),
        (BinaryOperator::Less, _) => Ok(number_for(is_less(signed, a, b))),
        (BinaryOperator::Greater, _) => Ok(number_for(is_less(signed, b, a))),
        (BinaryOperator::LessEqual, _) => Ok(number_for(is_at_most(signed, a, b))),
        (BinaryOperator::GreaterEqual, _) => Ok(number_for(is_at_most(signed, b, a))),
        (BinaryOperator::Equal, _) => Ok(number_for(a == b)),
        (BinaryOperator::NotEqual, _) => Ok(number_for(a != b)),
        (BinaryOperator::And, _) => Ok(a & b),
        (BinaryOperator::ExclusiveOr, _) => Ok(a ^ b),
        (BinaryOperator::Or, _) => Ok(a | b),
    }
}

/// The value that an operation on words gives, or which operation it is.
pub(crate) fn word_answer(answer: Result<u32, WordFault>) -> Result<Value, Fault>
    ensures { result ≡ spec.word_answer answer }
{
    match answer {
        Ok(n) => Ok(Value::Num(n)),
        Err(WordFault::Overflow) => Err(Fault::Undefined(Undef::SignedOverflow)),
        Err(WordFault::ZeroDivisor) => Err(Fault::Undefined(Undef::ZeroDivisor)),
        Err(WordFault::ShiftCount) => Err(Fault::Undefined(Undef::ShiftCount)),
    }
}

/// A binary operator on numbers of a kind.
pub(crate) fn on_numbers(
    op: BinaryOperator,
    kind: IntKind,
    v: Value,
    w: Value,
) -> Result<Value, Fault>
    ensures { result ≡ spec.numbers_by op kind v w }
{
    match (v, w) {
        (Value::Num(a), Value::Num(b)) => word_answer(arithmetic(op, kind.is_signed(), a, b)),
        _ => Err(Fault::Wrong),
    }
}

/// The negation of a word.
fn negation(signed: bool, n: u32) -> Result<u32, WordFault>
    ensures { result ≡ meaning.negation signed n }
{
    if signed {
        signed_negation(n)
    } else {
        Ok(unsigned_negation(n))
    }
}

/// A unary operator other than `!` on a number.
pub(crate) fn unary_number(op: UnaryOperator, category: Category, v: Value) -> Result<Value, Fault>
    ensures { result ≡ spec.unary_number_by op category v }
{
    let (Category::Int(kind), Value::Num(n)) = (category, v) else {
        return Err(Fault::Wrong);
    };
    match op {
        UnaryOperator::Minus => word_answer(negation(kind.is_signed(), n)),
        UnaryOperator::Plus => Ok(Value::Num(n)),
        UnaryOperator::Complement => Ok(Value::Num(complement(n))),
        UnaryOperator::Not => Err(Fault::Wrong),
    }
}
