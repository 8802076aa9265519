//! Operators on words in constant expressions (ISO C90 6.3, 6.4).

ghost use Rattle.std.specs.Prelude.{◌≡◌, if◌then◌else◌, Ok};
ghost use Rattle.pw_check_constants.specs.Views.{view_constancy};
ghost use Rattle.pw_check_rules.specs.Constants as spec;
ghost use Rattle.pw_value.specs.Words as words;

use crate::constancy::Constancy;
use pw_types::{BinaryOperator, IntKind, LogicOperator, UnaryOperator, convert};
use pw_value::words::{
    complement, is_at_most, is_less, shift_left, signed_difference, signed_negation,
    signed_product, signed_quotient, signed_remainder, signed_shift_right, signed_sum,
    unsigned_difference, unsigned_negation, unsigned_product, unsigned_quotient,
    unsigned_remainder, unsigned_shift_right, unsigned_sum,
};
use pw_value::{Value, WordFault};

/// 1 where something holds, else 0.
fn truth(holds: bool) -> u32
    ensures { result ≡ spec.truth holds }
{
    if holds { 1 } else { 0 }
}

/// A comparison, as a constant.
fn decided(holds: bool) -> Constancy
    ensures { view_constancy result ≡ spec.Known (spec.truth holds) }
{
    Constancy::Known(truth(holds))
}

/// The answer of an operation on words, as a constant.
fn by_result(answer: Result<u32, WordFault>) -> Constancy
    ensures { view_constancy result ≡ spec.by_result answer }
{
    match answer {
        Ok(n) => Constancy::Known(n),
        Err(_) => Constancy::NoValue,
    }
}

/// The low bits of a word, as a value of the type.
pub fn convert_word(kind: IntKind, n: u32) -> u32
    ensures { result ≡ spec.convert_word kind n }
{
    match convert(Value::Num(n), kind) {
        Value::Num(converted) => converted,
        Value::Undefined | Value::Null | Value::At(_) | Value::Piece(_, _) => n,
    }
}

/// A unary operator on a word of the type (ISO C90 6.3.3.3).
pub fn unary_word(operator: UnaryOperator, kind: IntKind, n: u32) -> Constancy
    ensures { view_constancy result ≡ spec.unary_word operator kind n }
{
    match operator {
        UnaryOperator::Plus => Constancy::Known(n),
        UnaryOperator::Minus => negation(kind.is_signed(), n),
        UnaryOperator::Complement => Constancy::Known(complement(n)),
        UnaryOperator::Not => decided(n == 0),
    }
}

/// The negation of a word, signed or unsigned.
fn negation(signed: bool, n: u32) -> Constancy
    ensures { view_constancy result ≡ (if signed then spec.by_result (words.signed_negation n) else spec.Known (words.unsigned_negation n)) }
{
    if signed {
        by_result(signed_negation(n))
    } else {
        Constancy::Known(unsigned_negation(n))
    }
}

/// A binary operator on two words of the type of the left one (ISO C90 6.3.5 to 6.3.12).
pub fn binary_word(operator: BinaryOperator, signed: bool, a: u32, b: u32) -> Constancy
    ensures { view_constancy result ≡ spec.binary_word operator signed a b }
{
    match operator {
        BinaryOperator::Add => by_result(sum(signed, a, b)),
        BinaryOperator::Subtract => by_result(difference(signed, a, b)),
        BinaryOperator::Multiply => by_result(product(signed, a, b)),
        BinaryOperator::Divide => by_result(quotient(signed, a, b)),
        BinaryOperator::Remainder => by_result(remainder(signed, a, b)),
        BinaryOperator::ShiftLeft => by_result(shift_left(a, b)),
        BinaryOperator::ShiftRight => by_result(shift_right(signed, a, b)),
        BinaryOperator::Less => decided(is_less(signed, a, b)),
        BinaryOperator::Greater => decided(is_less(signed, b, a)),
        BinaryOperator::LessEqual => decided(is_at_most(signed, a, b)),
        BinaryOperator::GreaterEqual => decided(is_at_most(signed, b, a)),
        BinaryOperator::Equal => decided(a == b),
        BinaryOperator::NotEqual => decided(a != b),
        BinaryOperator::And => Constancy::Known(a & b),
        BinaryOperator::ExclusiveOr => Constancy::Known(a ^ b),
        BinaryOperator::Or => Constancy::Known(a | b),
    }
}

/// The sum of two words, signed or unsigned.
fn sum(signed: bool, a: u32, b: u32) -> Result<u32, WordFault>
    ensures { result ≡ (if signed then words.signed_sum a b else Ok (words.unsigned_sum a b)) }
{
    if signed {
        signed_sum(a, b)
    } else {
        Ok(unsigned_sum(a, b))
    }
}

/// The difference of two words, signed or unsigned.
fn difference(signed: bool, a: u32, b: u32) -> Result<u32, WordFault>
    ensures { result ≡ (if signed then words.signed_difference a b else Ok (words.unsigned_difference a b)) }
{
    if signed {
        signed_difference(a, b)
    } else {
        Ok(unsigned_difference(a, b))
    }
}

/// The product of two words, signed or unsigned.
fn product(signed: bool, a: u32, b: u32) -> Result<u32, WordFault>
    ensures { result ≡ (if signed then words.signed_product a b else Ok (words.unsigned_product a b)) }
{
    if signed {
        signed_product(a, b)
    } else {
        Ok(unsigned_product(a, b))
    }
}

/// The quotient of two words, signed or unsigned.
fn quotient(signed: bool, a: u32, b: u32) -> Result<u32, WordFault>
    ensures { result ≡ (if signed then words.signed_quotient a b else words.unsigned_quotient a b) }
{
    if signed {
        signed_quotient(a, b)
    } else {
        unsigned_quotient(a, b)
    }
}

/// What the quotient of two words leaves, signed or unsigned.
fn remainder(signed: bool, a: u32, b: u32) -> Result<u32, WordFault>
    ensures { result ≡ (if signed then words.signed_remainder a b else words.unsigned_remainder a b) }
{
    if signed {
        signed_remainder(a, b)
    } else {
        unsigned_remainder(a, b)
    }
}

/// The bits of a word moved to the right, signed or unsigned.
fn shift_right(signed: bool, a: u32, count: u32) -> Result<u32, WordFault>
    ensures { result ≡ (if signed then words.signed_shift_right a count else words.unsigned_shift_right a count) }
{
    if signed {
        signed_shift_right(a, count)
    } else {
        unsigned_shift_right(a, count)
    }
}

/// `&&` and `||`, of whose second operand the form alone counts where the first decides (ISO C90 6.3.13, 6.3.14).
pub fn logic_word(operator: LogicOperator, a: u32, b: Constancy) -> Constancy
    ensures { view_constancy result ≡ spec.logic_word operator a (view_constancy b) }
{
    let decides = match operator {
        LogicOperator::And => a == 0,
        LogicOperator::Or => a != 0,
    };
    match b {
        Constancy::NoConstant => Constancy::NoConstant,
        Constancy::Known(_) | Constancy::NoValue if decides => decided(a != 0),
        Constancy::Known(n) => decided(n != 0),
        Constancy::NoValue => Constancy::NoValue,
    }
}

/// `?:`, of which one of the two is evaluated (ISO C90 6.3.15).
pub fn choice_word(condition: u32, a: Constancy, b: Constancy) -> Constancy
    ensures { view_constancy result ≡ spec.choice_word condition (view_constancy a) (view_constancy b) }
{
    let (chosen, other) = if condition == 0 { (b, a) } else { (a, b) };
    match other {
        Constancy::NoConstant => Constancy::NoConstant,
        Constancy::Known(_) | Constancy::NoValue => chosen,
    }
}
