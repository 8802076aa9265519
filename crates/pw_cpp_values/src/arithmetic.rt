//! Operators on numbers.

ghost use Rattle.std.specs.Prelude.{◌≡◌, option_and_then};
ghost use Rattle.pw_cpp_values.specs.Arithmetic as spec;

use pw_types::{BinaryOperator, LogicOperator, UnaryOperator};
use pw_value::WordFault;
use pw_value::words::{
    complement, shift_left, signed_at_most, signed_difference, signed_less, signed_negation,
    signed_product, signed_quotient, signed_remainder, signed_shift_right, signed_sum,
    unsigned_at_most, unsigned_difference, unsigned_less, unsigned_negation, unsigned_product,
    unsigned_quotient, unsigned_remainder, unsigned_shift_right, unsigned_sum,
};

/// A number of `#if`: a word of unsigned long, or of long in two's complement. It has no word where something that is evaluated
/// has no value, as behind an overflow.
#[derive(Clone, Copy)]
pub struct Number {
    pub unsigned: bool,
    pub word: Option<u32>,
}

fn outcome(answer: Result<u32, WordFault>) -> Option<u32>
    ensures { result ≡ spec.outcome answer }
{
    match answer {
        Ok(word) => Some(word),
        Err(_) => None,
    }
}

fn truth(holds: bool) -> u32
    ensures { result ≡ spec.truth holds }
{
    if holds { 1 } else { 0 }
}

fn either_word(
    unsigned: bool,
    of_unsigned: Result<u32, WordFault>,
    of_signed: Result<u32, WordFault>,
) -> Option<u32>
    ensures { result ≡ spec.either_word unsigned of_unsigned of_signed }
{
    outcome(if unsigned { of_unsigned } else { of_signed })
}

fn unary_word(op: UnaryOperator, unsigned: bool, a: u32) -> Option<u32>
    ensures { result ≡ spec.unary_word op unsigned a }
{
    match op {
        UnaryOperator::Plus => Some(a),
        UnaryOperator::Minus => either_word(unsigned, Ok(unsigned_negation(a)), signed_negation(a)),
        UnaryOperator::Complement => Some(complement(a)),
        UnaryOperator::Not => Some(truth(a == 0)),
    }
}

fn keeps_type(op: UnaryOperator) -> bool
    ensures { result ≡ spec.keeps_type op }
{
    match op {
        UnaryOperator::Plus | UnaryOperator::Minus | UnaryOperator::Complement => true,
        UnaryOperator::Not => false,
    }
}

fn unary_result(op: UnaryOperator, unsigned: bool, a: Option<u32>) -> Option<u32>
    ensures { result ≡ option_and_then (spec.unary_word op unsigned) a }
{
    match a {
        Some(a) => unary_word(op, unsigned, a),
        None => None,
    }
}

/// What a unary operator makes of a number (6.3.3.3).
pub fn unary(op: UnaryOperator, a: Number) -> Number
    ensures { result ≡ spec.unary op a }
{
    let unsigned = keeps_type(op) && a.unsigned;
    let word = unary_result(op, a.unsigned, a.word);
    Number { unsigned, word }
}

fn either_truth(unsigned: bool, of_unsigned: bool, of_signed: bool) -> Option<u32>
    ensures { result ≡ spec.either_truth unsigned of_unsigned of_signed }
{
    Some(truth(if unsigned { of_unsigned } else { of_signed }))
}

fn binary_word(op: BinaryOperator, unsigned: bool, a: u32, b: u32) -> Option<u32>
    ensures { result ≡ spec.binary_word op unsigned a b }
{
    let u = unsigned;
    match op {
        BinaryOperator::Add => either_word(u, Ok(unsigned_sum(a, b)), signed_sum(a, b)),
        BinaryOperator::Subtract => either_word(
            u,
            Ok(unsigned_difference(a, b)),
            signed_difference(a, b),
        ),
        BinaryOperator::Multiply => either_word(
            u,
            Ok(unsigned_product(a, b)),
            signed_product(a, b),
        ),
        BinaryOperator::Divide => either_word(u, unsigned_quotient(a, b), signed_quotient(a, b)),
        BinaryOperator::Remainder => either_word(
            u,
            unsigned_remainder(a, b),
            signed_remainder(a, b),
        ),
        BinaryOperator::ShiftLeft => outcome(shift_left(a, b)),
        BinaryOperator::ShiftRight => either_word(
            u,
            unsigned_shift_right(a, b),
            signed_shift_right(a, b),
        ),
        BinaryOperator::Less => either_truth(u, unsigned_less(a, b), signed_less(a, b)),
        BinaryOperator::Greater => either_truth(u, unsigned_less(b, a), signed_less(b, a)),
        BinaryOperator::LessEqual => either_truth(u, unsigned_at_most(a, b), signed_at_most(a, b)),
        BinaryOperator::GreaterEqual => either_truth(
            u,
            unsigned_at_most(b, a),
            signed_at_most(b, a),
        ),
        BinaryOperator::Equal => Some(truth(a == b)),
        BinaryOperator::NotEqual => Some(truth(a != b)),
        BinaryOperator::And => Some(a & b),
        BinaryOperator::ExclusiveOr => Some(a ^ b),
        BinaryOperator::Or => Some(a | b),
    }
}

fn is_shift(op: BinaryOperator) -> bool
    ensures { result ≡ spec.is_shift op }
{
    matches!(op, BinaryOperator::ShiftLeft | BinaryOperator::ShiftRight)
}

fn is_comparison(op: BinaryOperator) -> bool
    ensures { result ≡ spec.is_comparison op }
{
    matches!(
        op,
        BinaryOperator::Less
            | BinaryOperator::Greater
            | BinaryOperator::LessEqual
            | BinaryOperator::GreaterEqual
            | BinaryOperator::Equal
            | BinaryOperator::NotEqual
    )
}

fn works_unsigned(op: BinaryOperator, a: Number, b: Number) -> bool
    ensures { result ≡ spec.works_unsigned op a b }
{
    if is_shift(op) {
        a.unsigned
    } else {
        a.unsigned || b.unsigned
    }
}

fn gives_unsigned(op: BinaryOperator, a: Number, b: Number) -> bool
    ensures { result ≡ spec.gives_unsigned op a b }
{
    if is_comparison(op) {
        false
    } else {
        works_unsigned(op, a, b)
    }
}

fn both_words(op: BinaryOperator, unsigned: bool, a: Option<u32>, b: Option<u32>) -> Option<u32>
    ensures { result ≡ spec.both_words a b (spec.binary_word op unsigned) }
{
    match a {
        Some(a) => match b {
            Some(b) => binary_word(op, unsigned, a, b),
            None => None,
        },
        None => None,
    }
}

/// What a binary operator makes of two numbers (6.3.5 to 6.3.12).
pub fn binary(op: BinaryOperator, a: Number, b: Number) -> Number
    ensures { result ≡ spec.binary op a b }
{
    let unsigned = works_unsigned(op, a, b);
    let word = both_words(op, unsigned, a.word, b.word);
    Number {
        unsigned: gives_unsigned(op, a, b),
        word,
    }
}

fn truth_of(b: Option<u32>) -> Option<u32>
    ensures { result ≡ spec.truth_of b }
{
    match b {
        Some(b) => Some(truth(b != 0)),
        None => None,
    }
}

fn logic_word(op: LogicOperator, a: u32, b: Option<u32>) -> Option<u32>
    ensures { result ≡ spec.logic_word op b a }
{
    match op {
        LogicOperator::And => if a != 0 { truth_of(b) } else { Some(0) },
        LogicOperator::Or => if a != 0 { Some(1) } else { truth_of(b) },
    }
}

fn logic_result(op: LogicOperator, a: Option<u32>, b: Option<u32>) -> Option<u32>
    ensures { result ≡ option_and_then (spec.logic_word op b) a }
{
    match a {
        Some(a) => logic_word(op, a, b),
        None => None,
    }
}

/// What `&&` or `||` makes of two numbers (6.3.13, 6.3.14).
pub fn logic(op: LogicOperator, a: Number, b: Number) -> Number
    ensures { result ≡ spec.logic op a b }
{
    let word = logic_result(op, a.word, b.word);
    Number {
        unsigned: false,
        word,
    }
}

fn choice(c: Option<u32>, a: Option<u32>, b: Option<u32>) -> Option<u32>
    ensures { result ≡ spec.choice c a b }
{
    match c {
        Some(c) => if c != 0 { a } else { b },
        None => None,
    }
}

/// What `?:` makes of three numbers (6.3.15).
pub fn conditional(c: Number, a: Number, b: Number) -> Number
    ensures { result ≡ spec.conditional c a b }
{
    let word = choice(c.word, a.word, b.word);
    Number {
        unsigned: a.unsigned || b.unsigned,
        word,
    }
}
