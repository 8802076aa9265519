//! Integer constants (C90 6.1.3.2).

ghost use Rattle.std.specs.Prelude.{◌≡◌, ◌≤◌, ◌^◌, min, Some, find, nat_le};
ghost use Rattle.std.specs.List.{list_any};
ghost use Rattle.pw_check_literals.specs.Integers as spec;

use pw_types::IntKind;
use pw_value::words::INT_MAX;

/// An integer constant: its value and its type.
#[derive(Clone, Copy)]
pub struct IntegerConstant {
    pub value: u32,
    pub kind: IntKind,
}

/// The least number that no type holds.
const TOO_WIDE: u64 = 1 << 32;

/// The value of a digit's byte, 0 to 15: `a` to `f` and `A` to `F` are 10 to 15. A byte that is no digit gets a value
/// that means nothing.
pub fn digit_value(c: u8) -> u8
    ensures { result ≡ spec.digit_value c }
{
    if c >= 97 {
        c - 87
    } else if c >= 65 {
        c - 55
    } else {
        c.saturating_sub(48)
    }
}

fn is_unsigned_mark(c: u8) -> bool
    ensures { result ≡ spec.is_unsigned_mark c }
{
    c == b'u' || c == b'U'
}

fn is_long_mark(c: u8) -> bool
    ensures { result ≡ spec.is_long_mark c }
{
    c == b'l' || c == b'L'
}

/// The number that the digits before the suffix stand for, or `TOO_WIDE` where it is no less.
#[tactic(auto, using(crate::proofs::Numbers::digit_more, crate::proofs::Numbers::digits_end))]
fn number(base: u8, digits: &[u8]) -> u64
    requires { (1 ≤ base) × (base ≤ 16) }
    ensures { result ≡ min (spec.number_in base (spec.without_suffix digits.now)) (2 ^ 32) }
{
    let mut number = 0u64;
    let mut rest = digits;
    while let [c, after @ ..] = rest {
        if is_unsigned_mark(*c) || is_long_mark(*c) {
            return number;
        }
        number = (number * base as u64 + digit_value(*c) as u64).min(TOO_WIDE);
        rest = after;
    }
    number
}

/// The value of a constant, or `TOO_WIDE` where it is no less.
fn value(text: &[u8]) -> u64
    ensures { result ≡ min (spec.integer_value text.now) (2 ^ 32) }
{
    match text {
        [b'0', b'x' | b'X', digits @ ..] => number(16, digits),
        [b'0', digits @ ..] => number(8, digits),
        digits => number(10, digits),
    }
}

/// Whether the constant has a `u` in its suffix.
fn has_unsigned_mark(text: &[u8]) -> bool
    ensures { result ≡ list_any spec.is_unsigned_mark text.now }
{
    let mut rest = text;
    while let [c, after @ ..] = rest {
        if is_unsigned_mark(*c) {
            return true;
        }
        rest = after;
    }
    false
}

/// Whether the constant has an `l` in its suffix.
fn has_long_mark(text: &[u8]) -> bool
    ensures { result ≡ list_any spec.is_long_mark text.now }
{
    let mut rest = text;
    while let [c, after @ ..] = rest {
        if is_long_mark(*c) {
            return true;
        }
        rest = after;
    }
    false
}

/// Whether the constant is decimal: it does not begin with 0.
fn is_decimal(text: &[u8]) -> bool
    ensures { result ≡ spec.is_decimal text.now }
{
    match text {
        [first, ..] => *first != b'0',
        [] => true,
    }
}

/// The first type that holds the value, of those that a constant with these marks may have.
fn kind_of(value: u32, decimal: bool, unsigned: bool, long: bool) -> IntKind
    ensures { Some result ≡ find (λ kind. nat_le value (spec.greatest_of_kind kind)) (spec.types_of_constant decimal unsigned long) }
{
    let signed_holds = value <= INT_MAX;
    match (unsigned, long) {
        (true, true) => IntKind::ULong,
        (true, false) => IntKind::UInt,
        (false, true) if signed_holds => IntKind::Long,
        (false, false) if signed_holds => IntKind::Int,
        (false, false) if !decimal => IntKind::UInt,
        _ => IntKind::ULong,
    }
}

/// The value and the type of an integer constant, or None where it is too wide.
pub fn integer_constant(text: &[u8]) -> Option<IntegerConstant>
    ensures { result ≡ spec.integer_constant text.now }
{
    let value = value(text);
    if value >= TOO_WIDE {
        return None;
    }
    let value = value as u32;
    let kind = kind_of(
        value,
        is_decimal(text),
        has_unsigned_mark(text),
        has_long_mark(text),
    );
    Some(IntegerConstant { value, kind })
}
