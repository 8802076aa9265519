//! Arithmetic on words of 32 bits, as C has it for int and unsigned int (ISO C90 6.3). An int is given and
//! answered as the word that it stands in.

ghost use Rattle.std.specs.Prelude.{ℕ, ◌≡◌, ◌+◌, ◌-◌, ◌*◌, ◌%◌, ◌^◌, ◌<◌, ◌≤◌, Ok, MatchResult, if◌then◌else◌};
ghost use Rattle.pw_value.specs.Words as spec;

use std::alloc::AllocError;

/// Why an operation on words has no result: the exact result is no int, the divisor is zero, or the count
/// of a shift is not from 0 to 31.
#[derive(Clone, Copy, Debug)]
pub enum WordFault {
    Overflow,
    ZeroDivisor,
    ShiftCount,
}

/// The word of a count, as what counts in words has it.
///
/// # Errors
///
/// `AllocError` where the count takes more than 32 bits, and nowhere else.
pub fn word_of(count: usize) -> Result<u32, AllocError>
    ensures { MatchResult result (λ word. word ≡ count) (λ _. 2 ^ 32 ≤ count) }
{
    word_of_u64(count as u64)
}

/// The word of a number.
///
/// # Errors
///
/// `AllocError` where the number takes more than 32 bits, and nowhere else.
pub fn word_of_u64(number: u64) -> Result<u32, AllocError>
    ensures { MatchResult result (λ word. word ≡ number) (λ _. 2 ^ 32 ≤ number) }
{
    u32::try_from(number).ok().ok_or(AllocError)
}

/// The number behind a count, for what counts in words.
///
/// # Errors
///
/// `AllocError` where 32 bits cannot count it, and nowhere else. It takes no memory.
pub fn next_word(count: u32) -> Result<u32, AllocError>
    ensures { MatchResult result (λ next. next ≡ count + 1) (λ _. 2 ^ 32 ≤ count + 1) }
{
    count.checked_add(1).ok_or(AllocError)
}

/// The greatest int.
pub const INT_MAX: u32 = (1 << 31) - 1;

/// What a read of a byte answers at the end of the input: the word of -1 (7.9.7.6).
pub const END_OF_INPUT: u32 = u32::MAX;

/// The greatest int, and the word of the end of the input, are those of the definitions.
pub fn words_with_names()
    ensures int_max { INT_MAX ≡ spec.int_max }
    ensures end_of_input { END_OF_INPUT ≡ spec.end_of_input }
{}

/// The bits of a word inverted (6.3.3.3).
pub fn complement(a: u32) -> u32
    ensures { result ≡ spec.complement a }
{
    u32::MAX - a
}

/// Whether a word stands for a negative number, where it is an int's or an unsigned int's.
pub fn is_negative(signed: bool, a: u32) -> bool
    ensures { result ≡ spec.is_negative signed a }
{
    signed && a > INT_MAX
}

/// How far from 0 the number is that a word stands for, where it is negative or not.
pub fn magnitude(negative: bool, a: u32) -> u64
    ensures value { result ≡ spec.magnitude negative a }
    ensures fits { result ≤ 2 ^ 32 }
{
    if negative {
        (1 << 32) - u64::from(a)
    } else {
        u64::from(a)
    }
}

/// The sum of unsigned ints, modulo 2^32 (C90 6.1.2.5).
pub fn unsigned_sum(a: u32, b: u32) -> u32
    ensures { result ≡ spec.unsigned_sum a b }
{
    a.wrapping_add(b)
}

/// The difference of unsigned ints, modulo 2^32 (C90 6.1.2.5).
pub fn unsigned_difference(a: u32, b: u32) -> u32
    ensures { result ≡ spec.unsigned_difference a b }
{
    a.wrapping_sub(b)
}

/// The product of unsigned ints, modulo 2^32 (C90 6.1.2.5).
pub fn unsigned_product(a: u32, b: u32) -> u32
    ensures { result ≡ spec.unsigned_product a b }
{
    a.wrapping_mul(b)
}

/// The negation of an unsigned int, modulo 2^32 (C90 6.1.2.5).
pub fn unsigned_negation(a: u32) -> u32
    ensures { result ≡ spec.unsigned_negation a }
{
    unsigned_difference(0, a)
}

/// The quotient of unsigned ints, or the fault of a zero divisor (C90 6.3.5).
pub fn unsigned_quotient(a: u32, b: u32) -> Result<u32, WordFault>
    ensures { result ≡ spec.unsigned_quotient a b }
{
    if b == 0 {
        return Err(WordFault::ZeroDivisor);
    }
    Ok(a / b)
}

/// The remainder of unsigned ints, or the fault of a zero divisor (C90 6.3.5).
pub fn unsigned_remainder(a: u32, b: u32) -> Result<u32, WordFault>
    ensures { result ≡ spec.unsigned_remainder a b }
{
    if b == 0 {
        return Err(WordFault::ZeroDivisor);
    }
    Ok(a % b)
}

/// Whether an unsigned int is less than another.
pub fn unsigned_less(a: u32, b: u32) -> bool
    ensures { result ≡ spec.unsigned_less a b }
{
    a < b
}

/// Whether an unsigned int is less than another or equal to it.
pub fn unsigned_at_most(a: u32, b: u32) -> bool
    ensures { result ≡ spec.unsigned_at_most a b }
{
    a <= b
}

/// The sum of ints in two's complement, or the fault of an overflow (C90 6.3).
pub fn signed_sum(a: u32, b: u32) -> Result<u32, WordFault>
    ensures { result ≡ spec.signed_sum a b }
{
    match a.cast_signed().checked_add(b.cast_signed()) {
        Some(sum) => Ok(sum.cast_unsigned()),
        None => Err(WordFault::Overflow),
    }
}

/// The difference of ints in two's complement, or the fault of an overflow (C90 6.3).
pub fn signed_difference(a: u32, b: u32) -> Result<u32, WordFault>
    ensures { result ≡ spec.signed_difference a b }
{
    match a.cast_signed().checked_sub(b.cast_signed()) {
        Some(difference) => Ok(difference.cast_unsigned()),
        None => Err(WordFault::Overflow),
    }
}

/// The product of ints in two's complement, or the fault of an overflow (C90 6.3).
pub fn signed_product(a: u32, b: u32) -> Result<u32, WordFault>
    ensures { result ≡ spec.signed_product a b }
{
    match a.cast_signed().checked_mul(b.cast_signed()) {
        Some(product) => Ok(product.cast_unsigned()),
        None => Err(WordFault::Overflow),
    }
}

/// The negation of an int in two's complement, or the fault of an overflow: that of the least int (C90 6.3).
pub fn signed_negation(a: u32) -> Result<u32, WordFault>
    ensures { result ≡ spec.signed_negation a }
{
    match a.cast_signed().checked_neg() {
        Some(negation) => Ok(negation.cast_unsigned()),
        None => Err(WordFault::Overflow),
    }
}

/// The quotient of ints, toward zero, or the fault of a zero divisor or of an overflow (C90 6.3.5).
pub fn signed_quotient(a: u32, b: u32) -> Result<u32, WordFault>
    ensures { result ≡ spec.signed_quotient a b }
{
    if b == 0 {
        return Err(WordFault::ZeroDivisor);
    }
    match a.cast_signed().checked_div(b.cast_signed()) {
        Some(quotient) => Ok(quotient.cast_unsigned()),
        None => Err(WordFault::Overflow),
    }
}

/// What the quotient of ints leaves, where an int can hold the quotient.
pub fn signed_remainder(a: u32, b: u32) -> Result<u32, WordFault>
    ensures { result ≡ spec.signed_remainder a b }
{
    if b == 0 {
        return Err(WordFault::ZeroDivisor);
    }
    match a.cast_signed().checked_rem(b.cast_signed()) {
        Some(remainder) => Ok(remainder.cast_unsigned()),
        None => Err(WordFault::Overflow),
    }
}

/// Whether an int is less than another.
#[inline(always)]
pub fn signed_less(a: u32, b: u32) -> bool
    ensures { result ≡ spec.signed_less a b }
{
    a.cast_signed() < b.cast_signed()
}

/// Whether an int is less than another or equal to it.
#[inline(always)]
pub fn signed_at_most(a: u32, b: u32) -> bool
    ensures { result ≡ spec.signed_at_most a b }
{
    a.cast_signed() <= b.cast_signed()
}

/// Whether a word is less than another, as ints or as unsigned ints.
pub fn is_less(signed: bool, a: u32, b: u32) -> bool
    ensures { result ≡ (if signed then spec.signed_less a b else spec.unsigned_less a b) }
{
    if signed {
        signed_less(a, b)
    } else {
        unsigned_less(a, b)
    }
}

/// Whether a word is less than another or equal to it, as ints or as unsigned ints.
pub fn is_at_most(signed: bool, a: u32, b: u32) -> bool
    ensures { result ≡ (if signed then spec.signed_at_most a b else spec.unsigned_at_most a b) }
{
    if signed {
        signed_at_most(a, b)
    } else {
        unsigned_at_most(a, b)
    }
}

/// The bits of a word moved to the left.
pub fn shift_left(a: u32, count: u32) -> Result<u32, WordFault>
    ensures { result ≡ spec.shift_left a count }
{
    if count > 31 {
        return Err(WordFault::ShiftCount);
    }
    Ok(a << count)
}

/// The bits of an unsigned int moved to the right.
pub fn unsigned_shift_right(a: u32, count: u32) -> Result<u32, WordFault>
    ensures { result ≡ spec.unsigned_shift_right a count }
{
    if count > 31 {
        return Err(WordFault::ShiftCount);
    }
    Ok(a >> count)
}

/// The bits of an int moved to the right, with its sign behind them.
pub fn signed_shift_right(a: u32, count: u32) -> Result<u32, WordFault>
    ensures { result ≡ spec.signed_shift_right a count }
{
    if count > 31 {
        return Err(WordFault::ShiftCount);
    }
    Ok((a.cast_signed() >> count).cast_unsigned())
}

/// Where an int can hold the exact result, it is the unsigned result of the same words.
pub fn signed_results_are_unsigned()
    ensures sum { (a b s : ℕ) → a < 2 ^ 32 → b < 2 ^ 32 → spec.signed_sum a b ≡ Ok s → s ≡ spec.unsigned_sum a b }
    ensures difference { (a b s : ℕ) → a < 2 ^ 32 → b < 2 ^ 32 → spec.signed_difference a b ≡ Ok s → s ≡ spec.unsigned_difference a b }
    ensures product { (a b s : ℕ) → a < 2 ^ 32 → b < 2 ^ 32 → spec.signed_product a b ≡ Ok s → s ≡ spec.unsigned_product a b }
    ensures negation { (a s : ℕ) → a < 2 ^ 32 → spec.signed_negation a ≡ Ok s → s ≡ spec.unsigned_negation a }
{}

/// Where a signed quotient, remainder or right shift of words has a result (ISO C90 6.3.5, 6.3.7), it is a word:
/// below 2 to the 32nd.
pub fn results_are_words()
    ensures quotient { (a b s : ℕ) → a < 2 ^ 32 → b < 2 ^ 32 → spec.signed_quotient a b ≡ Ok s → s < 2 ^ 32 }
    ensures remainder { (a b s : ℕ) → a < 2 ^ 32 → b < 2 ^ 32 → spec.signed_remainder a b ≡ Ok s → s < 2 ^ 32 }
    ensures shift { (a count s : ℕ) → a < 2 ^ 32 → spec.signed_shift_right a count ≡ Ok s → s < 2 ^ 32 }
{}
