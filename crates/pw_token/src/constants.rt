//! Lengths of words, integer constants and floating constants at the beginning of a text, 0 where none stands there.

ghost use Rattle.std.specs.Prelude.{◌≡◌, ◌≢◌, ◌<◌, ◌≤◌, ◌+◌, drop, length, slice_index};
ghost use Rattle.pw_token.specs.Scanning as spec;

use crate::bytes::{Class, byte_at, is_either, is_nondigit, run_of, text_from};

/// The length of the identifier or keyword (C90 6.1.1, 6.1.2) that begins the text.
pub fn word_len(text: &[u8]) -> usize
    ensures value { result ≡ spec.word_len text.now }
    ensures within { result ≤ length text.now }
{
    if is_nondigit(byte_at(text, 0)) {
        run_of(Class::Word, text)
    } else {
        0
    }
}

fn is_u(byte: u8) -> bool
    ensures { result ≡ spec.is_u byte }
{
    is_either(byte, b'u', b'U')
}

fn is_l(byte: u8) -> bool
    ensures { result ≡ spec.is_l byte }
{
    is_either(byte, b'l', b'L')
}

#[tactic(auto, unfolding(crate::specs::Scanning::integer_suffix_len))]
fn integer_suffix_len(text: &[u8]) -> usize
    ensures value { result ≡ spec.integer_suffix_len text.now }
    ensures within { result ≤ length text.now }
{
    let (first, second) = (byte_at(text, 0), byte_at(text, 1));
    if is_u(first) {
        return if is_l(second) { 2 } else { 1 };
    }
    if is_l(first) {
        return if is_u(second) { 2 } else { 1 };
    }
    0
}

fn begins_hexadecimal(text: &[u8]) -> bool
    ensures value { result ≡ spec.begins_hexadecimal text.now }
{
    byte_at(text, 0) == b'0'
        && is_either(byte_at(text, 1), b'x', b'X')
        && byte_at(text, 2).is_ascii_hexdigit()
}

#[tactic(auto, unfolding(crate::specs::Scanning::digits_len))]
fn digits_len(text: &[u8]) -> usize
    ensures value { result ≡ spec.digits_len text.now }
    ensures within { result ≤ length text.now }
{
    if begins_hexadecimal(text) {
        2 + run_of(Class::HexDigit, text_from(text, 2))
    } else if byte_at(text, 0) == b'0' {
        run_of(Class::OctalDigit, text)
    } else {
        run_of(Class::Digit, text)
    }
}

/// The length of the integer constant (C90 6.1.3.2), suffix included, that begins the text.
#[tactic(auto, unfolding(crate::specs::Scanning::integer_len))]
pub fn integer_len(text: &[u8]) -> usize
    ensures value { result ≡ spec.integer_len text.now }
    ensures within { result ≤ length text.now }
{
    let digits = digits_len(text);
    if digits == 0 {
        0
    } else {
        digits + integer_suffix_len(text_from(text, digits))
    }
}

#[tactic(auto, unfolding(crate::specs::Scanning::exponent_len))]
fn exponent_len(text: &[u8]) -> usize
    ensures value { result ≡ spec.exponent_len text.now }
    ensures within { result ≤ length text.now }
{
    if !is_either(byte_at(text, 0), b'e', b'E') {
        return 0;
    }
    let start = if is_either(byte_at(text, 1), b'+', b'-') {
        2
    } else {
        1
    };
    let digits = run_of(Class::Digit, text_from(text, start));
    if digits == 0 { 0 } else { start + digits }
}

#[tactic(auto, unfolding(crate::specs::Scanning::fraction_len))]
fn fraction_len(text: &[u8]) -> usize
    ensures value { result ≡ spec.fraction_len text.now }
    ensures within { result ≤ length text.now }
{
    let whole = run_of(Class::Digit, text);
    if byte_at(text, whole) != b'.' {
        return 0;
    }
    let part = run_of(Class::Digit, text_from(text, whole + 1));
    if whole + part == 0 {
        0
    } else {
        whole + 1 + part
    }
}

fn floating_suffix_len(text: &[u8]) -> usize
    ensures value { result ≡ spec.floating_suffix_len text.now }
    ensures within { result ≤ length text.now }
{
    let first = byte_at(text, 0);
    if is_either(first, b'f', b'F') || is_l(first) {
        1
    } else {
        0
    }
}

#[tactic(auto, unfolding(crate::specs::Scanning::scaled_len))]
fn scaled_len(mantissa: usize, wanted: bool, text: &[u8]) -> usize
    requires { mantissa ≤ length text.now }
    ensures value { result ≡ spec.scaled_len mantissa wanted text.now }
    ensures within { result ≤ length text.now }
{
    let exponent = exponent_len(text_from(text, mantissa));
    if wanted && exponent == 0 {
        return 0;
    }
    let end = mantissa + exponent;
    end + floating_suffix_len(text_from(text, end))
}

/// The length of the floating constant (C90 6.1.3.1), suffix included, that begins the text.
#[tactic(auto, unfolding(crate::specs::Scanning::floating_len))]
pub fn floating_len(text: &[u8]) -> usize
    ensures value { result ≡ spec.floating_len text.now }
    ensures within { result ≤ length text.now }
{
    let fraction = fraction_len(text);
    if fraction != 0 {
        return scaled_len(fraction, false, text);
    }
    let whole = run_of(Class::Digit, text);
    if whole == 0 {
        0
    } else {
        scaled_len(whole, true, text)
    }
}
