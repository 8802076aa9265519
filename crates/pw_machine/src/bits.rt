// Shifts, fields and conditions on words.

ghost use Rattle.std.specs.Prelude.{◌≡◌, ◌+◌, ◌-◌, ◌*◌, ◌/◌, ◌%◌, ◌^◌, ◌<◌, ◌≤◌};
ghost use Rattle.pw_inst.specs.Computing as computing;

use pw_value::words::{signed_at_most, signed_less};

/// Whether a condition holds of two words.
#[inline(always)]
pub(crate) fn condition(c: u8, a: u32, b: u32) -> bool
    ensures { result ≡ computing.condition c a b }
{
    match c {
        1 => a == b,
        2 => signed_less(a, b),
        3 => signed_at_most(a, b),
        4 => a < b,
        5 => a <= b,
        _ => false,
    }
}

/// 2 to a power.
#[inline(always)]
fn power(exponent: u8) -> u64
    requires { exponent ≤ 32 }
    ensures value { result ≡ 2 ^ exponent }
    ensures positive { 0 < result }
    ensures small { result ≤ 2 ^ 32 }
{
    1 << exponent
}

/// The low word of two words, shifted right.
#[inline(always)]
pub(crate) fn shifted(high: u32, low: u32, by: u32) -> u32
    requires { by < 32 }
    ensures { result ≡ (high * 2 ^ 32 + low) / 2 ^ by % 2 ^ 32 }
{
    let double = u64::from(high) * 0x1_0000_0000 + u64::from(low);
    ((double >> by) % 0x1_0000_0000) as u32
}

/// The `len` bits that end at bit p.
#[inline(always)]
pub(crate) fn extracted(word: u32, p: u8, len: u8) -> u32
    requires place { p < 32 }
    requires short { len ≤ 32 }
    ensures { result ≡ computing.extracted word p len }
{
    (u64::from(word >> (31 - p)) % power(len)) as u32
}

/// The `len` bits that end at bit p, extended by their sign.
#[inline(always)]
pub(crate) fn extracted_signed(word: u32, p: u8, len: u8) -> u32
    requires place { p < 32 }
    requires some { 0 < len }
    requires short { len ≤ 32 }
    ensures { result ≡ computing.sign_extended len (computing.extracted word p len) }
{
    let bits = u64::from(word >> (31 - p)) % power(len);
    if bits < power(len - 1) {
        bits as u32
    } else {
        (0x1_0000_0000 - power(len) + bits) as u32
    }
}

/// The low `len` bits, so that they end at bit p.
#[tactic(auto, using(crate::proofs::FieldSizes::deposited_small))]
#[inline(always)]
pub(crate) fn deposited(word: u32, p: u8, len: u8) -> u32
    requires place { p < 32 }
    requires short { len ≤ p + 1 }
    ensures { result ≡ computing.deposited word p len }
{
    let moved = u64::from(word) % power(len) * power(31 - p);
    moved as u32
}
