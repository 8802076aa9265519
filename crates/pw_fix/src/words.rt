//! Sets of numbers as bits of words, a word at a time.

ghost use Rattle.std.specs.Prelude.{◌≡◌, ℕ, ◌<◌, ◌≤◌, ◌/◌, ◌^◌, ◌⊎◌, ◌↔◌, length, IsTrue, IfOk, IfSome, IfNone};
ghost use Rattle.std.specs.Int.{div_ceil};
ghost use Rattle.std.specs.Bool.{OnTrue, OnFalse};
ghost use Rattle.pw_fix.specs.Words.{HasBit};

use std::alloc::{AllocError as NoMemory, Global};

/// Whether a bit is set.
pub(crate) fn has_bit(words: &[u64], i: usize) -> bool
    ensures { IsTrue result ↔ HasBit words.now i }
{
    let place = i / 64;
    place < words.len() && (words[place] >> (i % 64)) & 1 == 1
}

/// Sets a bit, and answers whether it was not set before.
pub(crate) fn set_bit(words: &mut [u64], i: usize) -> bool
    requires { i / 64 < length words.old }
    ensures holds { (k : ℕ) → HasBit words.new k ↔ ((k ≡ i) ⊎ HasBit words.old k) }
    ensures added { IsTrue result ↔ ¬ (HasBit words.old i) }
{
    let place = i / 64;
    let bit = 1u64 << (i % 64);
    let word = words[place];
    words[place] = word | bit;
    word & bit == 0
}

/// The least bit that is set, from `from` on.
pub(crate) fn next_bit(words: &[u64], from: usize) -> Option<usize>
    requires { length words.now ≤ 2 ^ 58 }
    ensures found { IfSome result (λ i. (from ≤ i) × HasBit words.now i) }
    ensures least { IfSome result (λ i. (k : ℕ) → from ≤ k → k < i → ¬ (HasBit words.now k)) }
    ensures none { IfNone result ((k : ℕ) → from ≤ k → ¬ (HasBit words.now k)) }
{
    let place = from / 64;
    if place >= words.len() {
        return None;
    }
    let first = words[place] & (u64::MAX << (from % 64));
    if first != 0 {
        return Some(place * 64 + first.trailing_zeros() as usize);
    }
    for k in place + 1..words.len() {
        let word = words[k];
        if word != 0 {
            return Some(k * 64 + word.trailing_zeros() as usize);
        }
    }
    None
}

/// Sets in `into` each bit that `from` has, and answers whether that changed a word.
pub(crate) fn union_words(into: &mut [u64], from: &[u64]) -> bool
    requires { length into.old ≡ length from.now }
    ensures holds { (i : ℕ) → HasBit into.new i ↔ (HasBit into.old i ⊎ HasBit from.now i) }
    ensures changed { OnTrue result ((i : ℕ) × HasBit from.now i × ¬ (HasBit into.old i)) }
    ensures unchanged { OnFalse result (into.new ≡ into.old) }
{
    let mut changed = false;
    for k in 0..into.len() {
        let word = into[k];
        let joined = word | from[k];
        if joined != word {
            into[k] = joined;
            changed = true;
        }
    }
    changed
}

/// Clears in `into` each bit that `from` has.
pub(crate) fn subtract_words(into: &mut [u64], from: &[u64])
    requires { length into.old ≡ length from.now }
    ensures { (i : ℕ) → HasBit into.new i ↔ (HasBit into.old i × ¬ (HasBit from.now i)) }
{
    for k in 0..into.len() {
        into[k] &= !from[k];
    }
}

/// Whether some bit is set in both.
pub(crate) fn meet_words(a: &[u64], b: &[u64]) -> bool
    requires { length a.now ≡ length b.now }
    ensures some { OnTrue result ((i : ℕ) × HasBit a.now i × HasBit b.now i) }
    ensures none { OnFalse result ((i : ℕ) → HasBit a.now i → ¬ (HasBit b.now i)) }
{
    for k in 0..a.len() {
        if a[k] & b[k] != 0 {
            return true;
        }
    }
    false
}

/// Whether `b` has each bit of `a`.
pub(crate) fn covers_words(a: &[u64], b: &[u64]) -> bool
    requires { length a.now ≡ length b.now }
    ensures all { OnTrue result ((i : ℕ) → HasBit a.now i → HasBit b.now i) }
    ensures some { OnFalse result ((i : ℕ) × HasBit a.now i × ¬ (HasBit b.now i)) }
{
    for k in 0..a.len() {
        if b[k] | a[k] != b[k] {
            return false;
        }
    }
    true
}

/// The words that hold the numbers below `len`, and no other.
pub(crate) fn full_words(alloc: Global, len: usize) -> Result<Vec<u64>, NoMemory>
    ensures enough { IfOk result (λ words. length words.items ≡ div_ceil len 64) }
    ensures holds { IfOk result (λ words. (i : ℕ) → HasBit words.items i ↔ (i < len)) }
{
    let mut words = vec![in alloc; u64::MAX; len.div_ceil(64)]?;
    let rest = len % 64;
    if rest == 0 {
        return Ok(words);
    }
    words[len / 64] = u64::MAX >> (64 - rest);
    Ok(words)
}
