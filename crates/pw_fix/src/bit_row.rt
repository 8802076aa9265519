//! Sets of numbers below a bound.

ghost use Rattle.std.specs.Prelude.{◌≡◌, ◌≢◌, ℕ, ◌+◌, ◌<◌, ◌≤◌, ◌⊎◌, ◌↔◌, length, IsTrue, IfOk, IfSome, IfNone, vec_len};
ghost use Rattle.std.specs.Bool.{OnTrue, OnFalse};
ghost use Rattle.std.specs.Int.{div_ceil};
ghost use Rattle.pw_fix.specs.Words.{HasBit};

use crate::words::{
    covers_words, full_words, has_bit, meet_words, next_bit, set_bit, subtract_words, union_words,
};
use smallvec::SmallVec;
use std::alloc::{AllocError as NoMemory, Global};

/// A set of numbers below `len`: it holds i where bit i mod 64 of word i / 64 is 1.
#[derive(Drop)]
pub struct BitRow {
    pub len: usize,
    pub words: SmallVec<u64, 1>,
    // As many words as the length needs, and no bit set from `len` on.
    pub ghost enough: { length words.items ≡ div_ceil len 64 },
    pub ghost unused: { (i : ℕ) → len ≤ i → ¬ (HasBit words.items i) },
}

impl BitRow {
    ghost use Rattle.pw_fix.specs.Row.{Holds};

    /// The empty set.
    pub fn new(alloc: Global, len: usize) -> Result<BitRow, NoMemory>
        ensures length { IfOk result (λ row. row.len ≡ len) }
        ensures empty { IfOk result (λ row. (i : ℕ) → ¬ (Holds row i)) }
    {
        let words = SmallVec::from_elem(alloc, 0u64, len.div_ceil(64))?;
        Ok(BitRow { len, words })
    }

    /// The set of all numbers below `len`.
    pub fn full(alloc: Global, len: usize) -> Result<BitRow, NoMemory>
        ensures length { IfOk result (λ row. row.len ≡ len) }
        ensures all { IfOk result (λ row. (i : ℕ) → i < len → Holds row i) }
    {
        let words = SmallVec::from_vec(full_words(alloc, len)?);
        Ok(BitRow { len, words })
    }

    /// Whether the set holds `i`. It holds no number from `len` on.
    pub fn contains(&self, i: usize) -> bool
        ensures { IsTrue result ↔ Holds self.now i }
    {
        has_bit(self.words.as_slice(), i)
    }

    /// Puts `i` into the set, and answers whether it is new there.
    pub fn insert(&mut self, i: usize) -> bool
        requires { i < self.old.len }
        ensures length { self.new.len ≡ self.old.len }
        ensures holds { (k : ℕ) → Holds self.new k ↔ ((k ≡ i) ⊎ Holds self.old k) }
        ensures added { IsTrue result ↔ ¬ (Holds self.old i) }
    {
        set_bit(self.words.as_mut_slice(), i)
    }

    /// The least number of the set from `from` on.
    pub fn next_from(&self, from: usize) -> Option<usize>
        ensures found { IfSome result (λ i. (from ≤ i) × (i < self.now.len) × Holds self.now i) }
        ensures least { IfSome result (λ i. (k : ℕ) → from ≤ k → k < i → ¬ (Holds self.now k)) }
        ensures none { IfNone result ((k : ℕ) → from ≤ k → ¬ (Holds self.now k)) }
    {
        let _len = self.len;
        next_bit(self.words.as_slice(), from)
    }

    /// Joins `other` into the set, and answers whether that added a number.
    pub fn union_with(&mut self, other: &BitRow) -> bool
        requires { other.now.len ≡ self.old.len }
        ensures length { self.new.len ≡ self.old.len }
        ensures holds { (k : ℕ) → Holds self.new k ↔ (Holds self.old k ⊎ Holds other.now k) }
        ensures added { OnTrue result ((k : ℕ) × Holds other.now k × ¬ (Holds self.old k)) }
        ensures unchanged { OnFalse result ((k : ℕ) → Holds other.now k → Holds self.old k) }
    {
        union_words(self.words.as_mut_slice(), other.words.as_slice())
    }

    /// Takes from the set what `other` holds.
    pub fn subtract(&mut self, other: &BitRow)
        requires { other.now.len ≡ self.old.len }
        ensures length { self.new.len ≡ self.old.len }
        ensures holds { (k : ℕ) → Holds self.new k ↔ (Holds self.old k × ¬ (Holds other.now k)) }
    {
        subtract_words(self.words.as_mut_slice(), other.words.as_slice())
    }

    /// Makes the set that of `other`.
    pub fn copy_from(&mut self, other: &BitRow)
        requires { other.now.len ≡ self.old.len }
        ensures length { self.new.len ≡ self.old.len }
        ensures holds { (k : ℕ) → Holds self.new k ↔ Holds other.now k }
    {
        self.words
            .as_mut_slice()
            .copy_from_slice(other.words.as_slice())
    }

    /// Whether each number of the set is one of `other`.
    pub fn is_subset(&self, other: &BitRow) -> bool
        requires { other.now.len ≡ self.now.len }
        ensures { IsTrue result ↔ ((k : ℕ) → Holds self.now k → Holds other.now k) }
    {
        covers_words(self.words.as_slice(), other.words.as_slice())
    }

    /// Whether some number is in both sets.
    pub fn intersects(&self, other: &BitRow) -> bool
        requires { other.now.len ≡ self.now.len }
        ensures { IsTrue result ↔ ((k : ℕ) × Holds self.now k × Holds other.now k) }
    {
        meet_words(self.words.as_slice(), other.words.as_slice())
    }
}
