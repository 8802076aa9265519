//! Lists of sets of numbers below one bound.

ghost use Rattle.std.specs.Prelude.{◌≡◌, ℕ, ◌<◌, ◌⊎◌, ◌↔◌, All, IsTrue, IfOk, vec_len};
ghost use Rattle.pw_fix.specs.declared.bit_row.BitRow.{BitRow};

use crate::bit_row::BitRow;
use std::alloc::{AllocError as NoMemory, Global};

/// A list of sets of numbers below `len`.
#[derive(Drop)]
pub struct BitRows {
    pub len: usize,
    pub rows: Vec<BitRow>,
    // Each row is of this length.
    pub ghost uniform: { All (λ (row : BitRow). row.len ≡ len) rows.items },
}

impl BitRows {
    ghost use Rattle.pw_fix.specs.Row.{Holds};
    ghost use Rattle.pw_fix.specs.Table.{HoldsAt};

    /// `count` empty sets.
    pub fn new(alloc: Global, count: usize, len: usize) -> Result<BitRows, NoMemory>
        ensures count { IfOk result (λ table. vec_len table.rows ≡ count) }
        ensures length { IfOk result (λ table. table.len ≡ len) }
        ensures empty { IfOk result (λ table. (n i : ℕ) → ¬ (HoldsAt table n i)) }
    {
        let mut rows = Vec::with_capacity(alloc, count)?;
        for _ in 0..count {
            rows.push(BitRow::new(alloc, len)?)?;
        }
        Ok(BitRows { len, rows })
    }

    /// The set in row `n`, counted from 0.
    pub fn row(&self, n: usize) -> &BitRow
        requires { n < vec_len self.now.rows }
        ensures length { result.now.len ≡ self.now.len }
        ensures holds { (i : ℕ) → Holds result.now i ↔ HoldsAt self.now n i }
    {
        &self.rows[n]
    }

    /// Whether row `n` holds `i`.
    pub fn contains(&self, n: usize, i: usize) -> bool
        requires { n < vec_len self.now.rows }
        ensures { IsTrue result ↔ HoldsAt self.now n i }
    {
        self.rows[n].contains(i)
    }

    /// Puts `i` into row `n`, and answers whether it is new there.
    pub fn insert(&mut self, n: usize, i: usize) -> bool
        requires row { n < vec_len self.old.rows }
        requires number { i < self.old.len }
        ensures count { vec_len self.new.rows ≡ vec_len self.old.rows }
        ensures length { self.new.len ≡ self.old.len }
        ensures holds { (m k : ℕ) → HoldsAt self.new m k ↔ (((m ≡ n) × (k ≡ i)) ⊎ HoldsAt self.old m k) }
        ensures added { IsTrue result ↔ ¬ (HoldsAt self.old n i) }
    {
        self.rows[n].insert(i)
    }
}
