//! The lattice of the sets of numbers below a bound, ordered by inclusion.

ghost use Rattle.std.specs.Prelude.{◌≡◌, ℕ, ◌⊎◌, ◌↔◌};
ghost use Rattle.pw_fix.specs.Order.{IsJoin};
ghost use Rattle.pw_fix.specs.Row.{Holds, IsSubset};
ghost use Rattle.pw_fix.specs.declared.bit_row.BitRow.{BitRow};

use crate::bit_row::BitRow;
use crate::lattice::Lattice;
use std::alloc::{AllocError as NoMemory, Global};

/// The sets of numbers below `len`. Each chain that rises has at most `len` steps.
#[derive(Clone, Copy)]
pub struct Rows {
    pub len: usize,
}

impl Lattice for Rows {
    ghost use Rattle.pw_fix.specs.Row.{IsSubset, member_count};
    ghost use Rattle.pw_fix.specs.RowLaws.{subsets_order};

    type Elem = BitRow;

    ghost is_own = { λ rows row. row.len ≡ rows.len };

    ghost is_below = { λ _ a b. IsSubset a b };

    ghost rank = { λ _ row. member_count row };

    fn bottom(&self, alloc: Global) -> Result<BitRow, NoMemory> {
        BitRow::new(alloc, self.len)
    }

    fn join(&self, into: &mut BitRow, from: &BitRow) -> bool {
        into.union_with(from)
    }

    fn le(&self, a: &BitRow, b: &BitRow) -> bool {
        a.is_subset(b)
    }

    ghost order = { λ rows. subsets_order rows.len };
}

/// A law: a least upper bound of two sets is their union.
pub fn joins_are_unions()
    ensures { (len : ℕ) (x y z : BitRow) → x.len ≡ len → y.len ≡ len
        → IsJoin (λ (row : BitRow). row.len ≡ len) IsSubset x y z
        → (i : ℕ) → Holds z i ↔ (Holds x i ⊎ Holds y i) }
{}
