//! Lattices of finite height.

ghost use Rattle.std.specs.Prelude.{◌≡◌, ℕ, ◌<◌, IfOk, IsTrue, ◌↔◌};
ghost use Rattle.std.specs.Bool.{OnTrue, OnFalse};
ghost use Rattle.pw_fix.specs.Order.{IsLeast, IsJoin, IsPreorder};

use std::alloc::{AllocError as NoMemory, Global};

/// A join semilattice with a least element. Two elements that are at or below each other are one
/// value of the lattice, however they are kept.
pub trait Lattice {
    /// What an element is kept as.
    type Elem: Drop;

    /// Which elements are the lattice's own. The laws speak of these.
    ghost is_own: { Self → Self.Elem → Type 0 };

    /// The order: the first element is at or below the second.
    ghost is_below: { Self → Self.Elem → Self.Elem → Type 0 };

    /// How far up an element is: it grows where `join` raises an element.
    ghost rank: { Self → Self.Elem → ℕ };

    /// The least element.
    fn bottom(&self, alloc: Global) -> Result<Self::Elem, NoMemory>
        ensures least { IfOk result (IsLeast (is_own self.now) (is_below self.now)) };

    /// Makes `into` the least upper bound of the two, and answers whether it has risen. Takes no
    /// memory.
    fn join(&self, into: &mut Self::Elem, from: &Self::Elem) -> bool
        requires into { is_own self.now into.old }
        requires from { is_own self.now from.now }
        ensures joined { IsJoin (is_own self.now) (is_below self.now) into.old from.now into.new }
        ensures changed { OnTrue result (¬ (is_below self.now into.new into.old)) }
        ensures unchanged { OnFalse result (is_below self.now into.new into.old) }
        ensures rank_grows { OnTrue result (rank self.now into.old < rank self.now into.new) }
        ensures rank_stays { OnFalse result (rank self.now into.new ≡ rank self.now into.old) };

    /// Whether `a` is at or below `b`. Takes no memory.
    fn le(&self, a: &Self::Elem, b: &Self::Elem) -> bool
        requires a { is_own self.now a.now }
        requires b { is_own self.now b.now }
        ensures { IsTrue result ↔ is_below self.now a.now b.now };

    /// The order is reflexive and transitive.
    ghost order: { (l : Self) → IsPreorder (is_own l) (is_below l) };
}
