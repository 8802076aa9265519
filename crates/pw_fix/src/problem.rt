//! Data-flow problems.

ghost use Rattle.std.specs.Prelude.{◌≡◌, ℕ, ◌<◌, ◌≤◌};

use crate::lattice::Lattice;

/// A data-flow problem: a lattice, and what each node of a graph makes of what flows into it.
pub trait Problem {
    /// The lattice of the nodes' values.
    type L: Lattice;

    /// How many nodes it is about.
    ghost node_count: { Self → ℕ };

    /// The lattice itself.
    ghost lattice_of: { Self → Self.L };

    /// The greatest rank.
    ghost height_of: { Self → ℕ };

    /// What a node may make of an inflow. It does not look at what was there before.
    ghost gives: { Self → ℕ → Self.L.Elem → Self.L.Elem → Type 0 };

    /// The lattice of the nodes' values. Takes no memory.
    fn lattice(&self) -> &Self::L
        ensures { result.now ≡ lattice_of self.now };

    /// Overwrites `out` with what the node makes of the inflow. Takes no memory.
    fn step(
        &self,
        node: usize,
        inflow: &<Self::L as Lattice>::Elem,
        out: &mut <Self::L as Lattice>::Elem,
    )
        requires node { node < node_count self.now }
        requires inflow { Self.L.is_own (lattice_of self.now) inflow.now }
        requires out { Self.L.is_own (lattice_of self.now) out.old }
        ensures own { Self.L.is_own (lattice_of self.now) out.new }
        ensures outflow { gives self.now node inflow.now out.new };

    /// The greatest rank of an element. Takes no memory.
    fn height(&self) -> u64
        ensures { result ≡ height_of self.now };

    /// What a node makes of an inflow rises with the inflow. So of one inflow it makes one value, up
    /// to elements that are at or below each other.
    ghost monotone: { (p : Self) (n : ℕ) (x y a b : Self.L.Elem) → n < node_count p
        → Self.L.is_own (lattice_of p) x → Self.L.is_own (lattice_of p) y
        → Self.L.is_own (lattice_of p) a → Self.L.is_own (lattice_of p) b
        → Self.L.is_below (lattice_of p) x y → gives p n x a → gives p n y b
        → Self.L.is_below (lattice_of p) a b };

    /// No rank is above the height.
    ghost bounded: { (p : Self) (x : Self.L.Elem) → Self.L.is_own (lattice_of p) x
        → Self.L.rank (lattice_of p) x ≤ height_of p };
}
