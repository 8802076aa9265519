//! What holds of all runs.

ghost use Rattle.std.specs.Prelude.{ℕ};
ghost use Rattle.pw_run.specs.Runs.{Stage, Refines, Through};

/// What two languages, one above the other, note in their runs.
pub trait Likeness {
    /// A moment of the language above.
    type Above;

    /// A moment of the language below.
    type Below;

    /// Whether two moments are alike.
    ghost alike: { Self.Above → Self.Below → Type 0 };
}

/// Refinement composes: where each of two runs refines the one above it, the lowest refines the highest. Two moments are
/// then alike through one of the run between.
pub fn refinement_composes<F: Likeness, G: Likeness<Above = F::Below>>()
    ensures { (a : ℕ → Stage F.Above) (b : ℕ → Stage F.Below) (c : ℕ → Stage G.Below) →
        Refines F.alike a b → Refines G.alike b c → Refines (Through F.alike G.alike) a c }
{}
