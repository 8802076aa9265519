//! The law of points by number.

ghost use Rattle.std.specs.Prelude.{◌≡◌, ◌↔◌, ℕ, true, Some, slice_get};
ghost use Rattle.pw_flow.specs.Outline.{Outline};
ghost use Rattle.pw_live.specs.Liveness.{is_live_in};
ghost use Rattle.pw_live.specs.Points.{Point, points, lives};
ghost use Rattle.pw_live_spans.specs.LivePoints.{LivesFrom};

use pw_live::laws::longer_paths_add_nothing;

/// A temporary is live from the first block on, at a point by number, exactly where it lives at the point of that number in
/// the list of all; only points are such numbers; and the first is the front of the first block.
pub fn points_stand_by_number()
    ensures lives { (f : Outline) → (t q : ℕ) → (p : Point) → slice_get (points f) q ≡ Some p → LivesFrom f 0 t q ↔ (lives f t p ≡ true) }
    ensures there { (f : Outline) → (t q : ℕ) → LivesFrom f 0 t q → (p : Point) × (slice_get (points f) q ≡ Some p) }
    ensures first { (f : Outline) → (t : ℕ) → LivesFrom f 0 t 0 ↔ (is_live_in f t 0 ≡ true) }
{
    longer_paths_add_nothing();
}
