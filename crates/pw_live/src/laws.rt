//! The laws of liveness and of interference.

ghost use Rattle.std.specs.Prelude.{◌≡◌, ◌≢◌, ◌≤◌, ◌↔◌, ◌∷◌, ◌++◌, ℕ, true, List, Some, length, slice_get, Contains};
ghost use Rattle.pw_flow.specs.Outline.{Act, Stretch, Outline};
ghost use Rattle.pw_live.specs.Liveness.{Live, at_front, is_live_in, is_live};
ghost use Rattle.pw_live.specs.Interference.{written_beside, is_held};

/// Paths through more blocks than there are add nothing to what is live: live is, at a point and at the front of a block,
/// what some path of whatever length needs. The front of a block is a point: what is live there is live before all that
/// stands in the block.
pub fn longer_paths_add_nothing()
    ensures fronts { (f : Outline) → (t more b : ℕ) → length f.blocks ≤ more → at_front more f t b ≡ at_front (length f.blocks) f t b }
    ensures live { (f : Outline) → (t : ℕ) → (acts : List Act) → (uses next : List ℕ) → (is_live f t acts uses next ≡ true) ↔ Live f t acts uses next }
    ensures front { (f : Outline) → (t b : ℕ) → (s : Stretch) → slice_get f.blocks b ≡ Some s → (is_live_in f t b ≡ true) ↔ Live f t s.acts s.uses s.next }
    ensures point { (f : Outline) → (t b : ℕ) → (s : Stretch) → slice_get f.blocks b ≡ Some s → is_live_in f t b ≡ is_live f t s.acts s.uses s.next }
{}

/// What an operation defines is written beside what is live directly behind it; and what is live directly behind a call
/// that does not define it is held.
pub fn operations_interfere()
    ensures written { (f : Outline) → (s : Stretch) → (before after : List Act) → (a : Act) → (d t : ℕ) → Contains f.blocks s → s.acts ≡ before ++ a ∷ after
        → a.defines ≡ Some d → Live f t after s.uses s.next → written_beside f d t ≡ true }
    ensures held { (f : Outline) → (s : Stretch) → (before after : List Act) → (a : Act) → (t : ℕ) → Contains f.blocks s → s.acts ≡ before ++ a ∷ after
        → a.calls ≡ true → a.defines ≢ Some t → Live f t after s.uses s.next → is_held f t ≡ true }
{}
