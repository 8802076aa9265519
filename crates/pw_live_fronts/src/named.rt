//! Temporaries with numbers.

ghost use Rattle.std.specs.Prelude.{◌≡◌, ◌<◌, ℕ, length, slice_get, slice_index, Some};

/// Temporaries with numbers, which count from 0 in the order in which they got them.
#[derive(Drop)]
pub struct Exposed {
    /// The temporaries, by their numbers.
    pub names: Vec<u32>,
    /// Of each temporary of the function its number, where it has one.
    pub numbers: Vec<Option<usize>>,
    pub ghost named: { (i : ℕ) → i < length names.items → slice_get numbers.items (slice_index names.items i) ≡ Some (Some i) },
    pub ghost numbered: { (t i : ℕ) → slice_get numbers.items t ≡ Some (Some i) → slice_get names.items i ≡ Some t },
}
