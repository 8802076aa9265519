//! Registers that are taken where a temporary is live and where it is written.

ghost use Rattle.std.specs.Prelude.{◌≡◌, ◌⊎◌, ◌≤◌, ◌<◌, ◌↔◌, ℕ, true, length, slice_index, All, Contains};
ghost use Rattle.pw_live_spans.specs.Spans.{Covers};
ghost use Rattle.pw_alloc_masks.specs.Masks.{HasRegister};
ghost use Rattle.pw_alloc_masks.specs.Sets.{AreSets, HasAt};
ghost use Rattle.pw_alloc_taken.specs.Masks.{IsMadeBeside, IsOccupiedBehind};

use pw_alloc_masks::{PointSets, both, with_register};

/// The registers of the temporaries that are written before the points of spans.
pub(crate) fn made_beside(made: &PointSets, spans: &[(usize, usize)]) -> u32
    requires sets { AreSets made.now }
    requires points { (p : ℕ) → Covers spans.now p → p < made.now.points }
    ensures { (k : ℕ) → HasRegister result k ↔ IsMadeBeside made.now spans.now k }
{
    let mut beside = 0;
    for place in 0..spans.len() {
        let within = made.within(spans[place]);
        let more = both(beside, within);
        beside = more;
    }
    beside
}

/// Puts a register into the sets of points.
pub(crate) fn put_behind(made: &mut PointSets, definitions: &[usize], r: u8)
    requires sets { AreSets made.old }
    requires points { All (λ p. p < made.old.points) definitions.now }
    requires register { r < 32 }
    ensures sets { AreSets made.new }
    ensures points { made.new.points ≡ made.old.points }
    ensures each { (q k : ℕ) → HasAt made.new q k ↔ (HasAt made.old q k ⊎ (Contains definitions.now q × (k ≡ r))) }
{
    for place in 0..definitions.len() {
        made.put(definitions[place], r);
    }
}

/// What is occupied at points.
pub(crate) fn occupied_behind(definitions: &[usize], occupied: &[u32]) -> u32
    requires { All (λ p. p < length occupied.now) definitions.now }
    ensures { (k : ℕ) → HasRegister result k ↔ IsOccupiedBehind definitions.now occupied.now k }
{
    let mut behind = 0;
    for place in 0..definitions.len() {
        let p = definitions[place];
        let more = both(behind, occupied[p]);
        behind = more;
    }
    behind
}

/// What the start of the function keeps from a temporary: it defines the parameters where all of them, and what is live
/// there, are needed.
pub(crate) fn taken_at_start(is_param: bool, is_live: bool, params: u32, start: u32) -> u32
    ensures { (k : ℕ) → HasRegister result k ↔ ((((is_param ≡ true) ⊎ (is_live ≡ true)) × HasRegister params k) ⊎ ((is_param ≡ true) × HasRegister start k)) }
{
    if is_param {
        return both(params, start);
    }
    if is_live {
        return params;
    }
    0
}

/// A register is occupied over the points of a span.
fn occupy_span(occupied: &mut [u32], span: (usize, usize), r: u8)
    requires points { (p : ℕ) → span.0 ≤ p → p < span.1 → p < length occupied.old }
    requires register { r < 32 }
    ensures length { length occupied.new ≡ length occupied.old }
    ensures each { (p k : ℕ) → HasRegister (slice_index occupied.new p) k ↔ (HasRegister (slice_index occupied.old p) k ⊎ ((span.0 ≤ p) × (p < span.1) × (k ≡ r))) }
{
    for p in span.0..span.1 {
        let mask = with_register(occupied[p], r);
        occupied[p] = mask;
    }
}

/// A register is occupied over the points of spans.
pub(crate) fn occupy(occupied: &mut [u32], spans: &[(usize, usize)], r: u8)
    requires points { (p : ℕ) → Covers spans.now p → p < length occupied.old }
    requires register { r < 32 }
    ensures length { length occupied.new ≡ length occupied.old }
    ensures each { (p k : ℕ) → HasRegister (slice_index occupied.new p) k ↔ (HasRegister (slice_index occupied.old p) k ⊎ (Covers spans.now p × (k ≡ r))) }
{
    for place in 0..spans.len() {
        occupy_span(occupied, spans[place], r);
    }
}
