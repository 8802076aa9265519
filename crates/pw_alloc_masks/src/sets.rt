//! Sets of registers of points, as a tree: what is in the sets of neighbouring points is found in as many steps as the number
//! of points has digits, and so is a register put into the set of a point.

ghost use Rattle.std.specs.Prelude.{◌≡◌, ◌⊎◌, ◌+◌, ◌-◌, ◌%◌, ◌^◌, ◌≤◌, ◌<◌, ◌↔◌, ℕ, length, IfOk};
ghost use Rattle.pw_alloc_masks.specs.Masks.{HasRegister};
ghost use Rattle.pw_alloc_masks.specs.Sets.{HasPlace, HasBelow, HasAmong, AreJoined, AreJoinedBut};

use crate::masks::{both, with_register};
use std::alloc::{AllocError as NoMemory, Global};

/// A set of registers for each of so many points. That of a point stands as many places behind the first one as there are
/// points, and the point's number more; at each place before these, but for the first one, stands what is at twice its number
/// and at the place behind that, together.
#[derive(Drop)]
pub struct PointSets {
    pub masks: Vec<u32>,
    pub points: usize,
}

/// Puts a register into the set at a place.
fn put_at(masks: &mut [u32], i: usize, r: u8)
    requires place { i < length masks.old }
    requires register { r < 32 }
    ensures length { length masks.new ≡ length masks.old }
    ensures each { (j k : ℕ) → HasPlace masks.new j k ↔ (HasPlace masks.old j k ⊎ ((j ≡ i) × (k ≡ r))) }
{
    let mask = with_register(masks[i], r);
    masks[i] = mask;
}

/// Puts a register into the set at a place where it is missing, and into those above.
fn put_above(masks: &mut [u32], points: usize, first: usize, r: u8)
    requires place { first < points }
    requires register { r < 32 }
    requires long { length masks.old ≡ points + points }
    requires missing { AreJoinedBut first r masks.old points }
    ensures long { length masks.new ≡ points + points }
    ensures each { (i k : ℕ) → 0 < i → i < points → HasPlace masks.new i k ↔ HasBelow masks.new i k }
    ensures points { (i k : ℕ) → points ≤ i → HasPlace masks.new i k ↔ HasPlace masks.old i k }
{
    let mut place = first;
    while place > 0 {
        put_at(masks, place, r);
        place /= 2;
    }
}

/// Puts a register into the set of a point.
fn put(masks: &mut [u32], points: usize, p: usize, r: u8)
    requires point { p < points }
    requires register { r < 32 }
    requires sets { AreJoined points masks.old }
    ensures sets { AreJoined points masks.new }
    ensures each { (q k : ℕ) → HasPlace masks.new (points + q) k ↔ (HasPlace masks.old (points + q) k ⊎ ((q ≡ p) × (k ≡ r))) }
{
    let place = points + p;
    put_at(masks, place, r);
    put_above(masks, points, place / 2, r);
}

/// A set, and that at a place whose number is odd.
fn with_first(masks: &[u32], found: u32, i: usize) -> u32
    requires { i < length masks.now }
    ensures { (k : ℕ) → HasRegister result k ↔ (HasRegister found k ⊎ ((i % 2 ≡ 1) × HasPlace masks.now i k)) }
{
    if i % 2 == 1 {
        both(found, masks[i])
    } else {
        found
    }
}

/// A set, and that before a place whose number is odd.
fn with_last(masks: &[u32], found: u32, i: usize) -> u32
    requires { i ≤ length masks.now }
    ensures { (k : ℕ) → HasRegister result k ↔ (HasRegister found k ⊎ ((i % 2 ≡ 1) × HasPlace masks.now (i - 1) k)) }
{
    if i % 2 == 1 {
        both(found, masks[i - 1])
    } else {
        found
    }
}

/// What is in the sets at the places from one up to another.
fn joined(masks: &[u32], points: usize, from: usize, to: usize) -> u32
    requires sets { AreJoined points masks.now }
    requires low { 0 < from }
    requires high { to ≤ points + points }
    ensures { (k : ℕ) → HasRegister result k ↔ HasAmong masks.now from to k }
{
    let mut found = 0;
    let mut low = from;
    let mut high = to;
    while low < high {
        let first = with_first(masks, found, low);
        found = with_last(masks, first, high);
        low = (low + 1) / 2;
        high /= 2;
    }
    found
}

impl PointSets {
    ghost use Rattle.pw_alloc_masks.specs.Sets.{AreSets, HasAt, HasWithin};

    /// Empty sets of so many points.
    pub fn new(alloc: Global, points: usize) -> Result<PointSets, NoMemory>
        requires { points < 2 ^ 63 }
        ensures sets { IfOk result AreSets }
        ensures points { IfOk result (λ v. v.points ≡ points) }
        ensures none { IfOk result (λ v. (p k : ℕ) → ¬ HasAt v p k) }
    {
        let masks = vec![in alloc; 0; points + points]?;
        Ok(PointSets { masks, points })
    }

    /// Puts a register into the set of a point.
    pub fn put(&mut self, p: usize, r: u8)
        requires point { p < self.old.points }
        requires register { r < 32 }
        requires sets { AreSets self.old }
        ensures sets { AreSets self.new }
        ensures points { self.new.points ≡ self.old.points }
        ensures each { (q k : ℕ) → HasAt self.new q k ↔ (HasAt self.old q k ⊎ ((q ≡ p) × (k ≡ r))) }
    {
        put(&mut self.masks, self.points, p, r);
    }

    /// What is in the sets of the points of a span, from its first one up to one that is no longer in it.
    pub fn within(&self, span: (usize, usize)) -> u32
        requires sets { AreSets self.now }
        requires points { (p : ℕ) → span.0 ≤ p → p < span.1 → p < self.now.points }
        ensures { (k : ℕ) → HasRegister result k ↔ HasWithin self.now span.0 span.1 k }
    {
        if span.0 >= span.1 {
            return 0;
        }
        joined(
            &self.masks,
            self.points,
            self.points + span.0,
            self.points + span.1,
        )
    }
}
