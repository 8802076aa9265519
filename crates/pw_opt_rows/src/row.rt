//! Rows of what is known.

ghost use Rattle.std.specs.Prelude.{ℕ, ◌≡◌, ◌<◌, ◌≤◌, ◌↔◌, length, replicate, slice_set, IsTrue, IfOk};
ghost use Rattle.std.specs.Bool.{OnTrue, OnFalse};
ghost use Rattle.pw_opt_rules.specs.declared.flat.Flat.TheVariants.{Bottom, Many};
ghost use Rattle.pw_opt_rules.specs.Flat.{is_one};
ghost use Rattle.pw_opt_rules.specs.Rows.{known, IsRowBelow};
ghost use Rattle.pw_opt_order.specs.Order.{forgotten};
ghost use Rattle.pw_opt_rows.specs.Joins.{joined, row_rank};
ghost use Rattle.pw_opt_rows.specs.Places.{at_place, with_place};

use crate::flats::{flat_below, join_flats, rank_of};
use pw_opt_places::Place;
use pw_opt_rules::Flat;
use smallvec::SmallVec;
use std::alloc::{AllocError as NoMemory, Global};
use std::marker::Model;

/// What is known at places, few of which need no allocation.
type Flats = SmallVec<Flat, 8>;

/// What is known of temporaries, by their places: of those that go from block to block, and of those that a block has for
/// itself. What is past the end is not known.
#[derive(Drop)]
pub struct Row {
    shared: Flats,
    own: Flats,
}

impl Model for Row {
    ghost use Rattle.std.specs.Prelude.{List};
    ghost use Rattle.pw_opt_rules.specs.declared.flat.Flat.{Flat as FlatValue};

    ghost Value = { List FlatValue × List FlatValue };

    ghost view = { λ inside. (inside.shared.items, inside.own.items) };
}

impl Row {
    /// A row of so many places for what goes from block to block, at Bottom, and of so many for what a block has for itself.
    pub fn bottom(alloc: Global, shared: usize, own: usize) -> Result<Row, NoMemory>
        ensures shared { IfOk result (λ row. row.0 ≡ replicate shared Bottom) }
        ensures own { IfOk result (λ row. length row.1 ≡ own) }
    {
        let shared = SmallVec::from_elem(alloc, Flat::Bottom, shared)?;
        let own = SmallVec::from_elem(alloc, Flat::Many, own)?;
        Ok(Row { shared, own })
    }

    /// What is known at a place, as a block sees it.
    pub(crate) fn get(&self, block: usize, place: Place) -> Flat
        ensures { result ≡ at_place block self.now place }
    {
        match place {
            Place::Nowhere => Flat::Many,
            Place::Own(b, at) => {
                if b == block {
                    flat_at(self.own.as_slice(), at)
                } else {
                    Flat::Many
                }
            }
            Place::Shared(at) => flat_at(self.shared.as_slice(), at),
        }
    }

    /// Sets what is known at a place.
    pub(crate) fn set(&mut self, place: Place, to: Flat)
        ensures { self.new ≡ with_place self.old place to }
    {
        match place {
            Place::Nowhere => {}
            Place::Own(_, at) => set_flat(self.own.as_mut_slice(), at, to),
            Place::Shared(at) => set_flat(self.shared.as_mut_slice(), at, to),
        }
    }

    /// Sets all shared places to Many.
    pub(crate) fn set_many(&mut self)
        ensures { self.new ≡ (replicate (length self.old.0) Many, self.old.1) }
    {
        self.shared.as_mut_slice().fill(Flat::Many);
    }

    /// Makes its shared places the same as those of another.
    pub(crate) fn copy_from(&mut self, other: &Row)
        requires { length self.old.0 ≡ length other.now.0 }
        ensures { self.new ≡ (other.now.0, self.old.1) }
    {
        self.shared
            .as_mut_slice()
            .copy_from_slice(other.shared.as_slice());
    }

    /// Sets the first of a block's own places to Many.
    pub(crate) fn renew(&mut self, count: usize)
        requires { count ≤ length self.old.1 }
        ensures shared { self.new.0 ≡ self.old.0 }
        ensures own { length self.new.1 ≡ length self.old.1 }
        ensures many { (j : ℕ) → j < count → known self.new.1 j ≡ Many }
    {
        make_many(self.own.as_mut_slice(), count);
    }

    /// Forgets at shared places, and at the first of a block's own, that they have this one.
    pub(crate) fn forget(&mut self, count: usize, of: u32)
        requires { count ≤ length self.old.1 }
        ensures shared { length self.new.0 ≡ length self.old.0 }
        ensures own { length self.new.1 ≡ length self.old.1 }
        ensures shared_gone { (i : ℕ) → i < length self.old.0 → known self.new.0 i ≡ forgotten of (known self.old.0 i) }
        ensures own_gone { (j : ℕ) → j < count → known self.new.1 j ≡ forgotten of (known self.old.1 j) }
    {
        let shared = self.shared.len();
        forget_first(self.shared.as_mut_slice(), shared, of);
        forget_first(self.own.as_mut_slice(), count, of);
    }

    /// Joins the shared places of another one into its own, and answers whether a place has risen.
    pub(crate) fn join(&mut self, other: &Row) -> bool
        requires { length self.old.0 ≡ length other.now.0 }
        ensures length { length self.new.0 ≡ length self.old.0 }
        ensures own { self.new.1 ≡ self.old.1 }
        ensures joins { (t : ℕ) → known self.new.0 t ≡ joined (known self.old.0 t) (known other.now.0 t) }
        ensures risen { OnTrue result (row_rank self.old.0 < row_rank self.new.0) }
        ensures stays { OnFalse result (self.new.0 ≡ self.old.0) }
    {
        join_rows(self.shared.as_mut_slice(), other.shared.as_slice())
    }

    /// Whether each shared place is at or below that of another.
    pub(crate) fn is_below(&self, other: &Row) -> bool
        requires { length self.now.0 ≡ length other.now.0 }
        ensures { IsTrue result ↔ IsRowBelow self.now.0 other.now.0 }
    {
        rows_below(self.shared.as_slice(), other.shared.as_slice())
    }
}

/// What stands at a place; past the end it is Many.
fn flat_at(flats: &[Flat], place: usize) -> Flat
    ensures { result ≡ known flats.now place }
{
    if place < flats.len() {
        flats[place]
    } else {
        Flat::Many
    }
}

/// Sets what stands at a place. Past the end it does nothing.
fn set_flat(flats: &mut [Flat], place: usize, to: Flat)
    ensures { flats.new ≡ slice_set flats.old place to }
{
    if place < flats.len() {
        flats[place] = to;
    }
}

/// Sets the first places to Many.
fn make_many(flats: &mut [Flat], count: usize)
    requires { count ≤ length flats.old }
    ensures length { length flats.new ≡ length flats.old }
    ensures many { (j : ℕ) → j < count → known flats.new j ≡ Many }
{
    for place in 0..count {
        flats[place] = Flat::Many;
    }
}

/// Whether it is this one thing.
fn is_one(known: Flat, n: u32) -> bool
    ensures { result ≡ is_one n known }
{
    match known {
        Flat::One(m) => m == n,
        Flat::Bottom | Flat::Many => false,
    }
}

/// Sets those of the first places that have this one to Many.
fn forget_first(flats: &mut [Flat], count: usize, of: u32)
    requires { count ≤ length flats.old }
    ensures length { length flats.new ≡ length flats.old }
    ensures gone { (j : ℕ) → j < count → known flats.new j ≡ forgotten of (known flats.old j) }
{
    for place in 0..count {
        if is_one(flats[place], of) {
            flats[place] = Flat::Many;
        }
    }
}

/// Joins `from` into `into` at each place, and answers whether one has risen.
fn join_rows(into: &mut [Flat], from: &[Flat]) -> bool
    requires { length into.old ≡ length from.now }
    ensures joins { (t : ℕ) → known into.new t ≡ joined (known into.old t) (known from.now t) }
    ensures risen { OnTrue result (row_rank into.old < row_rank into.new) }
    ensures stays { OnFalse result (into.new ≡ into.old) }
{
    let mut risen = false;
    for t in 0..into.len() {
        let old = into[t];
        let new = join_flats(old, from[t]);
        let before = rank_of(old);
        let after = rank_of(new);
        if before < after {
            into[t] = new;
            risen = true;
        }
    }
    risen
}

/// Whether each place of the first is at or below that of the second.
fn rows_below(a: &[Flat], b: &[Flat]) -> bool
    requires { length a.now ≡ length b.now }
    ensures { IsTrue result ↔ IsRowBelow a.now b.now }
{
    for t in 0..a.len() {
        if !flat_below(a[t], b[t]) {
            return false;
        }
    }
    true
}
