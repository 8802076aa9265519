//! Places of temporaries in rows of what is known.

ghost use Rattle.std.specs.Prelude.{◌≡◌, [], ◌<◌, ◌≤◌, ℕ, All, IfOk, OnOk, length, slice_index_or};
ghost use Rattle.pw_opt_places.specs.declared.places.Place.TheVariants as place;
ghost use Rattle.pw_opt_places.specs.Giving.{AreGivenIn, HasPlace, IsHomeBelow, ArePlacesFor, place_for};
ghost use Rattle.pw_opt_places.specs.Places.{place_of, ArePlaces, ArePlacesOf};

use crate::homes::{Home, Homes};
use pw_flow::FlowFn;
use std::alloc::{AllocError as NoMemory, Global};

/// Where a row keeps what is known of a temporary.
#[derive(Clone, Copy)]
pub enum Place {
    /// Nowhere: no block has it.
    Nowhere,
    /// Among those of a block, which has it for itself: the block, and its number there.
    Own(usize, usize),
    /// Among those that go from block to block: its number there.
    Shared(usize),
}

/// The places of temporaries.
#[derive(Drop)]
pub struct Places {
    /// Of each temporary.
    pub places: Vec<Place>,
    /// Those that go from block to block, by their numbers.
    pub names: Vec<u32>,
    /// How many each block has for itself.
    pub counts: Vec<usize>,
    /// The most of these.
    pub own: usize,
    pub ghost are: { ArePlaces places.items names.items counts.items own },
}

/// Places that are given so far.
#[derive(Drop)]
pub(crate) struct Given {
    places: Vec<Place>,
    names: Vec<u32>,
    counts: Vec<usize>,
}

impl Given {
    /// None so far, for a function of so many temporaries and blocks.
    fn none(alloc: Global, temps: usize, blocks: usize) -> Result<Given, NoMemory>
        ensures are { IfOk result AreGivenIn }
        ensures places { IfOk result (λ given. given.places.items ≡ []) }
        ensures blocks { IfOk result (λ given. length given.counts.items ≡ blocks) }
    {
        let places = Vec::with_capacity(alloc, temps)?;
        let counts = vec![in alloc; 0; blocks]?;
        Ok(Given {
            places,
            names: Vec::new(alloc),
            counts,
        })
    }

    /// The next temporary has no place.
    fn pass_over(&mut self) -> Result<(), NoMemory>
        requires { AreGivenIn self.old }
        ensures are { OnOk result (AreGivenIn self.new) }
        ensures place { OnOk result (HasPlace self.old self.new place.Nowhere) }
    {
        self.places.push(Place::Nowhere)?;
        Ok(())
    }

    /// The next temporary has one of those of a block.
    fn give_own(&mut self, block: usize) -> Result<(), NoMemory>
        requires are { AreGivenIn self.old }
        requires block { block < length self.old.counts.items }
        ensures are { OnOk result (AreGivenIn self.new) }
        ensures place { OnOk result (HasPlace self.old self.new (place.Own block (slice_index_or self.old.counts.items block 0))) }
    {
        let number = self.counts[block];
        let next = number + 1;
        self.places.push(Place::Own(block, number))?;
        self.counts[block] = next;
        Ok(())
    }

    /// The next temporary, which is this one, has one of those that go from block to block.
    fn share(&mut self, t: u32) -> Result<(), NoMemory>
        requires are { AreGivenIn self.old }
        requires next { t ≡ length self.old.places.items }
        ensures are { OnOk result (AreGivenIn self.new) }
        ensures place { OnOk result (HasPlace self.old self.new (place.Shared (length self.old.names.items))) }
    {
        let number = self.names.len();
        self.names.push(t)?;
        self.places.push(Place::Shared(number))?;
        Ok(())
    }

    /// The next temporary, which is this one, has the place that it needs.
    fn give(&mut self, t: u32, home: Home) -> Result<(), NoMemory>
        requires are { AreGivenIn self.old }
        requires next { t ≡ length self.old.places.items }
        requires home { IsHomeBelow (length self.old.counts.items) home }
        ensures are { OnOk result (AreGivenIn self.new) }
        ensures place { OnOk result (HasPlace self.old self.new (place_for home self.old.names.items self.old.counts.items)) }
    {
        match home {
            Home::Nowhere => self.pass_over(),
            Home::At(block) => self.give_own(block),
            Home::Everywhere => self.share(t),
        }
    }

    /// So many temporaries have the places that they need.
    fn give_all(&mut self, temps: u32, homes: &Homes) -> Result<(), NoMemory>
        requires are { AreGivenIn self.old }
        requires first { self.old.places.items ≡ [] }
        requires homes { All (IsHomeBelow (length self.old.counts.items)) homes.now }
        ensures are { OnOk result (AreGivenIn self.new) }
        ensures places { OnOk result (ArePlacesFor temps homes.now self.new.places.items) }
    {
        for t in 0..temps {
            self.give(t, homes.at(t))?;
        }
        Ok(())
    }
}

/// The larger of two numbers.
fn larger(a: usize, b: usize) -> usize
    ensures first { a ≤ result }
    ensures second { b ≤ result }
    ensures least { (n : ℕ) → a ≤ n → b ≤ n → result ≤ n }
{
    if a < b { b } else { a }
}

/// The greatest of some numbers, or 0.
fn greatest(numbers: &[usize]) -> usize
    ensures bound { All (λ n. n ≤ result) numbers.now }
    ensures least { (n : ℕ) → All (λ m. m ≤ n) numbers.now → result ≤ n }
{
    let mut most = 0;
    for &n in numbers {
        most = larger(most, n);
    }
    most
}

impl Places {
    /// Those of no temporaries.
    pub fn none(alloc: Global) -> Places
        ensures { result.places.items ≡ [] }
    {
        Places {
            places: Vec::new(alloc),
            names: Vec::new(alloc),
            counts: Vec::new(alloc),
            own: 0,
        }
    }

    /// Those of the temporaries of a function.
    ///
    /// # Errors
    ///
    /// `NoMemory` where there is no memory for three places for each temporary and one for each block.
    pub fn of(alloc: Global, f: &FlowFn) -> Result<Places, NoMemory>
        ensures { IfOk result (λ places. ArePlacesOf f.now places.places.items) }
    {
        let homes = Homes::of(alloc, f)?;
        let mut given = Given::none(alloc, f.temps as usize, f.blocks.len())?;
        given.give_all(f.temps, &homes)?;
        let own = greatest(&given.counts);
        let Given {
            places,
            names,
            counts,
        } = given;
        Ok(Places {
            places,
            names,
            counts,
            own,
        })
    }

    /// The place of temporary `t`: nowhere past those that there are.
    pub fn at(&self, t: u32) -> Place
        ensures { result ≡ place_of self.now.places.items t }
    {
        let place = t as usize;
        if place < self.places.len() {
            self.places[place]
        } else {
            Place::Nowhere
        }
    }

    /// How many go from block to block.
    pub fn shared(&self) -> usize
        ensures { result ≡ length self.now.names.items }
    {
        self.names.len()
    }

    /// How many a block has for itself.
    pub fn count(&self, block: usize) -> usize
        ensures { result ≡ slice_index_or self.now.counts.items block 0 }
    {
        if block < self.counts.len() {
            self.counts[block]
        } else {
            0
        }
    }
}
