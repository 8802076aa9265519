//! The objects of a run, each at its number.

ghost use Rattle.std.specs.Prelude.{true, ◌≡◌, ◌<◌, ◌^◌, [], length, OnErr, IfOk};
ghost use Rattle.pw_value.specs.Caps.{capped};
ghost use Rattle.pw_value.specs.Objects.{object_at, with_object, written, ended, with_bytes};
ghost use Rattle.pw_interp_state.specs.Views.{fresh, view_object};

use crate::bytes::write_bytes;
use pw_value::{Byte, cap};
use std::alloc::{AllocError, Global};
use std::marker::Model;

/// An object: its bytes, whether it lives, and whether it may be written.
#[derive(Drop)]
pub(crate) struct Stored {
    pub bytes: Vec<Byte>,
    pub live: bool,
    pub writable: bool,
}

/// The objects of a run (ISO C90 6.1.2.4), each at its number, counted from 0. An object has fewer than 2^32
/// bytes. A contract sees the list of them. At a number that no object has there are no bytes and no life.
#[derive(Drop)]
pub struct Objects {
    all: Vec<Stored>,
}

impl Model for Objects {
    ghost use Rattle.std.specs.Prelude.{List, All};
    ghost use Rattle.pw_value.specs.Objects.{Object};

    ghost Value = { List Object };

    ghost use Rattle.pw_interp_state.specs.Views.{view_objects, IsShort};

    ghost view = { λ inside. view_objects inside.all.items };

    ghost invariant = { λ inside. All IsShort (view_objects inside.all.items) };
}

/// The place in memory of the object of a number, or past all places.
fn place(number: u128) -> usize
    ensures { result ≡ capped number }
{
    cap(number) as usize
}

/// Puts new bytes in place of those of an object from an offset on.
#[tactic(auto, using(crate::proofs::ObjectLemmas::length_with_bytes))]
fn write_in(object: &mut Stored, offset: u32, new: &[Byte])
    ensures { view_object object.new ≡ record (view_object object.old) { bytes = with_bytes new.now offset object.old.bytes.items } }
{
    write_bytes(&mut object.bytes, offset, new);
}

impl Objects {
    /// An empty list of objects.
    pub fn new(alloc: Global) -> Objects
        ensures { result ≡ [] }
    {
        Objects {
            all: Vec::new(alloc),
        }
    }

    /// How many objects were made.
    pub fn count(&self) -> usize
        ensures { result ≡ length self.now }
    {
        self.all.len()
    }

    /// The bytes of the object of a number, as many as its size; of a number that no object has, none.
    #[tactic(auto, using(crate::proofs::ObjectLemmas::short_at))]
    pub fn bytes(&self, number: u128) -> &[Byte]
        ensures bytes { result.now ≡ (object_at self.now number).bytes }
        ensures short { length result.now < 2 ^ 32 }
    {
        match self.all.get(place(number)) {
            Some(object) => object.bytes.as_slice(),
            None => &[],
        }
    }

    /// Whether an object has not ended.
    pub fn is_live(&self, number: u128) -> bool
        ensures { result ≡ (object_at self.now number).live }
    {
        match self.all.get(place(number)) {
            Some(object) => object.live,
            None => false,
        }
    }

    /// Whether an object may be written.
    pub fn is_writable(&self, number: u128) -> bool
        ensures { result ≡ (object_at self.now number).writable }
    {
        match self.all.get(place(number)) {
            Some(object) => object.writable,
            None => false,
        }
    }

    /// Puts an object of these bytes behind the others, and answers its number.
    pub fn add(&mut self, bytes: Vec<Byte>, writable: bool) -> Result<u128, AllocError>
        requires { length bytes.items < 2 ^ 32 }
        ensures number { IfOk result (λ number. number ≡ length self.old) }
        ensures ok { IfOk result (λ number. self.new ≡ with_object (record { bytes = bytes.items; live = true; writable = writable }) self.old) }
        ensures err { OnErr result (self.new ≡ self.old) }
    {
        let number = self.all.len() as u128;
        self.all.push(Stored {
            bytes,
            live: true,
            writable,
        })?;
        Ok(number)
    }

    /// Makes an object of so many undefined bytes, and answers its number.
    pub fn make(&mut self, alloc: Global, size: u32, writable: bool) -> Result<u128, AllocError>
        ensures number { IfOk result (λ number. number ≡ length self.old) }
        ensures ok { IfOk result (λ number. self.new ≡ with_object (fresh size writable) self.old) }
        ensures err { OnErr result (self.new ≡ self.old) }
    {
        let mut bytes = Vec::new(alloc);
        bytes.resize(size as usize, Byte::Undefined)?;
        self.add(bytes, writable)
    }

    /// Ends an object, which keeps its number and its bytes.
    #[tactic(auto, using(crate::proofs::ObjectLemmas::ended_within, crate::proofs::ObjectLemmas::short_at, crate::proofs::ObjectLemmas::short_set))]
    pub fn end(&mut self, number: u128)
        ensures { self.new ≡ ended number self.old }
    {
        if let Some(object) = self.all.get_mut(place(number)) {
            object.live = false;
        }
    }

    /// Puts new bytes in place of those of an object from an offset on; what would stand past its end is dropped.
    #[tactic(auto, using(crate::proofs::ObjectLemmas::written_within, crate::proofs::ObjectLemmas::short_at, crate::proofs::ObjectLemmas::short_set, crate::proofs::ObjectLemmas::length_with_bytes))]
    pub fn write(&mut self, number: u128, offset: u32, new: &[Byte])
        ensures { self.new ≡ written number offset new.now self.old }
    {
        if let Some(object) = self.all.get_mut(place(number)) {
            write_in(object, offset, new);
        }
    }
}
