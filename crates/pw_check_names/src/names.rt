//! Names in the order in which they came, and the first place of each.

ghost use Rattle.std.specs.Prelude.{◌≡◌, [], ◌∷◌, ◌++◌, length, position, slice_get, OnOk, OnErr};
ghost use Rattle.std.specs.List.{list_any};
ghost use Rattle.std.specs.Option.{option_copied};
ghost use Rattle.std.specs.Str.{bytes_eq};
ghost use Rattle.pw_check_names.specs.Names.{noted};

use pw_scope::Scopes;
use pw_value::words::word_of;
use std::alloc::{AllocError, Global};
use std::marker::Model;

/// Names in the order in which they came, of which each may come several times. They are pieces of the text. A
/// contract sees the list of the names.
#[derive(Drop)]
pub struct NameList<'a> {
    names: Vec<&'a [u8]>,
    // For each name the place at which it came first.
    places: Scopes<'a, u32>,
}

impl<'a> Model for NameList<'a> {
    ghost use Rattle.std.specs.Prelude.{ℕ, List};
    ghost use Rattle.pw_check_names.specs.Names.{texts, TellsFirst};

    ghost Value = { List (List ℕ) };

    ghost view = { λ inside. texts inside.names.items };

    ghost invariant = { λ inside. TellsFirst (texts inside.names.items) inside.places };
}

impl<'a> NameList<'a> {
    /// An empty list.
    pub fn new(alloc: Global) -> NameList<'a>
        ensures { result ≡ [] }
    {
        NameList {
            names: Vec::new(alloc),
            places: Scopes::new(alloc),
        }
    }

    /// Puts a name behind the others. There are no more than 32 bits count.
    pub fn push(&mut self, name: &'a [u8]) -> Result<(), AllocError>
        ensures ok { OnOk result (self.new ≡ self.old ++ name.now ∷ []) }
        ensures err { OnErr result (self.new ≡ self.old) }
    {
        let place = word_of(self.names.len())?;
        self.names.reserve(1)?;
        note(&mut self.places, name, place)?;
        self.names.push(name)?;
        Ok(())
    }

    /// The place at which a name came first, or None where it did not come.
    pub fn position(&self, name: &[u8]) -> Option<u32>
        ensures { result ≡ position (bytes_eq name.now) self.now }
    {
        self.places.visible(name)
    }

    /// Whether a name stands in the list.
    pub fn contains(&self, name: &[u8]) -> bool
        ensures { result ≡ list_any (bytes_eq name.now) self.now }
    {
        self.position(name).is_some()
    }

    /// How many names the list has.
    pub fn len(&self) -> usize
        ensures { result ≡ length self.now }
    {
        self.names.len()
    }

    /// The name at a place of the list, where there is one.
    pub fn get(&self, place: usize) -> Option<&'a [u8]>
        ensures { option_copied result ≡ slice_get self.now place }
    {
        self.names.get(place).copied()
    }
}

// A name comes at a place, and its first place stands.
fn note<'a>(places: &mut Scopes<'a, u32>, name: &'a [u8], place: u32) -> Result<(), AllocError>
    ensures ok { OnOk result (places.new ≡ noted places.old name.now place) }
    ensures err { OnErr result (places.new ≡ places.old) }
{
    if places.visible(name).is_none() {
        places.declare(name, place)?;
    }
    Ok(())
}
