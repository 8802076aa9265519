//! The names in scope.

ghost use Rattle.std.specs.Prelude.{◌≡◌, [], ◌∷◌, ◌++◌, ◌-◌, ◌↔◌, length, map, take, drop, IsTrue, IfOk, OnOk, OnErr};
ghost use Rattle.pw_scope.specs.Visible.{visible};
ghost use Rattle.indexmap.specs.IndexMap.{ContainsKey, Updates};
ghost use Rattle.pw_scope.specs.Log.{declared_by, same_name};

use crate::entry::Entry;
use indexmap::IndexMap;
use std::alloc::{AllocError as NoMemory, Global};
use std::marker::Model;

/// The names in scope at a place of a text, each with what it stands for (ISO/IEC 9899:1990
/// 6.1.2.1). Names are pieces of the text.
///
/// A contract sees it as the list of the declarations that count, the newest last. The last one of
/// a name is visible and hides the others.
#[derive(Drop)]
pub struct Scopes<'a, T> {
    entries: Vec<Entry<'a, T>>,
    // For each name the place of its last entry.
    last_places: IndexMap<&'a [u8], usize>,
}

impl<'a, T> Model for Scopes<'a, T> {
    ghost use Rattle.std.specs.Prelude.{ℕ, List};

    ghost Value = { List (List ℕ × T) };

    ghost use Rattle.pw_scope.specs.Log.{declared_by, Agree};

    ghost view = { λ inside. declared_by inside.entries.items };

    ghost invariant = { λ inside. Agree inside.entries.items inside.last_places.entries };
}

impl<'a, T: Copy> Scopes<'a, T> {
    /// No names.
    pub fn new(alloc: Global) -> Self
        ensures { result ≡ [] }
    {
        Scopes {
            entries: Vec::new(alloc),
            last_places: IndexMap::new(alloc),
        }
    }

    /// Declares a name, which hides what it stood for until the scope is left. In one scope too the
    /// later declaration counts.
    pub fn declare(&mut self, name: &'a [u8], meaning: T) -> Result<(), NoMemory>
        ensures ok { OnOk result (self.new ≡ self.old ++ (name.now, meaning) ∷ []) }
        ensures err { OnErr result (self.new ≡ self.old) }
    {
        self.entries.reserve(1)?;
        let hidden = self.last_places.insert(name, self.entries.len())?;
        self.entries.push(Entry {
            name,
            meaning,
            hidden,
        })?;
        Ok(())
    }

    /// What a name stands for, or None where it is not in scope.
    pub fn visible(&self, name: &[u8]) -> Option<T>
        ensures { result ≡ visible self.now name.now }
    {
        let place = *self.last_places.get(name)?;
        Some(self.entries[place].meaning)
    }

    /// Whether no declaration counts.
    pub fn is_empty(&self) -> bool
        ensures { IsTrue result ↔ (self.now ≡ []) }
    {
        self.entries.is_empty()
    }

    /// How many declarations count. The number at the start of a scope is what `leave` takes at its
    /// end.
    pub fn len(&self) -> usize
        ensures { result ≡ length self.now }
    {
        self.entries.len()
    }

    /// The declarations behind the first `len`.
    pub fn since(&self, alloc: Global, len: usize) -> Result<Vec<(&'a [u8], T)>, NoMemory>
        ensures { IfOk result (λ declared. map (λ d. (d.0.now, d.1)) declared.items ≡ drop len self.now) }
    {
        pairs(alloc, behind(&self.entries, len))
    }

    /// Forgets all but the first `len` declarations, so that what they hid is visible again. Where
    /// there are no more, nothing changes.
    pub fn leave(&mut self, len: usize)
        ensures { self.new ≡ take len self.old }
    {
        while self.entries.len() > len {
            self.forget_last();
        }
    }

    // Forgets the last declaration.
    fn forget_last(&mut self)
        ensures { self.new ≡ take (length self.old - 1) self.old }
    {
        if let Some(entry) = self.entries.pop() {
            restore(&mut self.last_places, entry.name, entry.hidden);
        }
    }
}

// Puts the place of a name back to what it was before the name's last declaration.
fn restore<'a>(last_places: &mut IndexMap<&'a [u8], usize>, name: &'a [u8], hidden: Option<usize>)
    requires { ContainsKey same_name last_places.old name }
    ensures { Updates same_name last_places.old last_places.new name.entry hidden }
{
    match hidden {
        Some(place) => {
            if let Some(at) = last_places.get_mut(name) {
                *at = place;
            }
        }
        None => {
            last_places.swap_remove(name);
        }
    }
}

fn behind<'e, 'a, T>(entries: &'e [Entry<'a, T>], len: usize) -> &'e [Entry<'a, T>]
    ensures { declared_by result.now ≡ drop len (declared_by entries.now) }
{
    if len < entries.len() {
        &entries[len..]
    } else {
        &[]
    }
}

fn pairs<'a, T: Copy>(
    alloc: Global,
    entries: &[Entry<'a, T>],
) -> Result<Vec<(&'a [u8], T)>, NoMemory>
    ensures { IfOk result (λ found. map (λ d. (d.0.now, d.1)) found.items ≡ declared_by entries.now) }
{
    let mut found = Vec::new(alloc);
    for entry in entries {
        found.push((entry.name, entry.meaning))?;
    }
    Ok(found)
}
