// A store in memory that fails at given calls.
ghost use Rattle.std.specs.Prelude.{◌≡◌, ◌↔◌, [], map, Some, IsSome, IsSomeAnd, IfOk, IsNone, OnOk, OnErr, string_bytes};
ghost use Rattle.std.specs.Option.{option_map};
ghost use Rattle.std.specs.FinMap as finite;
ghost use Rattle.pw_io.specs.Faults.{HasStoreCause, OnFailed, OnNoMemory, next_fault};
ghost use Rattle.pw_io.specs.Files.{Keeps, ListsNames, ReadsPrefix, Puts, PutsPart, Removes, after_put, after_remove};
ghost use Rattle.pw_io.specs.Shelf.{files_of};
ghost use Rattle.pw_io.specs.MemoryStore.{left_by_call, next_left, left_files, counted, counted_fault, with_files};

use crate::calls::Tally;
use crate::shelf::Shelf;
use crate::{NoMemory, Store, StoreError};
use std::alloc::Global;
use std::marker::Model;

/// What a failed put leaves of the file.
#[derive(Clone, Copy)]
pub enum Left {
    /// The file as it was.
    Old,
    /// No file.
    Nothing,
    /// So many of the first new bytes, but fewer than all. Of no bytes there are no fewer: the file
    /// is as it was.
    Prefix(usize),
}

/// A call of a store that fails.
#[derive(Clone, Copy)]
pub struct StoreFail {
    /// The call's number among all calls of the store, from 1.
    pub call: u64,
    /// What the call leaves of the file, where it is a put.
    pub leaves: Left,
}

/// What the call leaves, if its number stands in the list. The last entry of the number counts.
#[tactic(auto, unfolding(crate::specs::MemoryStore::left_by_call))]
fn left_by(fails: &[StoreFail], call: u128) -> Option<Left>
    ensures { result ≡ left_by_call fails.now call }
{
    fails
        .iter()
        .rev()
        .find(|fail| u128::from(fail.call) == call)
        .map(|fail| fail.leaves)
}

/// A store that fails at given calls. Calls of all four kinds are numbered together, from 1.
#[derive(Drop)]
pub struct MemStore {
    shelf: Shelf,
    tally: Tally,
    fails: Vec<StoreFail>,
}

impl Model for MemStore {
    ghost use Rattle.pw_io.specs.MemoryStore.{MemStoreState};
    ghost use Rattle.pw_io.specs.Codes.{store_code};

    ghost Value = { MemStoreState };

    ghost coded = { store_code };

    ghost view = { λ s. record {
      told = s.shelf;
      calls = s.tally.calls;
      faults = s.tally.faults;
      fails = s.fails.items;
    } };
}

impl MemStore {
    /// A store of these files, to which nothing was put so far, and the calls of it that fail. Where
    /// a name stands twice in `files`, or a number twice in `fails`, the last entry counts.
    pub fn new(
        alloc: Global,
        files: &[(String, Vec<u8>)],
        fails: &[StoreFail],
    ) -> Result<MemStore, NoMemory>
        ensures { IfOk result (λ store. store ≡ record {
          told = record { files = files_of files.now; puts = [] };
          calls = 0;
          faults = 0;
          fails = fails.now;
        }) }
    {
        Ok(MemStore {
            shelf: Shelf::new(alloc, files)?,
            tally: Tally::new(),
            fails: fails.to_vec(alloc)?,
        })
    }

    /// The bytes of a file, or `None` exactly where the name is absent. Takes no memory.
    pub fn bytes_of(&self, name: &str) -> Option<&[u8]>
        ensures { option_map (λ bytes. bytes.now) result ≡ finite.get self.now.told.files name.now }
    {
        self.shelf.bytes_of(name)
    }

    /// The names put so far, the first of them first. Takes no memory.
    pub fn puts(&self) -> &[String]
        ensures { map string_bytes result.now ≡ self.now.told.puts }
    {
        self.shelf.puts()
    }

    /// Counts a call, and says what it leaves if it is one that fails.
    fn begin(&mut self) -> Option<Left>
        ensures left { result ≡ next_left self.old }
        ensures new { self.new ≡ counted self.old }
    {
        let call = self.tally.next_call();
        left_by(&self.fails, call)
    }

    /// Counts a fault, and answers it.
    fn fault(&mut self) -> StoreError
        ensures failed { result ≡ StoreError.Failed }
        ensures new { self.new ≡ record self.old { faults = next_fault self.old.faults } }
    {
        self.tally.count_fault();
        StoreError::Failed
    }

    /// Leaves of the file what a failed put leaves.
    fn leave(&mut self, alloc: Global, left: Left, name: &str, bytes: &[u8]) -> Result<(), NoMemory>
        ensures ok { OnOk result
            (self.new ≡ with_files self.old (left_files left self.old.told.files name.now bytes.now)) }
        ensures err { OnErr result (self.new ≡ self.old) }
    {
        match left {
            Left::Old => {}
            Left::Nothing => self.shelf.remove(name),
            Left::Prefix(most) => {
                if !bytes.is_empty() {
                    let part = &bytes[..most.min(bytes.len() - 1)];
                    self.shelf.set(alloc, name, part)?;
                }
            }
        }
        Ok(())
    }
}

impl Store for MemStore {
    ghost told = { λ s. Some s.told };

    ghost faults = { λ s. s.faults };

    fn names(&mut self, alloc: Global) -> Result<Vec<String>, StoreError>
        ensures fails { (result ≡ Err StoreError.Failed) ↔ IsSome (next_left self.old) }
        ensures refused { OnFailed result (self.new ≡ counted_fault self.old) }
        ensures ready { IsNone (next_left self.old) → self.new ≡ counted self.old }
        ensures names { IfOk result (λ names. ListsNames (Some self.old.told) names.items) }
        ensures same { Keeps (Some self.old.told) (Some self.new.told) }
        ensures cause { HasStoreCause self.old.faults self.new.faults result }
    {
        if self.begin().is_some() {
            return Err(self.fault());
        }
        Ok(self.shelf.names(alloc)?)
    }

    fn get(&mut self, alloc: Global, name: &str, most: usize) -> Result<Option<Vec<u8>>, StoreError>
        ensures fails { (result ≡ Err StoreError.Failed) ↔ IsSome (next_left self.old) }
        ensures refused { OnFailed result (self.new ≡ counted_fault self.old) }
        ensures ready { IsNone (next_left self.old) → self.new ≡ counted self.old }
        ensures file { IfOk result (λ file. ReadsPrefix (Some self.old.told) name.now most file) }
        ensures same { Keeps (Some self.old.told) (Some self.new.told) }
        ensures cause { HasStoreCause self.old.faults self.new.faults result }
    {
        match self.begin() {
            Some(_) => Err(self.fault()),
            None => Ok(self.shelf.get(alloc, name, most)?),
        }
    }

    fn put(&mut self, alloc: Global, name: &str, bytes: &[u8]) -> Result<(), StoreError>
        ensures put { OnOk result
            (IsNone (next_left self.old)
            × (self.new ≡ record (counted self.old) { told = after_put self.old.told name.now bytes.now })) }
        ensures left { OnFailed result (IsSomeAnd (next_left self.old) (λ left.
            self.new ≡ with_files (counted_fault self.old) (left_files left self.old.told.files name.now bytes.now))) }
        ensures kept { OnNoMemory result (self.new ≡ counted self.old) }
        ensures ok { OnOk result (Puts (Some self.old.told) (Some self.new.told) name.now bytes.now) }
        ensures failed { OnFailed result (PutsPart (Some self.old.told) (Some self.new.told) name.now bytes.now) }
        ensures no_memory { OnNoMemory result (Keeps (Some self.old.told) (Some self.new.told)) }
        ensures cause { HasStoreCause self.old.faults self.new.faults result }
    {
        if let Some(left) = self.begin() {
            self.leave(alloc, left, name, bytes)?;
            return Err(self.fault());
        }
        self.shelf.put(alloc, name, bytes)?;
        Ok(())
    }

    /// Takes no memory.
    fn remove(&mut self, _alloc: Global, name: &str) -> Result<(), StoreError>
        ensures fails { (result ≡ Err StoreError.Failed) ↔ IsSome (next_left self.old) }
        ensures memory { OnNoMemory result ⊥ }
        ensures refused { OnErr result (self.new ≡ counted_fault self.old) }
        ensures removed { OnOk result
            (self.new ≡ record (counted self.old) { told = after_remove self.old.told name.now }) }
        ensures ok { OnOk result (Removes (Some self.old.told) (Some self.new.told) name.now) }
        ensures err { OnErr result (Keeps (Some self.old.told) (Some self.new.told)) }
        ensures cause { HasStoreCause self.old.faults self.new.faults result }
    {
        if self.begin().is_some() {
            return Err(self.fault());
        }
        self.shelf.remove(name);
        Ok(())
    }
}
