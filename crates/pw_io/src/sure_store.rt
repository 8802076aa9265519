// A store in memory that has no fault.
ghost use Rattle.std.specs.Prelude.{◌≡◌, [], map, Some, IfOk, IsOk, OnOk, OnErr, string_bytes};
ghost use Rattle.std.specs.Option.{option_map};
ghost use Rattle.std.specs.FinMap as finite;
ghost use Rattle.pw_io.specs.Faults.{HasStoreCause, OnFailed, OnNoMemory};
ghost use Rattle.pw_io.specs.Files.{Keeps, ListsNames, ReadsPrefix, Puts, PutsPart, Removes, after_put, after_remove};
ghost use Rattle.pw_io.specs.Shelf.{files_of};

use crate::shelf::Shelf;
use crate::{NoMemory, Store, StoreError};
use std::alloc::Global;
use std::marker::Model;

/// A store that has no fault. It is seen as its files and the names put so far.
#[derive(Drop)]
pub struct SureStore {
    shelf: Shelf,
}

impl Model for SureStore {
    ghost use Rattle.pw_io.specs.Files.{Told};
    ghost use Rattle.pw_io.specs.Codes.{told_code};

    ghost Value = { Told };

    ghost coded = { told_code };

    ghost view = { λ s. s.shelf };
}

impl SureStore {
    /// A store of these files, to which nothing was put so far. Where a name stands twice the last
    /// entry counts.
    pub fn new(alloc: Global, files: &[(String, Vec<u8>)]) -> Result<SureStore, NoMemory>
        ensures { IfOk result (λ store. store ≡ record { files = files_of files.now; puts = [] }) }
    {
        Ok(SureStore {
            shelf: Shelf::new(alloc, files)?,
        })
    }

    /// The bytes of a file, or `None` exactly where the name is absent. Takes no memory.
    pub fn bytes_of(&self, name: &str) -> Option<&[u8]>
        ensures { option_map (λ bytes. bytes.now) result ≡ finite.get self.now.files name.now }
    {
        self.shelf.bytes_of(name)
    }

    /// The names put so far, the first of them first. Takes no memory.
    pub fn puts(&self) -> &[String]
        ensures { map string_bytes result.now ≡ self.now.puts }
    {
        self.shelf.puts()
    }
}

impl Store for SureStore {
    ghost told = { λ s. Some s };

    ghost faults = { λ _. 0 };

    fn names(&mut self, alloc: Global) -> Result<Vec<String>, StoreError>
        ensures sure { OnFailed result ⊥ }
        ensures kept { self.new ≡ self.old }
        ensures names { IfOk result (λ names. ListsNames (Some self.old) names.items) }
        ensures same { Keeps (Some self.old) (Some self.new) }
        ensures cause { HasStoreCause 0 0 result }
    {
        Ok(self.shelf.names(alloc)?)
    }

    fn get(&mut self, alloc: Global, name: &str, most: usize) -> Result<Option<Vec<u8>>, StoreError>
        ensures sure { OnFailed result ⊥ }
        ensures kept { self.new ≡ self.old }
        ensures file { IfOk result (λ file. ReadsPrefix (Some self.old) name.now most file) }
        ensures same { Keeps (Some self.old) (Some self.new) }
        ensures cause { HasStoreCause 0 0 result }
    {
        Ok(self.shelf.get(alloc, name, most)?)
    }

    fn put(&mut self, alloc: Global, name: &str, bytes: &[u8]) -> Result<(), StoreError>
        ensures sure { OnFailed result ⊥ }
        ensures put { OnOk result (self.new ≡ after_put self.old name.now bytes.now) }
        ensures kept { OnErr result (self.new ≡ self.old) }
        ensures ok { OnOk result (Puts (Some self.old) (Some self.new) name.now bytes.now) }
        ensures failed { OnFailed result (PutsPart (Some self.old) (Some self.new) name.now bytes.now) }
        ensures no_memory { OnNoMemory result (Keeps (Some self.old) (Some self.new)) }
        ensures cause { HasStoreCause 0 0 result }
    {
        self.shelf.put(alloc, name, bytes)?;
        Ok(())
    }

    /// Takes no memory.
    fn remove(&mut self, _alloc: Global, name: &str) -> Result<(), StoreError>
        ensures sure { IsOk result }
        ensures removed { self.new ≡ after_remove self.old name.now }
        ensures ok { OnOk result (Removes (Some self.old) (Some self.new) name.now) }
        ensures err { OnErr result (Keeps (Some self.old) (Some self.new)) }
        ensures cause { HasStoreCause 0 0 result }
    {
        self.shelf.remove(name);
        Ok(())
    }
}
