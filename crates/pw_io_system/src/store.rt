//! A folder's files as a store, which tells what the folder tells.

ghost use Rattle.std.specs.Prelude.{◌≡◌, ◌↔◌, ◌⊎◌, None, Some, Ok, Err, IfOk, IfErr, IsOk, OnOk, OnErr, string_cmp};
ghost use Rattle.std.specs.IoError.{error_kind};
ghost use Rattle.std.specs.List.Sorted.{IsSorted};
ghost use Rattle.pw_io.specs.Faults.{HasStoreCause, OnFailed, OnNoMemory};
ghost use Rattle.pw_io.specs.Files.{Keeps, ListsNames, ReadsPrefix, Puts, PutsPart, Removes};
ghost use Rattle.pw_io_system.specs.Faults.{IsCounted};

use crate::folder::Folder;
use crate::streams::raised;
use pw_io::{Store, StoreError};
use std::alloc::Global;
use std::io::{self, ErrorKind};

/// The files of a folder.
#[derive(Drop)]
pub struct FileStore<F> {
    folder: F,
    faults: u64,
}

impl<F> FileStore<F> {
    /// The files of this folder. No fault came so far.
    pub fn new(folder: F) -> Self
        ensures folder { result.folder ≡ folder }
        ensures faults { result.faults ≡ 0 }
    {
        FileStore { folder, faults: 0 }
    }

    /// A fault that counts.
    fn failed(&mut self) -> StoreError
        ensures value { result ≡ StoreError.Failed }
        ensures counted { IsCounted self.old.faults self.new.faults result }
        ensures folder { self.new.folder ≡ self.old.folder }
    {
        self.faults = raised(self.faults);
        StoreError::Failed
    }

    /// What a fault of the system is to the store: want of memory exactly where its kind is that, which is no fault,
    /// and any other counts.
    fn fault(&mut self, fault: io::Error) -> StoreError
        ensures memory { (result ≡ StoreError.NoMemory) ↔ (error_kind fault ≡ ErrorKind.OutOfMemory) }
        ensures counted { IsCounted self.old.faults self.new.faults result }
        ensures folder { self.new.folder ≡ self.old.folder }
    {
        if fault.kind() == ErrorKind::OutOfMemory {
            return StoreError::NoMemory;
        }
        self.failed()
    }

    /// What a fault is to a call for which an absent file is none: exactly where its kind is not found it is no fault.
    fn unless_absent(&mut self, fault: io::Error) -> Result<(), StoreError>
        ensures absent { error_kind fault ≡ ErrorKind.NotFound → IsOk result }
        ensures found { OnOk result (error_kind fault ≡ ErrorKind.NotFound) }
        ensures memory { IfErr result (λ e. (e ≡ StoreError.NoMemory) ↔ (error_kind fault ≡ ErrorKind.OutOfMemory)) }
        ensures counted { HasStoreCause self.old.faults self.new.faults result }
        ensures folder { self.new.folder ≡ self.old.folder }
    {
        if fault.kind() == ErrorKind::NotFound {
            return Ok(());
        }
        Err(self.fault(fault))
    }
}

impl<F: Folder> Store for FileStore<F> {
    ghost told = { λ store. F.told store.folder };

    ghost faults = { λ store. store.faults };

    fn names(&mut self, alloc: Global) -> Result<Vec<String>, StoreError>
        ensures names { IfOk result (λ names. ListsNames (F.told self.old.folder) names.items) }
        ensures sorted { IfOk result (λ names. IsSorted string_cmp names.items) }
        ensures same { Keeps (F.told self.old.folder) (F.told self.new.folder) }
        ensures cause { HasStoreCause self.old.faults self.new.faults result }
        ensures answered { IsOk result ↔ (F.last_fault self.new.folder ≡ None) }
        ensures memory { (result ≡ Err StoreError.NoMemory) ↔ (F.last_fault self.new.folder ≡ Some ErrorKind.OutOfMemory) }
    {
        match self.folder.names(alloc) {
            Ok(names) => Ok(names),
            Err(fault) => Err(self.fault(fault)),
        }
    }

    fn get(&mut self, alloc: Global, name: &str, most: usize) -> Result<Option<Vec<u8>>, StoreError>
        ensures file { IfOk result (λ file. ReadsPrefix (F.told self.old.folder) name.now most file) }
        ensures same { Keeps (F.told self.old.folder) (F.told self.new.folder) }
        ensures cause { HasStoreCause self.old.faults self.new.faults result }
        ensures absent { (result ≡ Ok None) ↔ (F.last_fault self.new.folder ≡ Some ErrorKind.NotFound) }
        ensures answered { IsOk result ↔ ((F.last_fault self.new.folder ≡ None) ⊎ (F.last_fault self.new.folder ≡ Some ErrorKind.NotFound)) }
        ensures memory { (result ≡ Err StoreError.NoMemory) ↔ (F.last_fault self.new.folder ≡ Some ErrorKind.OutOfMemory) }
    {
        let file = match self.folder.open(name) {
            Ok(file) => file,
            Err(fault) => {
                self.unless_absent(fault)?;
                return Ok(None);
            }
        };
        match self.folder.front(alloc, file, most) {
            Ok(bytes) => Ok(Some(bytes)),
            Err(fault) => Err(self.fault(fault)),
        }
    }

    /// A failed write may have changed the file, so that it is a fault for want of memory too.
    fn put(&mut self, _alloc: Global, name: &str, bytes: &[u8]) -> Result<(), StoreError>
        ensures ok { OnOk result (Puts (F.told self.old.folder) (F.told self.new.folder) name.now bytes.now) }
        ensures failed { OnFailed result (PutsPart (F.told self.old.folder) (F.told self.new.folder) name.now bytes.now) }
        ensures no_memory { OnNoMemory result (Keeps (F.told self.old.folder) (F.told self.new.folder)) }
        ensures cause { HasStoreCause self.old.faults self.new.faults result }
        ensures answered { IsOk result ↔ (F.last_fault self.new.folder ≡ None) }
        ensures fault { IfErr result (λ e. e ≡ StoreError.Failed) }
    {
        match self.folder.write(name, bytes) {
            Ok(()) => Ok(()),
            Err(_) => Err(self.failed()),
        }
    }

    fn remove(&mut self, _alloc: Global, name: &str) -> Result<(), StoreError>
        ensures ok { OnOk result (Removes (F.told self.old.folder) (F.told self.new.folder) name.now) }
        ensures err { OnErr result (Keeps (F.told self.old.folder) (F.told self.new.folder)) }
        ensures cause { HasStoreCause self.old.faults self.new.faults result }
        ensures answered { IsOk result ↔ ((F.last_fault self.new.folder ≡ None) ⊎ (F.last_fault self.new.folder ≡ Some ErrorKind.NotFound)) }
        ensures memory { (result ≡ Err StoreError.NoMemory) ↔ (F.last_fault self.new.folder ≡ Some ErrorKind.OutOfMemory) }
    {
        match self.folder.remove(name) {
            Ok(()) => Ok(()),
            Err(fault) => self.unless_absent(fault),
        }
    }
}
