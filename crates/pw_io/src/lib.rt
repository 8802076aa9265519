//! The outside as three traits: where a run's input comes from (`Source`), where its output goes
//! (`Sink`) and where files are kept (`Store`), with forms of each that live in memory.
//!
//! Each object counts its faults. A call answers `Failed` only where that count rose in it, and every
//! other answer leaves the count as it was. What an object holds is said by a ghost member that may
//! be `None`: such an object tells nothing, as the real streams and folders.
#![tactic(auto)]

ghost use Rattle.std.specs.Prelude.{◌≡◌, ℕ, List, [], Option, IsOk, IfOk, OnOk, OnErr};
ghost use Rattle.pw_io.specs.Faults.{HasCause, HasStoreCause, OnFailed, OnNoMemory};
ghost use Rattle.pw_io.specs.Streams.{TakesNext, Appends, AppendsPart};
ghost use Rattle.pw_io.specs.Files.{Told, Keeps, ListsNames, ReadsPrefix, Puts, PutsPart, Removes};

use std::alloc::Global;

mod calls;
mod kept;
pub mod laws;
mod mem_store;
mod shelf;
mod sinks;
mod sources;
mod sure_store;

pub use mem_store::{Left, MemStore, StoreFail};
pub use sinks::{DropSink, MemSink, SureSink};
pub use sources::{MemSource, SureSource};
pub use sure_store::SureStore;

/// Memory ran out. A call that answers so leaves the values that it was lent as they were.
pub use std::alloc::AllocError as NoMemory;

/// A source or a sink had a fault.
#[derive(Clone, Copy, Debug)]
pub struct Failed;

/// Why a store did not do what it was asked.
#[derive(Clone, Copy, Debug)]
pub enum StoreError {
    /// The store had a fault.
    Failed,
    /// Memory ran out.
    NoMemory,
}

impl From<NoMemory> for StoreError {
    ghost use Rattle.std.specs.Prelude.{◌≡◌};
    ghost use Rattle.pw_io.specs.declared.StoreError.TheVariants.{NoMemory};

    ghost from_gives = { λ _ error. error ≡ NoMemory };

    fn from(_error: NoMemory) -> StoreError {
        StoreError::NoMemory
    }
}

/// Bytes that are read one at a time.
pub trait Source {
    /// The bytes that are still to come, or `None` where the source does not tell them.
    ghost rest: { Self → Option (List ℕ) };

    /// How many faults the source has had, up to 2^64 - 1, where the count ends.
    ghost faults: { Self → ℕ };

    /// Takes the first byte of the rest, or answers `None` where the rest is empty. After `Failed`
    /// the rest is as before. A source that tells its rest goes on telling it.
    fn next(&mut self) -> Result<Option<u8>, Failed>
        ensures rest { TakesNext (rest self.old) (rest self.new) result }
        ensures cause { HasCause (faults self.old) (faults self.new) result };
}

/// What takes bytes, piece by piece.
pub trait Sink {
    /// The bytes that were taken, or `None` where the sink does not tell them. A sink may stop
    /// telling, and then never tells again.
    ghost taken: { Self → Option (List ℕ) };

    /// How many faults the sink has had, up to 2^64 - 1, where the count ends.
    ghost faults: { Self → ℕ };

    /// Takes the piece. After `Failed` a proper prefix of it was taken, which may be empty. An empty
    /// piece is always taken.
    fn put(&mut self, piece: &[u8]) -> Result<(), Failed>
        ensures ok { OnOk result (Appends (taken self.old) (taken self.new) piece.now) }
        ensures failed { OnErr result (AppendsPart (taken self.old) (taken self.new) piece.now) }
        ensures empty { piece.now ≡ [] → IsOk result }
        ensures cause { HasCause (faults self.old) (faults self.new) result };
}

/// Files by name. A store that tells what it holds goes on telling it after every call.
pub trait Store {
    /// The files and the names put so far, or `None` where the store does not tell them.
    ghost told: { Self → Option Told };

    /// How many faults the store has had, up to 2^64 - 1, where the count ends.
    ghost faults: { Self → ℕ };

    /// The names of all files, in byte order.
    fn names(&mut self, alloc: Global) -> Result<Vec<String>, StoreError>
        ensures names { IfOk result (λ names. ListsNames (told self.old) names.items) }
        ensures same { Keeps (told self.old) (told self.new) }
        ensures cause { HasStoreCause (faults self.old) (faults self.new) result };

    /// The first `most` bytes of the file, or `None` exactly where no file has the name.
    fn get(&mut self, alloc: Global, name: &str, most: usize) -> Result<Option<Vec<u8>>, StoreError>
        ensures file { IfOk result (λ file. ReadsPrefix (told self.old) name.now most file) }
        ensures same { Keeps (told self.old) (told self.new) }
        ensures cause { HasStoreCause (faults self.old) (faults self.new) result };

    /// Gives the file of that name these bytes, and appends the name to the list of names put. After
    /// `Failed` the file is as before, absent, or a proper prefix of the bytes; all other files and
    /// the list are as before.
    fn put(&mut self, alloc: Global, name: &str, bytes: &[u8]) -> Result<(), StoreError>
        ensures ok { OnOk result (Puts (told self.old) (told self.new) name.now bytes.now) }
        ensures failed { OnFailed result (PutsPart (told self.old) (told self.new) name.now bytes.now) }
        ensures no_memory { OnNoMemory result (Keeps (told self.old) (told self.new)) }
        ensures cause { HasStoreCause (faults self.old) (faults self.new) result };

    /// Takes the file of that name out. Where there is none this changes nothing, and is `Ok` too.
    fn remove(&mut self, alloc: Global, name: &str) -> Result<(), StoreError>
        ensures ok { OnOk result (Removes (told self.old) (told self.new) name.now) }
        ensures err { OnErr result (Keeps (told self.old) (told self.new)) }
        ensures cause { HasStoreCause (faults self.old) (faults self.new) result };
}
