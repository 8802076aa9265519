//! The files that a command needs: what stands in them, or the answer in its place.

ghost use Rattle.std.specs.Prelude.{IfErr, IfSome, length};
ghost use Rattle.pw_io.specs.Files.{Keeps};
ghost use Rattle.pw_value.specs.Names.{IsNameLength};
ghost use Rattle.pw_commands.specs.Needed.{IsBadFile, IsRefusedFile, Needs, needed_bytes};
ghost use Rattle.pw_commands.specs.Outcome.{IsFileStop, StopCount};

use pw_io::{Store, StoreError};
use pw_top_answer::Answer;
use pw_value::limits::KEPT_LIMIT;
use pw_value::{FileError, Name};
use std::alloc::{AllocError, Global};

/// The answer where a needed file is absent, or refused at an offset.
pub fn bad_file(alloc: Global, name: &str, at: Option<usize>) -> Answer
    requires { IsNameLength (length name.now) }
    ensures bad { IsBadFile name.now at result }
    ensures stop { IsFileStop result }
{
    match Name::within(alloc, name.as_bytes()) {
        Ok(own) => Answer::BadFile(own, at),
        Err(AllocError) => Answer::NoMemory,
    }
}

/// The answer where the needed file of this name was not read: a refusal is always told.
pub fn refused(own: Name, error: FileError) -> Answer
    ensures fault { IsRefusedFile own error result }
    ensures stop { IsFileStop result }
{
    match error {
        FileError::FileFault { at } => Answer::BadFile(own, Some(at)),
        FileError::NoMemory => Answer::NoMemory,
    }
}

/// The bytes of a needed file, as far as they count.
pub fn read_needed<S: Store>(alloc: Global, store: &mut S, name: &str) -> Result<Vec<u8>, Answer>
    requires { IsNameLength (length name.now) }
    ensures bytes { IfSome (S.told store.old) (λ told. Needs (λ bytes. bytes.items) result (needed_bytes told.files name.now)) }
    ensures same { Keeps (S.told store.old) (S.told store.new) }
    ensures count { StopCount (S.faults store.old) (S.faults store.new) result }
    ensures stop { IfErr result IsFileStop }
{
    match store.get(alloc, name, KEPT_LIMIT) {
        Ok(Some(bytes)) => Ok(bytes),
        Ok(None) => Err(bad_file(alloc, name, None)),
        Err(StoreError::Failed) => Err(Answer::StoreFault),
        Err(StoreError::NoMemory) => Err(Answer::NoMemory),
    }
}
