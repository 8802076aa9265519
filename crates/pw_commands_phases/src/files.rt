//! The files of a module: what stands in them, and how they are put.

ghost use Rattle.std.specs.Prelude.{◌≡◌, ◌≤◌, [], ◌∷◌, ◌++◌, true, IfErr, IfSome, length};
ghost use Rattle.pw_io.specs.Files.{Keeps};
ghost use Rattle.pw_top_answer.specs.Effects.{PutsFiles};
ghost use Rattle.pw_top_answer.specs.Outcomes.{StoreCount};
ghost use Rattle.pw_store_modules.specs.Modules.{is_module_name};
ghost use Rattle.pw_commands.specs.Needed.{Needs, needed_bytes};
ghost use Rattle.pw_commands.specs.Outcome.{IsFileStop, IsPutAnswer, StopCount};

use pw_commands::{put_file, read_needed};
use pw_io::Store;
use pw_store_modules::module_file;
use pw_top_answer::Answer;
use pw_value::Name;
use std::alloc::{AllocError, Global};

/// The bytes of a module's file of one kind, as far as they count.
pub fn module_bytes<S: Store>(
    alloc: Global,
    store: &mut S,
    name: &Name,
    ending: &str,
) -> Result<Vec<u8>, Answer>
    requires name { is_module_name name.now ≡ true }
    requires ending { length ending.now ≤ 8 }
    ensures bytes { IfSome (S.told store.old) (λ told. Needs (λ bytes. bytes.items) result (needed_bytes told.files (name.now ++ ending.now))) }
    ensures same { Keeps (S.told store.old) (S.told store.new) }
    ensures count { StopCount (S.faults store.old) (S.faults store.new) result }
    ensures stop { IfErr result IsFileStop }
{
    let file = module_file(alloc, name, ending)?;
    read_needed(alloc, store, file.as_str())
}

/// Puts a module's file of one kind.
pub fn put_bytes<S: Store>(
    alloc: Global,
    store: &mut S,
    name: &Name,
    ending: &str,
    bytes: &[u8],
) -> Answer
    requires { is_module_name name.now ≡ true }
    ensures put { IfSome (S.told store.old) (λ told. PutsFiles ((name.now ++ ending.now, bytes.now) ∷ []) result told (S.told store.new)) }
    ensures answer { IsPutAnswer result }
    ensures count { StoreCount (S.faults store.old) (S.faults store.new) result }
{
    match module_file(alloc, name, ending) {
        Ok(file) => put_file(alloc, store, file.as_str(), bytes),
        Err(AllocError) => Answer::NoMemory,
    }
}
