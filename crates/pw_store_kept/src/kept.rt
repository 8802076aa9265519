//! What a store keeps of builds before.

ghost use Rattle.std.specs.Prelude.{◌≡◌, ◌≢◌, ◌↔◌, ◌++◌, ◌∷◌, [], None, Some, Ok, Err, IfErr, IfOk, IfSome, IsErr, OnOk, map, not, string_bytes, true};
ghost use Rattle.std.specs.Option.{option_map};
ghost use Rattle.std.specs.List.{AllByRecursion};
ghost use Rattle.std.specs.FinMap as finite;
ghost use Rattle.pw_io.specs.Files.{Keeps};
ghost use Rattle.pw_io.specs.Faults.{HasStoreCause};
ghost use Rattle.pw_object.specs.Object.{IsObject};
ghost use Rattle.pw_files.specs.Contents.{value_of};
ghost use Rattle.pw_object.specs.Reading.{object_file_at};
ghost use Rattle.pw_store_modules.specs.FileNames.{object_name};
ghost use Rattle.pw_store_modules.specs.Modules.{is_module_name};
ghost use Rattle.pw_store_kept.specs.Kept.{if_object, is_same, kept_bytes, kept_object};

use pw_io::{Store, StoreError};
use pw_object::Object;
use pw_store_modules::{Module, OBJECT_ENDING, module_file};
use pw_value::limits::KEPT_LIMIT;
use pw_value::{FileError, Name};
use std::alloc::{AllocError, Global};
use std::collections::VecDeque;

/// The bytes of a kept file, as far as they count.
pub fn kept_bytes<S: Store>(
    alloc: Global,
    store: &mut S,
    name: &str,
) -> Result<Option<Vec<u8>>, StoreError>
    ensures bytes { IfSome (S.told store.old) (λ told. IfOk result (λ found. option_map (λ bytes. bytes.items) found ≡ kept_bytes told.files name.now)) }
    ensures same { Keeps (S.told store.old) (S.told store.new) }
    ensures cause { HasStoreCause (S.faults store.old) (S.faults store.new) result }
{
    store.get(alloc, name, KEPT_LIMIT)
}

/// The name of a module's object's file.
pub fn object_name(alloc: Global, name: &Name) -> Result<String, AllocError>
    requires { is_module_name name.now ≡ true }
    ensures { IfOk result (λ file. string_bytes file ≡ object_name name.now) }
{
    module_file(alloc, name, OBJECT_ENDING)
}

/// What a file that was read comes to: its object, or none where its bytes are no object's file.
fn found_in(read: Result<Object, FileError>) -> Result<Option<Object>, AllocError>
    ensures found { IfOk read (λ object. result ≡ Ok (Some object)) }
    ensures broken { IfErr read (λ error. error ≢ FileError.NoMemory → result ≡ Ok None) }
    ensures wants { IsErr result ↔ (read ≡ Err FileError.NoMemory) }
{
    match read {
        Ok(object) => Ok(Some(object)),
        Err(FileError::FileFault { .. }) => Ok(None),
        Err(FileError::NoMemory) => Err(AllocError),
    }
}

/// The object whose file the bytes are; bytes that are no object's file count as none.
fn object_in(alloc: Global, bytes: &[u8]) -> Result<Option<Object>, AllocError>
    ensures object { IfOk result (λ found. found ≡ if_object (value_of (object_file_at bytes.now))) }
    ensures lawful { IfOk result (λ found. IfSome found IsObject) }
{
    found_in(pw_object::read(alloc, bytes))
}

/// The object that is kept of a module.
fn kept_object<S: Store>(
    alloc: Global,
    store: &mut S,
    name: &Name,
) -> Result<Option<Object>, StoreError>
    requires { is_module_name name.now ≡ true }
    ensures object { IfSome (S.told store.old) (λ told. IfOk result (λ found. found ≡ kept_object told.files name.now)) }
    ensures lawful { IfOk result (λ found. IfSome found IsObject) }
    ensures same { Keeps (S.told store.old) (S.told store.new) }
    ensures cause { HasStoreCause (S.faults store.old) (S.faults store.new) result }
{
    let Ok(file) = object_name(alloc, name) else {
        return Err(StoreError::NoMemory);
    };
    let Some(bytes) = kept_bytes(alloc, store, file.as_str())? else {
        return Ok(None);
    };
    match object_in(alloc, &bytes) {
        Ok(found) => Ok(found),
        Err(AllocError) => Err(StoreError::NoMemory),
    }
}

/// Reads the object that is kept of a module, and puts it behind others.
fn add_kept<S: Store>(
    alloc: Global,
    store: &mut S,
    kept: &mut VecDeque<Option<Object>>,
    name: &Name,
) -> Result<(), StoreError>
    requires { is_module_name name.now ≡ true }
    ensures object { IfSome (S.told store.old) (λ told. OnOk result (kept.new.items ≡ kept.old.items ++ kept_object told.files name.now ∷ [])) }
    ensures lawful { OnOk result (AllByRecursion (λ found. IfSome found IsObject) kept.old.items → AllByRecursion (λ found. IfSome found IsObject) kept.new.items) }
    ensures same { Keeps (S.told store.old) (S.told store.new) }
    ensures cause { HasStoreCause (S.faults store.old) (S.faults store.new) result }
{
    let found = kept_object(alloc, store, name)?;
    match kept.push_back(found) {
        Ok(()) => Ok(()),
        Err(_full) => Err(StoreError::NoMemory),
    }
}

/// The objects that are kept of modules, in their order: none where there is no file, or one that is no object's.
pub fn read_kept<S: Store>(
    alloc: Global,
    store: &mut S,
    modules: &[Module],
) -> Result<VecDeque<Option<Object>>, StoreError>
    ensures objects { IfSome (S.told store.old) (λ told. IfOk result (λ kept. kept.items ≡ map (λ which. kept_object told.files which.name) modules.now)) }
    ensures lawful { IfOk result (λ kept. AllByRecursion (λ found. IfSome found IsObject) kept.items) }
    ensures same { Keeps (S.told store.old) (S.told store.new) }
    ensures cause { HasStoreCause (S.faults store.old) (S.faults store.new) result }
{
    let mut kept = VecDeque::new(alloc);
    for which in modules {
        match add_kept(alloc, store, &mut kept, &which.name) {
            Ok(()) => {}
            Err(error) => return Err(error),
        }
    }
    Ok(kept)
}

/// As much of a file as tells whether it is these bytes: one byte more than they are, so that a longer file is seen to be.
fn beside<S: Store>(
    alloc: Global,
    store: &mut S,
    name: &str,
    bytes: &[u8],
) -> Result<Option<Vec<u8>>, StoreError>
    ensures tells { IfSome (S.told store.old) (λ told. IfOk result (λ found. is_same (option_map (λ bytes. bytes.items) found) bytes.now ≡ is_same (finite.get told.files name.now) bytes.now)) }
    ensures same { Keeps (S.told store.old) (S.told store.new) }
    ensures cause { HasStoreCause (S.faults store.old) (S.faults store.new) result }
{
    store.get(alloc, name, bytes.len() + 1)
}

/// Whether a file is absent, or has other bytes than these.
pub fn is_changed<S: Store>(
    alloc: Global,
    store: &mut S,
    name: &str,
    bytes: &[u8],
) -> Result<bool, StoreError>
    ensures changed { IfSome (S.told store.old) (λ told. IfOk result (λ changed. changed ≡ not (is_same (finite.get told.files name.now) bytes.now))) }
    ensures same { Keeps (S.told store.old) (S.told store.new) }
    ensures cause { HasStoreCause (S.faults store.old) (S.faults store.new) result }
{
    match beside(alloc, store, name, bytes)? {
        Some(old) => Ok(old.as_slice() != bytes),
        None => Ok(true),
    }
}
