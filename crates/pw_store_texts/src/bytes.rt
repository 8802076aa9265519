//! The bytes of the texts of a store together.

ghost use Rattle.std.specs.Prelude.{◌≡◌, IfOk, IfSome, is_none, map, string_bytes, true};
ghost use Rattle.std.specs.FinMap as finite;
ghost use Rattle.pw_io.specs.Faults.{HasStoreCause};
ghost use Rattle.pw_io.specs.Files.{Files, Keeps};
ghost use Rattle.pw_store_modules.specs.Modules.{is_module_name, modules_of};
ghost use Rattle.pw_store_modules.specs.Views.{source};
ghost use Rattle.pw_store_sources.specs.Names.{source_name};
ghost use Rattle.pw_store_texts.specs.Bytes.{bytes_alone, module_bytes, text_bytes};

use crate::plain::read_plain;
use pw_io::{Store, StoreError, laws};
use pw_store_modules::{Module, module_file, module_files};
use pw_store_sources::{SOURCE_ENDING, read_bytes, sum_of};
use pw_value::Name;
use std::alloc::{AllocError, Global};

/// Whether no `NAME.c` stands beside a module's `NAME.i`, by the names of all files.
fn is_alone(alloc: Global, names: &[String], name: &Name) -> Result<bool, AllocError>
    requires { is_module_name name.now ≡ true }
    ensures { (files : Files) → map string_bytes names.now ≡ finite.keys files → IfOk result (λ alone. alone ≡ is_none (finite.get files (source_name name.now))) }
{
    laws::names();
    let source = module_file(alloc, name, SOURCE_ENDING)?;
    match names.binary_search(&source) {
        Ok(_) => Ok(false),
        Err(_) => Ok(true),
    }
}

/// The bytes of a module's text that was read of `NAME.i`, where no `NAME.c` stands beside it; else none.
fn bytes_alone(alloc: Global, names: &[String], one: &Module) -> Result<u64, AllocError>
    ensures { (files : Files) → map string_bytes names.now ≡ finite.keys files → IfOk result (λ bytes. bytes ≡ bytes_alone files (source one.now)) }
{
    let alone = is_alone(alloc, names, &one.name)?;
    if alone {
        Ok(one.text.len() as u64)
    } else {
        Ok(0)
    }
}

/// The bytes of the texts of modules that were read of files `NAME.i`, of those beside which no `NAME.c` stands, by the names of all files.
pub(crate) fn module_bytes(
    alloc: Global,
    names: &[String],
    modules: &[Module],
) -> Result<u64, AllocError>
    ensures { (files : Files) → map string_bytes names.now ≡ finite.keys files → IfOk result (λ bytes. bytes ≡ module_bytes files (map source modules.now)) }
{
    let mut bytes: u64 = 0;
    for one in modules {
        let more = bytes_alone(alloc, names, one)?;
        bytes = sum_of(bytes, more)?;
    }
    Ok(bytes)
}

/// The bytes of the modules' own texts, by the names of all files.
fn plain_bytes<S: Store>(alloc: Global, store: &mut S, names: &[String]) -> Result<u64, StoreError>
    ensures bytes { IfSome (S.told store.old) (λ told. map string_bytes names.now ≡ finite.keys told.files → IfOk result (λ bytes. bytes ≡ module_bytes told.files (modules_of told.files))) }
    ensures same { Keeps (S.told store.old) (S.told store.new) }
    ensures cause { HasStoreCause (S.faults store.old) (S.faults store.new) result }
{
    let files = module_files(alloc, names)?;
    let plain = read_plain(alloc, store, names, &files)?;
    Ok(plain.bytes)
}

/// The bytes of all texts, by the names of all files.
fn bytes_among<S: Store>(alloc: Global, store: &mut S, names: &[String]) -> Result<u64, StoreError>
    ensures bytes { IfSome (S.told store.old) (λ told. map string_bytes names.now ≡ finite.keys told.files → IfOk result (λ bytes. bytes ≡ text_bytes told.files)) }
    ensures same { Keeps (S.told store.old) (S.told store.new) }
    ensures cause { HasStoreCause (S.faults store.old) (S.faults store.new) result }
{
    let beside = read_bytes(alloc, store, names)?;
    let own = plain_bytes(alloc, store, names)?;
    Ok(sum_of(beside, own)?)
}

/// The bytes of the texts of all modules and headers of a store, each as far as texts are read: those of a C source where a module has
/// one, and of its `NAME.i` else. The store stays as it is.
pub fn text_bytes<S: Store>(alloc: Global, store: &mut S) -> Result<u64, StoreError>
    ensures bytes { IfSome (S.told store.old) (λ told. IfOk result (λ bytes. bytes ≡ text_bytes told.files)) }
    ensures same { Keeps (S.told store.old) (S.told store.new) }
    ensures cause { HasStoreCause (S.faults store.old) (S.faults store.new) result }
{
    let names = store.names(alloc)?;
    bytes_among(alloc, store, &names)
}
