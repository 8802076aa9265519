//! The texts of a store's modules, in the order of their names.

ghost use Rattle.std.specs.Prelude.{◌≡◌, IfOk, OnOk, IfSome, All, map, ◌++◌, option_to_list, string_bytes};
ghost use Rattle.std.specs.Option.{option_map};
ghost use Rattle.pw_io.specs.Files.{Keeps};
ghost use Rattle.pw_io.specs.Faults.{HasStoreCause};
ghost use Rattle.pw_store_modules.specs.Modules.{IsModuleFile};
ghost use Rattle.pw_store_modules.specs.Reading.{source_of, sources_of};
ghost use Rattle.pw_store_modules.specs.Views.{source};

use crate::limits::TEXT_READ;
use crate::modules::{Module, stem};
use pw_io::{Store, StoreError};
use pw_value::Name;
use std::alloc::Global;

/// Reads a module's text.
fn read_source<S: Store>(
    alloc: Global,
    store: &mut S,
    file: &str,
) -> Result<Option<Module>, StoreError>
    requires { IsModuleFile file.now }
    ensures read { IfSome (S.told store.old) (λ told. IfOk result (λ found. option_map source found ≡ source_of told.files file.now)) }
    ensures same { Keeps (S.told store.old) (S.told store.new) }
    ensures cause { HasStoreCause (S.faults store.old) (S.faults store.new) result }
{
    let Some(mut text) = store.get(alloc, file, TEXT_READ)? else {
        return Ok(None);
    };
    text.truncate(TEXT_READ);
    match Name::within(alloc, stem(file)) {
        Ok(name) => Ok(Some(Module { name, text })),
        Err(_) => Err(StoreError::NoMemory),
    }
}

/// Reads a module's text and puts the module behind others. A file that is gone is left out.
fn add_source<S: Store>(
    alloc: Global,
    store: &mut S,
    modules: &mut Vec<Module>,
    file: &str,
) -> Result<(), StoreError>
    requires { IsModuleFile file.now }
    ensures read { IfSome (S.told store.old) (λ told. OnOk result (map source modules.new.items ≡ map source modules.old.items ++ option_to_list (source_of told.files file.now))) }
    ensures same { Keeps (S.told store.old) (S.told store.new) }
    ensures cause { HasStoreCause (S.faults store.old) (S.faults store.new) result }
{
    match read_source(alloc, store, file)? {
        None => Ok(()),
        Some(found) => match modules.push(found) {
            Ok(()) => Ok(()),
            Err(_) => Err(StoreError::NoMemory),
        },
    }
}

/// Reads the modules of these files in order, each text up to one byte more than a text may have. A file that is gone is
/// left out. The store stays as it is.
pub fn read_sources<S: Store>(
    alloc: Global,
    store: &mut S,
    files: &[String],
) -> Result<Vec<Module>, StoreError>
    requires { All (λ file. IsModuleFile (string_bytes file)) files.now }
    ensures read { IfSome (S.told store.old) (λ told. IfOk result (λ modules. map source modules.items ≡ sources_of told.files (map string_bytes files.now))) }
    ensures same { Keeps (S.told store.old) (S.told store.new) }
    ensures cause { HasStoreCause (S.faults store.old) (S.faults store.new) result }
{
    let mut modules = Vec::new(alloc);
    for file in files {
        add_source(alloc, store, &mut modules, file.as_str())?;
    }
    Ok(modules)
}
