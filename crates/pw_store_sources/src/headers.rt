//! The headers of a store.

ghost use Rattle.std.specs.Prelude.{◌≡◌, ◌++◌, IfOk, IfSome, OnOk, map, option_to_list, string_bytes};
ghost use Rattle.pw_cpp_sources.specs.Sources.{texts_of};
ghost use Rattle.pw_io.specs.Faults.{HasStoreCause};
ghost use Rattle.pw_io.specs.Files.{Keeps};
ghost use Rattle.pw_store_sources.specs.Headers.{header_in, headers_among, headers_of};

use pw_cpp::is_header;
use pw_io::{Store, StoreError};
use pw_store_modules::TEXT_READ;
use pw_value::Name;
use std::alloc::Global;

/// Puts a header with its text behind others, where a file is one. A file that is gone is left out.
fn add_header<S: Store>(
    alloc: Global,
    store: &mut S,
    headers: &mut Vec<(Name, Vec<u8>)>,
    file: &str,
) -> Result<(), StoreError>
    ensures read { IfSome (S.told store.old) (λ told. OnOk result (texts_of headers.new.items ≡ texts_of headers.old.items ++ option_to_list (header_in told.files file.now))) }
    ensures same { Keeps (S.told store.old) (S.told store.new) }
    ensures cause { HasStoreCause (S.faults store.old) (S.faults store.new) result }
{
    if !is_header(file.as_bytes()) {
        return Ok(());
    }
    let Some(text) = store.get(alloc, file, TEXT_READ)? else {
        return Ok(());
    };
    let name = Name::lawful(alloc, file.as_bytes())?;
    match headers.push((name, text)) {
        Ok(()) => Ok(()),
        Err(_) => Err(StoreError::NoMemory),
    }
}

/// The headers among the files of a store that have these names, in their order, each text up to one byte more than a text may have. The
/// store stays as it is.
pub fn headers_among<S: Store>(
    alloc: Global,
    store: &mut S,
    names: &[String],
) -> Result<Vec<(Name, Vec<u8>)>, StoreError>
    ensures read { IfSome (S.told store.old) (λ told. IfOk result (λ all. texts_of all.items ≡ headers_among told.files (map string_bytes names.now))) }
    ensures same { Keeps (S.told store.old) (S.told store.new) }
    ensures cause { HasStoreCause (S.faults store.old) (S.faults store.new) result }
{
    let mut all = Vec::new(alloc);
    for name in names {
        add_header(alloc, store, &mut all, name.as_str())?;
    }
    Ok(all)
}

/// The headers of a store in the byte order of their names: the names are listed, then each header is read, up to one byte more than a text
/// may have. The store stays as it is.
pub fn read_headers<S: Store>(
    alloc: Global,
    store: &mut S,
) -> Result<Vec<(Name, Vec<u8>)>, StoreError>
    ensures read { IfSome (S.told store.old) (λ told. IfOk result (λ all. texts_of all.items ≡ headers_of told.files)) }
    ensures same { Keeps (S.told store.old) (S.told store.new) }
    ensures cause { HasStoreCause (S.faults store.old) (S.faults store.new) result }
{
    let names = store.names(alloc)?;
    headers_among(alloc, store, &names)
}
