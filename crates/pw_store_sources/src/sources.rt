//! The C sources of a store, and what comes of each.

ghost use Rattle.std.specs.Prelude.{◌≡◌, ◌+◌, ◌++◌, IfOk, IfSome, OnOk, map, option_to_list, string_bytes};
ghost use Rattle.pw_cpp_sources.specs.Sources.{texts_of};
ghost use Rattle.pw_io.specs.Faults.{HasStoreCause};
ghost use Rattle.pw_io.specs.Files.{Keeps};
ghost use Rattle.pw_store_sources.specs.Outputs.{ComesBy, output_of};
ghost use Rattle.pw_store_sources.specs.Bytes.{bytes_of};
ghost use Rattle.pw_store_sources.specs.Sources.{AllCome, ComeAmong, preprocessed_bytes, outcome, source_in, sources_among};
ghost use Rattle.pw_store_sources.specs.Views.{named_text};

use crate::compiled::{Compiled, Outcomes};
use crate::headers::headers_among;
use crate::names::is_source_file;
use crate::outputs::preprocess_source;
use crate::source::Source;
use crate::sums::bytes_of;
use pw_io::{Store, StoreError};
use pw_store_modules::{TEXT_READ, stem};
use pw_value::Name;
use std::alloc::{AllocError, Global};

/// Reads a module's C source and puts it behind others, where a file is one. A file that is gone is left out.
fn add_source<S: Store>(
    alloc: Global,
    store: &mut S,
    sources: &mut Vec<Source>,
    file: &str,
) -> Result<(), StoreError>
    ensures read { IfSome (S.told store.old) (λ told. OnOk result (map named_text sources.new.items ≡ map named_text sources.old.items ++ option_to_list (source_in told.files file.now))) }
    ensures same { Keeps (S.told store.old) (S.told store.new) }
    ensures cause { HasStoreCause (S.faults store.old) (S.faults store.new) result }
{
    if !is_source_file(file.as_bytes()) {
        return Ok(());
    }
    let Some(text) = store.get(alloc, file, TEXT_READ)? else {
        return Ok(());
    };
    let name = Name::lawful(alloc, stem(file))?;
    match sources.push(Source { name, text }) {
        Ok(()) => Ok(()),
        Err(_) => Err(StoreError::NoMemory),
    }
}

/// The C sources among the files of a store that have these names, in their order, each text up to one byte more than a text may have.
/// The store stays as it is.
fn sources_among<S: Store>(
    alloc: Global,
    store: &mut S,
    names: &[String],
) -> Result<Vec<Source>, StoreError>
    ensures read { IfSome (S.told store.old) (λ told. IfOk result (λ all. map named_text all.items ≡ sources_among told.files (map string_bytes names.now))) }
    ensures same { Keeps (S.told store.old) (S.told store.new) }
    ensures cause { HasStoreCause (S.faults store.old) (S.faults store.new) result }
{
    let mut all = Vec::new(alloc);
    for name in names {
        add_source(alloc, store, &mut all, name.as_str())?;
    }
    Ok(all)
}

/// What comes of a C source among headers, which stay as they are.
fn compile_source(
    alloc: Global,
    headers: &mut Vec<(Name, Vec<u8>)>,
    source: &Source,
) -> Result<Compiled, AllocError>
    ensures name { IfOk result (λ made. made.name ≡ source.now.name) }
    ensures comes { IfOk result (λ made. ComesBy (texts_of headers.old.items) source.now.name source.now.text.items (output_of made.output)) }
    ensures same { OnOk result (headers.new.items ≡ headers.old.items) }
{
    let own = Vec::from_slice(alloc, source.text.as_slice())?;
    let output = preprocess_source(alloc, headers, &source.name, own)?;
    let name = source.name.copy(alloc)?;
    Ok(Compiled { name, output })
}

/// What comes of C sources among headers, in their order.
fn compile_all(
    alloc: Global,
    headers: &mut Vec<(Name, Vec<u8>)>,
    sources: &[Source],
) -> Result<Vec<Compiled>, AllocError>
    ensures { IfOk result (λ all. AllCome (texts_of headers.old.items) (map named_text sources.now) (map outcome all.items)) }
{
    let mut all = Vec::new(alloc);
    for source in sources {
        all.push(compile_source(alloc, headers, source)?)?;
    }
    Ok(all)
}

/// What comes of C sources among headers, in their order, and the bytes of both.
fn compile_texts(
    alloc: Global,
    sources: &[Source],
    headers: &mut Vec<(Name, Vec<u8>)>,
) -> Result<Outcomes, AllocError>
    ensures comes { IfOk result (λ made. AllCome (texts_of headers.old.items) (map named_text sources.now) (map outcome made.outputs.items)) }
    ensures bytes { IfOk result (λ made. made.bytes ≡ bytes_of (map named_text sources.now) + bytes_of (texts_of headers.old.items)) }
{
    let bytes = bytes_of(sources, headers)?;
    let outputs = compile_all(alloc, headers, sources)?;
    Ok(Outcomes { outputs, bytes })
}

/// What comes of the C sources among files of these names, in their order, among the headers of such files: the sources are read, then the
/// headers, each once, up to one byte more than a text may have. The store stays as it is.
pub fn compile_sources<S: Store>(
    alloc: Global,
    store: &mut S,
    names: &[String],
) -> Result<Outcomes, StoreError>
    ensures comes { IfSome (S.told store.old) (λ told. IfOk result (λ made. ComeAmong told.files (map string_bytes names.now) (map outcome made.outputs.items))) }
    ensures bytes { IfSome (S.told store.old) (λ told. IfOk result (λ made. made.bytes ≡ preprocessed_bytes told.files (map string_bytes names.now))) }
    ensures same { Keeps (S.told store.old) (S.told store.new) }
    ensures cause { HasStoreCause (S.faults store.old) (S.faults store.new) result }
{
    let sources = sources_among(alloc, store, names)?;
    let mut headers = headers_among(alloc, store, names)?;
    Ok(compile_texts(alloc, &sources, &mut headers)?)
}

/// The bytes of the C sources and headers among files of these names, each as far as texts are read. The store stays as it is.
pub fn read_bytes<S: Store>(
    alloc: Global,
    store: &mut S,
    names: &[String],
) -> Result<u64, StoreError>
    ensures bytes { IfSome (S.told store.old) (λ told. IfOk result (λ bytes. bytes ≡ preprocessed_bytes told.files (map string_bytes names.now))) }
    ensures same { Keeps (S.told store.old) (S.told store.new) }
    ensures cause { HasStoreCause (S.faults store.old) (S.faults store.new) result }
{
    let sources = sources_among(alloc, store, names)?;
    let headers = headers_among(alloc, store, names)?;
    Ok(bytes_of(&sources, &headers)?)
}
