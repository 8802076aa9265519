//! The modules of a store as they stand in their files `NAME.i`.

ghost use Rattle.std.specs.Prelude.{◌≡◌, ◌<◌, [], All, IfErr, IfOk, IfSome, length, map, string_bytes};
ghost use Rattle.std.specs.FinMap as finite;
ghost use Rattle.pw_io.specs.Faults.{HasStoreCause};
ghost use Rattle.pw_io.specs.Files.{Keeps};
ghost use Rattle.pw_store_modules.specs.Few.{HasModulesCause};
ghost use Rattle.pw_store_modules.specs.Modules.{IsModuleFile};
ghost use Rattle.pw_store_modules.specs.Reading.{sources_of};
ghost use Rattle.pw_store_modules.specs.Views.{source};
ghost use Rattle.pw_store_sources.specs.Sources.{outcome};
ghost use Rattle.pw_store_texts.specs.Bytes.{module_bytes};
ghost use Rattle.pw_store_texts.specs.Plain.{AnswersPlain};
ghost use Rattle.pw_value.specs.Limits.{module_limit};

use crate::bytes::module_bytes;
use pw_io::{Store, StoreError};
use pw_store_modules::{Module, ModulesFault, check_count, module_files, read_sources};
use pw_store_sources::Compiled;
use std::alloc::Global;

/// Modules that were read of files `NAME.i`, and the bytes of the texts of those beside which no `NAME.c` stands.
#[derive(Drop)]
pub struct Plain {
    pub modules: Vec<Module>,
    pub bytes: u64,
}

/// Reads the modules of these files, by the names of all files. The store stays as it is.
pub(crate) fn read_plain<S: Store>(
    alloc: Global,
    store: &mut S,
    names: &[String],
    files: &[String],
) -> Result<Plain, StoreError>
    requires { All (λ file. IsModuleFile (string_bytes file)) files.now }
    ensures read { IfSome (S.told store.old) (λ told. IfOk result (λ plain. map source plain.modules.items ≡ sources_of told.files (map string_bytes files.now))) }
    ensures bytes { IfSome (S.told store.old) (λ told. map string_bytes names.now ≡ finite.keys told.files → IfOk result (λ plain. plain.bytes ≡ module_bytes told.files (map source plain.modules.items))) }
    ensures same { Keeps (S.told store.old) (S.told store.new) }
    ensures cause { HasStoreCause (S.faults store.old) (S.faults store.new) result }
{
    let modules = read_sources(alloc, store, files)?;
    let bytes = module_bytes(alloc, names, &modules)?;
    Ok(Plain { modules, bytes })
}

/// Answers whether there may be so many files of modules, where no C source is beside them.
fn check_files(outputs: &[Compiled], files: &[String]) -> Result<(), ModulesFault>
    ensures { IfErr result (λ fault. (map outcome outputs.now ≡ []) × (fault ≡ ModulesFault.TooMany (length files.now)) × (module_limit < length files.now)) }
{
    if outputs.is_empty() {
        check_count(files.len())
    } else {
        Ok(())
    }
}

/// The modules of a store as they stand in their files `NAME.i`, by the names of all files and what comes of the C sources. Where there is
/// no C source the modules are counted before a text is read. The store stays as it is.
#[tactic(auto, using(crate::proofs::PlainLemmas::plain_store))]
pub(crate) fn few_plain<S: Store>(
    alloc: Global,
    store: &mut S,
    names: &[String],
    outputs: &[Compiled],
) -> Result<Plain, ModulesFault>
    ensures plain { IfSome (S.told store.old) (λ told. map string_bytes names.now ≡ finite.keys told.files → AnswersPlain told.files (map outcome outputs.now) result) }
    ensures same { Keeps (S.told store.old) (S.told store.new) }
    ensures cause { HasModulesCause (S.faults store.old) (S.faults store.new) result }
{
    let files = module_files(alloc, names)?;
    let found = files.as_slice();
    match check_files(outputs, found) {
        Ok(()) => Ok(read_plain(alloc, store, names, found)?),
        Err(fault) => Err(fault),
    }
}
