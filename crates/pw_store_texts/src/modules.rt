//! The modules of a store as a build sees them: what comes of each C source stands as its module's text.

ghost use Rattle.std.specs.Prelude.{◌≡◌, ◌≤◌, ◌+◌, ℕ, IfOk, IfSome, length, map, string_bytes, true};
ghost use Rattle.std.specs.FinMap as finite;
ghost use Rattle.pw_io.specs.Files.{Files, Keeps, prefix_of};
ghost use Rattle.pw_store_modules.specs.Few.{HasModulesCause};
ghost use Rattle.pw_store_modules.specs.Modules.{is_module_name, modules_of, text_read};
ghost use Rattle.pw_store_modules.specs.Views.{source};
ghost use Rattle.pw_store_sources.specs.Outputs.{output_of};
ghost use Rattle.pw_store_sources.specs.Sources.{StoreComes, outcome};
ghost use Rattle.pw_store_texts.specs.Bytes.{text_bytes};
ghost use Rattle.pw_store_texts.specs.Placing.{refused_sources, sources_within, with_outputs};
ghost use Rattle.pw_store_texts.specs.Seen.{AnswersPreprocessed, AnswersSeen, first_name, refused_text, seen_text};

use crate::place::put_module;
use crate::plain::{Plain, few_plain};
use pw_cpp::CppFault;
use pw_io::laws::{front, other_files};
use pw_io::{Store, laws};
use pw_store_modules::{Module, ModulesFault, TEXT_READ, check_count, modules_are_exact};
use pw_store_sources::{Compiled, Outcomes, compile_sources, sum_of};
use pw_value::Name;
use pw_value::limits::TEXTS_LIMIT;
use std::alloc::{AllocError, Global};

/// A text that no module may have.
const REFUSED_TEXT: &[u8] = b"@";

/// A name that a module may have.
const SOME_NAME: &[u8] = b"a";

/// The text that a build sees of what came of a C source: the output, as far as texts are read, or a text that no module may have.
pub fn shown_text(alloc: Global, output: Result<Vec<u8>, CppFault>) -> Result<Vec<u8>, AllocError>
    ensures text { IfOk result (λ text. text.items ≡ prefix_of text_read (seen_text (output_of output))) }
    ensures short { IfOk result (λ text. length text.items ≤ text_read) }
{
    front();
    match output {
        Ok(mut text) => {
            text.truncate(TEXT_READ);
            Ok(text)
        }
        Err(_) => {
            let text = Vec::from_slice(alloc, REFUSED_TEXT)?;
            Ok(text)
        }
    }
}

/// A module as a build sees it, by what came of its C source.
#[tactic(auto, using(crate::proofs::SeenLemmas::named_text))]
fn seen_module(alloc: Global, compiled: Compiled) -> Result<Module, AllocError>
    ensures { IfOk result (λ made. source made ≡ (compiled.name, prefix_of text_read (seen_text (output_of compiled.output)))) }
{
    let Compiled { name, output, .. } = compiled;
    Ok(Module {
        name,
        text: shown_text(alloc, output)?,
    })
}

/// Puts what comes of C sources into their places among modules. A module of the same name goes.
fn with_outputs(
    alloc: Global,
    modules: Vec<Module>,
    outputs: Vec<Compiled>,
) -> Result<Vec<Module>, AllocError>
    ensures { IfOk result (λ all. map source all.items ≡ with_outputs (map source modules.items) (map outcome outputs.items)) }
{
    let mut all = modules;
    for compiled in outputs {
        put_module(&mut all, seen_module(alloc, compiled)?)?;
    }
    Ok(all)
}

/// Modules with what comes of C sources in their places, where there are not too many.
///
/// # Errors
///
/// `TooMany` where there are more than `MODULE_LIMIT`, with their count; want of memory.
fn placed_modules(
    alloc: Global,
    modules: Vec<Module>,
    outputs: Vec<Compiled>,
) -> Result<Vec<Module>, ModulesFault>
    ensures modules { (files : Files) → map source modules.items ≡ modules_of files → StoreComes files (map outcome outputs.items) → AnswersPreprocessed files result }
    ensures cause { (faults : ℕ) → HasModulesCause faults faults result }
{
    modules_are_exact();
    other_files();
    let all = with_outputs(alloc, modules, outputs)?;
    match check_count(all.len()) {
        Ok(()) => Ok(all),
        Err(fault) => Err(fault),
    }
}

/// The name of the first module; where there is none, one that a module may have.
fn first_name(alloc: Global, modules: &[Module]) -> Result<Name, AllocError>
    ensures name { IfOk result (λ name. name ≡ first_name (map source modules.now)) }
    ensures named { IfOk result (λ name. is_module_name name ≡ true) }
{
    match modules {
        [first, ..] => first.name.copy(alloc),
        [] => Name::lawful(alloc, SOME_NAME),
    }
}

/// A module with a text that no module may have.
fn refused_module(alloc: Global, name: Name) -> Result<Module, AllocError>
    requires { is_module_name name ≡ true }
    ensures { IfOk result (λ made. source made ≡ (name, prefix_of text_read refused_text)) }
{
    front();
    let text = Vec::from_slice(alloc, REFUSED_TEXT)?;
    Ok(Module { name, text })
}

/// Modules of which the first has a text that no module may have.
fn refused_modules(alloc: Global, modules: Vec<Module>) -> Result<Vec<Module>, AllocError>
    ensures { IfOk result (λ all. map source all.items ≡ refused_sources (map source modules.items)) }
{
    let mut all = modules;
    let name = first_name(alloc, &all)?;
    put_module(&mut all, refused_module(alloc, name)?)?;
    Ok(all)
}

/// Modules, of which the first has a text that no module may have where there are more bytes than there may be.
fn modules_within(
    alloc: Global,
    modules: Vec<Module>,
    bytes: u64,
) -> Result<Vec<Module>, AllocError>
    ensures { (files : Files) → bytes ≡ text_bytes files → IfOk result (λ all. map source all.items ≡ sources_within files (map source modules.items)) }
{
    if bytes > TEXTS_LIMIT {
        refused_modules(alloc, modules)
    } else {
        Ok(modules)
    }
}

/// The modules as a build sees them, of those that stand in files `NAME.i` and of what comes of the C sources.
fn modules_seen(alloc: Global, plain: Plain, made: Outcomes) -> Result<Vec<Module>, ModulesFault>
    ensures seen { (files : Files) → map source plain.modules.items ≡ modules_of files → StoreComes files (map outcome made.outputs.items) → made.bytes + plain.bytes ≡ text_bytes files → AnswersSeen files result }
    ensures cause { (faults : ℕ) → HasModulesCause faults faults result }
{
    modules_are_exact();
    laws::names();
    other_files();
    let bytes = sum_of(made.bytes, plain.bytes)?;
    match placed_modules(alloc, plain.modules, made.outputs) {
        Ok(all) => Ok(modules_within(alloc, all, bytes)?),
        Err(fault) => Err(fault),
    }
}

/// The modules as a build sees them, by the names of all files.
fn seen_among<S: Store>(
    alloc: Global,
    store: &mut S,
    names: &[String],
) -> Result<Vec<Module>, ModulesFault>
    ensures seen { IfSome (S.told store.old) (λ told. map string_bytes names.now ≡ finite.keys told.files → AnswersSeen told.files result) }
    ensures same { Keeps (S.told store.old) (S.told store.new) }
    ensures cause { HasModulesCause (S.faults store.old) (S.faults store.new) result }
{
    modules_are_exact();
    laws::names();
    other_files();
    let made = compile_sources(alloc, store, names)?;
    match few_plain(alloc, store, names, &made.outputs) {
        Ok(plain) => modules_seen(alloc, plain, made),
        Err(fault) => Err(fault),
    }
}

/// The modules of a store as a build sees them, in the byte order of their names, where there are not too many: the output that the
/// preprocessor makes of `NAME.c` stands in the place of `NAME.i`, and where it has a fault, a text that no module may have; so does the
/// first module where the texts of the store are more bytes than there may be. The names of the files are listed once and each text is read
/// once; where there is no C source the modules are counted before that. The store stays as it is.
///
/// # Errors
///
/// `TooMany` where there are more than `MODULE_LIMIT`, with their count; a fault of the store, or want of memory.
pub fn seen_modules<S: Store>(alloc: Global, store: &mut S) -> Result<Vec<Module>, ModulesFault>
    ensures seen { IfSome (S.told store.old) (λ told. AnswersSeen told.files result) }
    ensures same { Keeps (S.told store.old) (S.told store.new) }
    ensures cause { HasModulesCause (S.faults store.old) (S.faults store.new) result }
{
    let names = store.names(alloc)?;
    seen_among(alloc, store, &names)
}
