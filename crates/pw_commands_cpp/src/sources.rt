//! The command `cpp`.

ghost use Rattle.std.specs.Prelude.{◌≡◌, ◌∷◌, [], ℕ, List, None, Ok, true, IfErr, IfSome};
ghost use Rattle.pw_commands.specs.Needed.{IsBadFile, Needs};
ghost use Rattle.pw_commands.specs.Others.{KeepsOthers};
ghost use Rattle.pw_commands.specs.Outcome.{IsFileStop, IsPutAnswer, Obeys, StopCount};
ghost use Rattle.pw_commands_cpp.specs.Command.{CppEffect, IsCppAnswer, cpp_puts, needed_source};
ghost use Rattle.pw_commands_cpp.specs.Steps.{ComesToOutput, IsCppStop, output_or_fault};
ghost use Rattle.pw_io.specs.Files.{Keeps};
ghost use Rattle.pw_store_modules.specs.FileNames.{text_name};
ghost use Rattle.pw_store_modules.specs.Modules.{is_module_name};
ghost use Rattle.pw_store_texts.specs.Headers.{headers_of};
ghost use Rattle.pw_store_texts.specs.Names.{source_name};
ghost use Rattle.pw_top_answer.specs.Effects.{PutsFiles};
ghost use Rattle.pw_top_answer.specs.Outcomes.{StoreCount};

use pw_commands::put_file;
use pw_cpp::CppFault;
use pw_io::{Store, StoreError};
use pw_law_cpp::one_output;
use pw_store_modules::{TEXT_ENDING, module_file};
use pw_store_texts::{SOURCE_ENDING, TEXT_READ, preprocess_source, read_headers, source_name};
use pw_top_answer::Answer;
use pw_value::Name;
use std::alloc::{AllocError, Global};

/// The answer where a module's C source is absent.
fn absent(alloc: Global, name: &Name) -> Answer
    requires { is_module_name name.now ≡ true }
    ensures bad { IsBadFile (source_name name.now) None result }
    ensures stop { IsFileStop result }
{
    match source_name(alloc, name) {
        Ok(file) => Answer::BadFile(file, None),
        Err(AllocError) => Answer::NoMemory,
    }
}

/// The text of a module's C source, or that it is absent.
fn source_of<S: Store>(alloc: Global, store: &mut S, name: &Name) -> Result<Vec<u8>, Answer>
    requires { is_module_name name.now ≡ true }
    ensures read { IfSome (S.told store.old) (λ told. Needs (λ text. text.items) result (needed_source told.files name.now)) }
    ensures same { Keeps (S.told store.old) (S.told store.new) }
    ensures count { StopCount (S.faults store.old) (S.faults store.new) result }
    ensures stop { IfErr result IsFileStop }
{
    let file = module_file(alloc, name, SOURCE_ENDING)?;
    match store.get(alloc, file.as_str(), TEXT_READ) {
        Ok(Some(text)) => Ok(text),
        Ok(None) => Err(absent(alloc, name)),
        Err(StoreError::Failed) => Err(Answer::StoreFault),
        Err(StoreError::NoMemory) => Err(Answer::NoMemory),
    }
}

/// An output, or the answer that tells its fault. Takes no memory.
fn output_or_fault(made: Result<Vec<u8>, CppFault>) -> Result<Vec<u8>, Answer>
    ensures { result ≡ output_or_fault made }
{
    match made {
        Ok(output) => Ok(output),
        Err(fault) => Err(Answer::Cpp(fault)),
    }
}

/// What the preprocessor makes of a module's C source among the headers of a store, or the answer in its place.
#[tactic(auto, using(crate::proofs::CppLemmas::output_told, crate::proofs::CppLemmas::told_stops, crate::proofs::CppLemmas::told_counts))]
fn output_among<S: Store>(
    alloc: Global,
    store: &mut S,
    name: &Name,
    text: Vec<u8>,
) -> Result<Vec<u8>, Answer>
    requires { is_module_name name.now ≡ true }
    ensures output { IfSome (S.told store.old) (λ told. ComesToOutput (headers_of told.files) name.now (Ok text.items) result) }
    ensures same { Keeps (S.told store.old) (S.told store.new) }
    ensures count { StopCount (S.faults store.old) (S.faults store.new) result }
    ensures stop { IfErr result IsCppStop }
{
    let mut headers = read_headers(alloc, store)?;
    output_or_fault(preprocess_source(alloc, &mut headers, name, text)?)
}

/// What the preprocessor makes of a module's C source, or the answer in its place.
fn output_of<S: Store>(alloc: Global, store: &mut S, name: &Name) -> Result<Vec<u8>, Answer>
    requires { is_module_name name.now ≡ true }
    ensures output { IfSome (S.told store.old) (λ told. ComesToOutput (headers_of told.files) name.now (needed_source told.files name.now) result) }
    ensures same { Keeps (S.told store.old) (S.told store.new) }
    ensures count { StopCount (S.faults store.old) (S.faults store.new) result }
    ensures stop { IfErr result IsCppStop }
{
    let text = source_of(alloc, store, name)?;
    output_among(alloc, store, name, text)
}

/// Puts the text of a module.
fn put_text<S: Store>(alloc: Global, store: &mut S, name: &Name, text: &[u8]) -> Answer
    requires { is_module_name name.now ≡ true }
    ensures put { IfSome (S.told store.old) (λ told. PutsFiles ((text_name name.now, text.now) ∷ []) result told (S.told store.new)) }
    ensures answer { IsPutAnswer result }
    ensures count { StoreCount (S.faults store.old) (S.faults store.new) result }
{
    match module_file(alloc, name, TEXT_ENDING) {
        Ok(file) => put_file(alloc, store, file.as_str(), text),
        Err(AllocError) => Answer::NoMemory,
    }
}

/// Preprocesses the C source of a module.
///
/// `NAME.c` is read, then all headers of the store, and `NAME.i` is put. The answer is `Done` where it was put; `Cpp` with the first
/// fault that the preprocessor finds; `BadFile` where `NAME.c` is absent; nothing is put then.
pub fn preprocess_module<S: Store>(alloc: Global, store: &mut S, name: &Name) -> Answer
    requires { is_module_name name.now ≡ true }
    ensures obeys { IfSome (S.told store.old) (λ told. (input : List ℕ) → Obeys (CppEffect told.files name.now input) result told (S.told store.new)) }
    ensures others { KeepsOthers (cpp_puts name.now) result (S.told store.old) (S.told store.new) }
    ensures answer { IsCppAnswer result }
    ensures count { StoreCount (S.faults store.old) (S.faults store.new) result }
{
    one_output();
    match output_of(alloc, store, name) {
        Ok(output) => put_text(alloc, store, name, output.as_slice()),
        Err(answer) => answer,
    }
}
