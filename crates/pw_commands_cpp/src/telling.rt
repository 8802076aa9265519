//! What is told of a module that a build refuses.

ghost use Rattle.std.specs.Prelude.{◌≡◌, ◌≢◌, ℕ, IfErr, IfOk, IfSome, Option, true};
ghost use Rattle.pw_commands_cpp.specs.Telling.{ComesOf, IsToldAnswer, IsToldOf, TellsCompiled, TellsOrFails, TellsRefusal};
ghost use Rattle.pw_cpp_directives.specs.declared.fault.CppKind.TheVariants as kind;
ghost use Rattle.pw_io.specs.Faults.{HasStoreCause};
ghost use Rattle.pw_io.specs.Files.{Keeps};
ghost use Rattle.pw_store_modules.specs.Modules.{is_module_name};
ghost use Rattle.pw_top_answer.specs.Outcomes.{IsLineDue, StoreCount};

use pw_cpp::CppFault;
use pw_front_end::Refusal;
use pw_io::{Store, StoreError};
use pw_store_modules::{is_module_name, module_file};
use pw_store_texts::{SOURCE_ENDING, TEXT_READ, preprocess_source, read_headers, text_bytes};
use pw_top_answer::{Answer, Reply};
use pw_value::limits::TEXTS_LIMIT;
use pw_value::{LinkFault, Name, What};
use std::alloc::Global;

/// What the preprocessor makes of a module's C source, where it has one.
#[tactic(auto, using(crate::proofs::TellingLemmas::came_none, crate::proofs::TellingLemmas::came_some))]
pub fn source_output<S: Store>(
    alloc: Global,
    store: &mut S,
    name: &Name,
) -> Result<Option<Result<Vec<u8>, CppFault>>, StoreError>
    requires { is_module_name name.now ≡ true }
    ensures came { IfSome (S.told store.old) (λ told. IfOk result (λ found. ComesOf told.files name.now found)) }
    ensures proper { IfOk result (λ found. IfSome found (λ answer. IfErr answer (λ fault. fault.kind ≢ kind.NoMemory))) }
    ensures same { Keeps (S.told store.old) (S.told store.new) }
    ensures cause { HasStoreCause (S.faults store.old) (S.faults store.new) result }
{
    let file = module_file(alloc, name, SOURCE_ENDING)?;
    let Some(text) = store.get(alloc, file.as_str(), TEXT_READ)? else {
        return Ok(None);
    };
    let mut headers = read_headers(alloc, store)?;
    Ok(Some(preprocess_source(alloc, &mut headers, name, text)?))
}

/// What is told of a refused module, where the bytes of the texts are not looked at: of one that has a C source the preprocessor's fault, or
/// that its output is refused.
#[tactic(auto, using(crate::proofs::TellingLemmas::tells_unnamed, crate::proofs::TellingLemmas::tells_none, crate::proofs::TellingLemmas::tells_output, crate::proofs::TellingLemmas::tells_fault))]
fn tell_compiled<S: Store>(
    alloc: Global,
    store: &mut S,
    name: Name,
    refusal: Refusal,
    line: Option<usize>,
) -> Reply
    ensures told { IfSome (S.told store.old) (λ told. TellsCompiled told.files name refusal result.answer) }
    ensures line { (due : Option ℕ) → line ≡ due → IsLineDue due result.answer result.line }
    ensures same { Keeps (S.told store.old) (S.told store.new) }
    ensures answer { IsToldOf name refusal result.answer }
    ensures count { StoreCount (S.faults store.old) (S.faults store.new) result.answer }
{
    if !is_module_name(name.as_bytes()) {
        return Reply {
            answer: Answer::Refused(name, refusal),
            line,
        };
    }
    match source_output(alloc, store, &name) {
        Ok(None) => Reply {
            answer: Answer::Refused(name, refusal),
            line,
        },
        Ok(Some(Ok(_))) => Reply {
            answer: Answer::RefusedSource(name, refusal),
            line,
        },
        Ok(Some(Err(fault))) => Reply {
            answer: Answer::Cpp(fault),
            line: None,
        },
        Err(error) => Reply {
            answer: Answer::from(error),
            line: None,
        },
    }
}

/// What is told of a refused module: that the texts of the store are more bytes than there may be, where they are.
#[tactic(auto, using(crate::proofs::TellingLemmas::tells_many, crate::proofs::TellingLemmas::tells_few))]
fn tell_refused<S: Store>(
    alloc: Global,
    store: &mut S,
    name: Name,
    refusal: Refusal,
    line: Option<usize>,
) -> Reply
    ensures told { IfSome (S.told store.old) (λ told. TellsRefusal told.files name refusal result.answer) }
    ensures line { (due : Option ℕ) → line ≡ due → IsLineDue due result.answer result.line }
    ensures same { Keeps (S.told store.old) (S.told store.new) }
    ensures answer { IsToldOf name refusal result.answer }
    ensures count { StoreCount (S.faults store.old) (S.faults store.new) result.answer }
{
    match text_bytes(alloc, store) {
        Ok(bytes) => {
            if bytes > TEXTS_LIMIT {
                Reply {
                    answer: Answer::LinkRefused(LinkFault::TooMany(What::TextBytes, bytes)),
                    line: None,
                }
            } else {
                tell_compiled(alloc, store, name, refusal, line)
            }
        }
        Err(error) => Reply {
            answer: Answer::from(error),
            line: None,
        },
    }
}

/// What is told of a command's reply over the files of a store, which stay as they are: a refused module by that the texts are more bytes
/// than there may be, where they are; else one that has a C source by the preprocessor's fault, or as one whose output is refused. Every
/// other answer stays.
pub fn tell_source<S: Store>(alloc: Global, store: &mut S, reply: Reply) -> Reply
    ensures told { IfSome (S.told store.old) (λ told. TellsOrFails told.files reply.answer result.answer) }
    ensures line { (due : Option ℕ) → IsLineDue due reply.answer reply.line → IsLineDue due result.answer result.line }
    ensures same { Keeps (S.told store.old) (S.told store.new) }
    ensures answer { IsToldAnswer reply.answer result.answer }
    ensures count { (before : ℕ) → StoreCount before (S.faults store.old) reply.answer → StoreCount before (S.faults store.new) result.answer }
{
    let Reply { answer, line } = reply;
    match answer {
        Answer::Refused(name, refusal) => tell_refused(alloc, store, name, refusal, line),
        answer => Reply { answer, line },
    }
}
