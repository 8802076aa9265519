//! The file in which an undefined operation stands.

ghost use Rattle.std.specs.Prelude.{◌≡◌, IfOk, OnErr, map, string_bytes};
ghost use Rattle.std.specs.FinMap as finite;
ghost use Rattle.std.specs.List.{list_any};
ghost use Rattle.std.specs.Str.{bytes_eq};
ghost use Rattle.pw_io.specs.Files.{Files};
ghost use Rattle.pw_store_texts.specs.Names.{source_name};
ghost use Rattle.pw_interp_runs.specs.Running.{TellsToken};
ghost use Rattle.pw_commands_interp.specs.Interpreting.{IsToldEnd, ToldAny, told_end};

use pw_store_texts::SOURCE_ENDING;
use pw_top_answer::{Answer, Reply};
use pw_value::Name;
use std::alloc::{AllocError, Global};

/// The name of the file of a module's C source.
fn source_file(alloc: Global, name: &Name) -> Result<Vec<u8>, AllocError>
    ensures { IfOk result (λ file. file.items ≡ source_name name.now) }
{
    let mut file = Vec::from_slice(alloc, name.as_bytes())?;
    file.extend_from_slice(SOURCE_ENDING.as_bytes())?;
    Ok(file)
}

/// Whether a file is among these names.
fn is_among(names: &[String], file: &[u8]) -> bool
    ensures { result ≡ list_any (λ name. bytes_eq file.now (string_bytes name)) names.now }
{
    names.iter().any(|name| file == name.as_bytes())
}

/// An answer to a run, told of the file in which the operation stands, by the names of all files.
#[tactic(auto, using(crate::proofs::ToldLemmas::told_plain, crate::proofs::ToldLemmas::any_plain))]
fn told_answer(alloc: Global, names: &[String], answer: Answer) -> Result<Answer, AllocError>
    ensures told { (files : Files) → map string_bytes names.now ≡ finite.keys files → IfOk result (λ told. told ≡ told_end files answer) }
    ensures any { IfOk result (λ told. ToldAny answer told) }
    ensures memory { OnErr result (TellsToken answer) }
{
    match answer {
        Answer::Undefined(operation, home, token) => {
            let file = source_file(alloc, &home)?;
            if is_among(names, &file) {
                Ok(Answer::UndefinedSource(operation, home, token))
            } else {
                Ok(Answer::Undefined(operation, home, token))
            }
        }
        answer => Ok(answer),
    }
}

/// A reply whose operation without a meaning is told of the C source where one stands beside the module; want of memory
/// may come in its place.
#[tactic(auto, using(crate::proofs::ToldLemmas::reply_told, crate::proofs::ToldLemmas::reply_memory, crate::proofs::ToldLemmas::any_memory))]
pub fn told_reply(alloc: Global, names: &[String], reply: Reply) -> Reply
    ensures told { (files : Files) → map string_bytes names.now ≡ finite.keys files → IsToldEnd files reply.answer result.answer }
    ensures any { ToldAny reply.answer result.answer }
    ensures line { result.line ≡ reply.line }
{
    let Reply { answer, line } = reply;
    match told_answer(alloc, names, answer) {
        Ok(answer) => Reply { answer, line },
        Err(AllocError) => Reply {
            answer: Answer::NoMemory,
            line,
        },
    }
}
