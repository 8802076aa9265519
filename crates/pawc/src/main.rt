//! The program `pawc`: a compiler, linker and simulator in one. It makes the objects of the outside, calls the
//! top call with its words and ends with the answer's status.
#![tactic(auto)]

ghost use Rattle.std.specs.Prelude.{◌≡◌, ◌≢◌, ◌⊎◌, ◌∷◌, [], IfErr, IfOk, IsErr, None, OnOk, Result, drop, false, map, string_bytes, true};
ghost use Rattle.std.specs.IoError.{error_kind};
ghost use Rattle.std.specs.Process.{exit_status};
ghost use Rattle.std.specs.Vec.Iter.{into_iter_items};
ghost use Rattle.pw_top_answer.specs.Answers.{line_text, status_of};
ghost use Rattle.pw_top_answer.specs.Outcomes.{Tells};
ghost use Rattle.pw_io.specs.declared.Failed.{Failed};
ghost use Rattle.pw_io_system.specs.Sinks.{kept_back};
ghost use Rattle.pw_top_words.specs.CommandLine.{command_of};
ghost use Rattle.pawc.specs.Flushed.{IsUntold, after_flush, line_after_flush};
ghost use Rattle.pawc.specs.declared.TheConstants.{BLOCK};

use pw_io::{Failed, Sink};
use pw_io_system::{CurrentFolder, FileStore, StdSink, StdSource};
use pw_top::{Answer, pawc_top};
use pw_top_answer::{exit_of, is_untold, tell};
use std::alloc::{AllocError, Global};
use std::env::{self, Args};
use std::io::{self, BufWriter, ErrorKind, IsTerminal, Read, Write};
use std::process::ExitCode;
use std::rt::Files;

/// How many bytes of the output are kept back at most.
const BLOCK: usize = 8192;

/// One empty word, which is no command line.
fn no_command(alloc: Global) -> Result<Vec<String>, AllocError>
    ensures { IfOk result (λ words. map string_bytes words.items ≡ [] ∷ []) }
{
    let mut words = Vec::new(alloc);
    words.push(String::new(alloc))?;
    Ok(words)
}

/// The words behind the program's name.
fn behind_name(alloc: Global, args: Args) -> Result<Vec<String>, AllocError>
    ensures { IfOk result (λ words. words.items ≡ drop 1 (into_iter_items args)) }
{
    args.skip(1).collect(alloc)
}

/// The words after the program's name, by what the system tells. Words that are no text are one empty word.
fn words_of(alloc: Global, told: io::Result<Args>) -> Result<Vec<String>, AllocError>
    ensures words { IfOk told (λ args. IfOk result (λ words. words.items ≡ drop 1 (into_iter_items args))) }
    ensures no_text { IfErr told (λ e. error_kind e ≢ ErrorKind.OutOfMemory → IfOk result (λ words. map string_bytes words.items ≡ [] ∷ [])) }
    ensures no_memory { IfErr told (λ e. error_kind e ≡ ErrorKind.OutOfMemory → IsErr result) }
{
    match told {
        Ok(args) => behind_name(alloc, args),
        Err(fault) if fault.kind() == ErrorKind::OutOfMemory => Err(AllocError),
        Err(_) => no_command(alloc),
    }
}

/// The answer behind the flush of the output: one that no line told is a write fault where the flush failed, and is told.
fn after_flush<E: Sink>(
    alloc: Global,
    answer: Answer,
    flushed: Result<(), Failed>,
    err: &mut E,
) -> Answer
    ensures answer { result ≡ after_flush answer flushed }
    ensures line { Tells (line_after_flush answer flushed) (E.taken err.old) (E.taken err.new) (E.faults err.old) (E.faults err.new) }
{
    match flushed {
        Err(Failed) if is_untold(&answer) => tell(alloc, Answer::WriteFault, None, err),
        _ => answer,
    }
}

/// The output is written out to its end, and this is the answer. Where it cannot be, one that no line told is a write fault,
/// which is told.
fn finish<O: Write + Drop, E: Sink>(
    alloc: Global,
    answer: Answer,
    out: &mut StdSink<BufWriter<O>>,
    err: &mut E,
) -> Answer
    ensures answer { (flushed : Result (Unit {0}) Failed) × OnOk flushed (kept_back out.new ≡ []) × (result ≡ after_flush answer flushed) × Tells (line_after_flush answer flushed) (E.taken err.old) (E.taken err.new) (E.faults err.old) (E.faults err.new) }
    ensures whole { IsUntold result → kept_back out.new ≡ [] }
{
    let flushed = out.flush();
    after_flush(alloc, answer, flushed, err)
}

/// Obeys the words over the files of the current folder, and tells and answers what came of it. Words that say no command
/// are answered so, and no others are; where there is no memory that is answered. An answer that no line told leaves nothing of
/// the output kept back.
fn obey<F: Files + AllocGlobal + Clone + Drop, I: Read + Drop, O: Write + Drop, E: Write>(
    files: &F,
    words: &[String],
    reader: I,
    out: &mut StdSink<BufWriter<O>>,
    err: &mut StdSink<E>,
) -> Answer
    ensures usage_is { result ≡ Answer.Usage → command_of (map string_bytes words.now) ≡ None }
    ensures usage_comes { command_of (map string_bytes words.now) ≡ None → (result ≡ Answer.Usage) ⊎ (result ≡ Answer.NoMemory) }
    ensures whole { IsUntold result → kept_back out.new ≡ [] }
{
    let mut store = FileStore::new(CurrentFolder::new(files));
    let mut input = StdSource::new(reader);
    let answer = pawc_top(files.alloc(), words, &mut store, &mut input, out, err);
    finish(files.alloc(), answer, out, err)
}

/// How many bytes of the output are kept back at most: none where somebody waits for them at a terminal.
fn block_of(at_terminal: bool) -> usize
    ensures terminal { at_terminal ≡ true → result ≡ 0 }
    ensures other { at_terminal ≡ false → result ≡ BLOCK }
{
    if at_terminal { 0 } else { BLOCK }
}

/// Where there is no memory for the words or for the output's block, that is told and answered.
fn without_memory<E: Sink>(alloc: Global, err: &mut E) -> ExitCode
    ensures status { exit_status result ≡ status_of Answer.NoMemory }
    ensures line { Tells (line_text None Answer.NoMemory) (E.taken err.old) (E.taken err.new) (E.faults err.old) (E.faults err.new) }
{
    exit_of(&tell(alloc, Answer::NoMemory, None, err))
}

fn main(rt: HostRuntime) -> ExitCode {
    let mut err = StdSink::new(rt.stderr());
    let block = block_of(rt.stdin().is_terminal() || rt.stdout().is_terminal());
    let (Ok(words), Ok(writer)) = (
        words_of(rt.alloc(), env::args(&rt)),
        BufWriter::with_capacity(rt.alloc(), block, rt.stdout()),
    ) else {
        return without_memory(rt.alloc(), &mut err);
    };
    let mut out = StdSink::new(writer);
    let answer = obey(&rt, &words, rt.stdin(), &mut out, &mut err);
    exit_of(&answer)
}
