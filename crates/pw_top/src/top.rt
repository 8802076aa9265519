//! The top call: obeys the words, and tells its answer in one line.

ghost use Rattle.std.specs.Prelude.{◌≡◌, ◌⊎◌, ℕ, IfSome, List, None, Option, Some, map, string_bytes, true};
ghost use Rattle.pw_io.specs.Files.{Keeps};
ghost use Rattle.pw_top_answer.specs.Answers.{line_text};
ghost use Rattle.pw_top_answer.specs.Outcomes.{InputCount, IsLineDue, LeavesStreams, OutputCount, StoreCount, Tells, TellsSome};
ghost use Rattle.pw_law_session.specs.FromSession.FromBuildFiles.Genuine.{KeepsGenuine};
ghost use Rattle.pw_top.specs.Answers.{HoldsNoWantOfMemory, IsNoUsage};
ghost use Rattle.pw_top.specs.Commands.{EndsScript, IsComplete, IsNoSession, KeepsTheRest, OnlyReads, is_builder, is_phase, is_reader};
ghost use Rattle.pw_top.specs.Obeying.{CarriesOut, CarriesOutTold, outside_of};
ghost use Rattle.pw_top.specs.Telling.{AnswersAs, BuildsAs, IsLineTold, IsNoBuilder, IsToldBy, IsToldFor, builds_files};
ghost use Rattle.pw_top_words.specs.CommandLine.{command_of};
ghost use Rattle.pw_top_words.specs.Limits.{IsWithin};

use pw_commands::{analyse_modules, link_modules, list_image, run_image, show_database};
use pw_commands_cpp::{preprocess_module, tell_source};
use pw_commands_interp::interpret_modules;
use pw_commands_interp::laws::{genuine_objects_run_as_the_full_build, runs_leave_a_rest};
use pw_commands_phases::{compile_flow, compile_text};
use pw_commands_where::laws::looks_leave_an_end;
use pw_commands_where::show_call;
use pw_go::go;
use pw_go::laws::runs_leave_an_end;
use pw_io::laws::other_files;
use pw_io::{Sink, Source, Store};
use pw_law_session::{
    a_store_is_built_exactly_where_it_can_be, bench, bench_builds_in_full, build_modules,
    builds_are_full, genuine_files_keep_genuine, genuine_objects_are_seen, run_session,
    sessions_build_in_full,
};
use pw_store_texts::files_are_seen_in_one_way;
use pw_top_answer::{Answer, Reply, tell};
use pw_top_words::laws::commands_are_within;
use pw_top_words::{Command, WordsFault, command};
use std::alloc::Global;

/// Obeys a command that is one phase of separate compiling, the analysis or the link: it touches the store alone.
fn obey_phase<S: Store>(alloc: Global, command: &Command, store: &mut S) -> Reply
    requires within { IsWithin command.now }
    requires phase { is_phase command.now ≡ true }
    ensures usage { IsNoUsage result.answer }
    ensures obeys { (rest taken : Option (List ℕ)) (input output : ℕ) → CarriesOut (Some command.now) result.answer result.line (outside_of (S.told store.old) rest taken (S.faults store.old) input output) (outside_of (S.told store.new) rest taken (S.faults store.new) input output) }
{
    genuine_files_keep_genuine();
    match command {
        Command::Preprocess(name) => Reply {
            answer: preprocess_module(alloc, store, name),
            line: None,
        },
        Command::PhaseOne { name, optimise } => compile_text(alloc, store, name, *optimise),
        Command::Analyse { colours } => Reply {
            answer: analyse_modules(alloc, store, *colours),
            line: None,
        },
        Command::PhaseTwo(name) => Reply {
            answer: compile_flow(alloc, store, name),
            line: None,
        },
        Command::Link { stack } => Reply {
            answer: link_modules(alloc, store, *stack),
            line: None,
        },
        _ => unreachable!(),
    }
}

/// Obeys a command that reads what was linked or analysed: it runs it, or prints it.
fn obey_reader<S: Store, I: Source, O: Sink>(
    alloc: Global,
    command: &Command,
    store: &mut S,
    input: &mut I,
    out: &mut O,
) -> Reply
    requires { is_reader command.now ≡ true }
    ensures usage { IsNoUsage result.answer }
    ensures obeys { CarriesOut (Some command.now) result.answer result.line (outside_of (S.told store.old) (I.rest input.old) (O.taken out.old) (S.faults store.old) (I.faults input.old) (O.faults out.old)) (outside_of (S.told store.new) (I.rest input.new) (O.taken out.new) (S.faults store.new) (I.faults input.new) (O.faults out.new)) }
{
    match command {
        Command::Run { steps } => Reply {
            answer: run_image(alloc, store, input, out, *steps),
            line: None,
        },
        Command::List => Reply {
            answer: list_image(alloc, store, out),
            line: None,
        },
        Command::Db => Reply {
            answer: show_database(alloc, store, out),
            line: None,
        },
        _ => unreachable!(),
    }
}

/// Obeys a command that builds whole programs.
fn obey_builder<S: Store, I: Source, O: Sink>(
    alloc: Global,
    command: &Command,
    store: &mut S,
    input: &mut I,
    out: &mut O,
) -> Reply
    requires within { IsWithin command.now }
    requires builder { is_builder command.now ≡ true }
    ensures usage { IsNoUsage result.answer }
    ensures obeys { CarriesOut (Some command.now) result.answer result.line (outside_of (S.told store.old) (I.rest input.old) (O.taken out.old) (S.faults store.old) (I.faults input.old) (O.faults out.old)) (outside_of (S.told store.new) (I.rest input.new) (O.taken out.new) (S.faults store.new) (I.faults input.new) (O.faults out.new)) }
{
    other_files();
    match command {
        Command::Go(opts) => go(alloc, store, opts, input, out),
        Command::Build(opts) => build_modules(alloc, store, out, opts),
        Command::Session(opts) => Reply {
            answer: run_session(alloc, store, input, out, opts),
            line: None,
        },
        Command::Bench { number, opts } => bench(alloc, *number, opts, out),
        Command::Where { call, opts } => show_call(alloc, store, opts, *call, input, out),
        Command::Interp(opts) => interpret_modules(alloc, store, opts, input, out),
        _ => unreachable!(),
    }
}

/// Obeys a command.
fn obey<S: Store, I: Source, O: Sink>(
    alloc: Global,
    command: &Command,
    store: &mut S,
    input: &mut I,
    out: &mut O,
) -> Reply
    requires { IsWithin command.now }
    ensures usage { IsNoUsage result.answer }
    ensures obeys { CarriesOut (Some command.now) result.answer result.line (outside_of (S.told store.old) (I.rest input.old) (O.taken out.old) (S.faults store.old) (I.faults input.old) (O.faults out.old)) (outside_of (S.told store.new) (I.rest input.new) (O.taken out.new) (S.faults store.new) (I.faults input.new) (O.faults out.new)) }
{
    match command {
        Command::PhaseOne { .. }
        | Command::Preprocess(_)
        | Command::Analyse { .. }
        | Command::PhaseTwo(_)
        | Command::Link { .. } => obey_phase(alloc, command, store),
        Command::Run { .. } | Command::List | Command::Db => {
            obey_reader(alloc, command, store, input, out)
        }
        Command::Go(_)
        | Command::Build(_)
        | Command::Session(_)
        | Command::Bench { .. }
        | Command::Where { .. }
        | Command::Interp(_) => obey_builder(alloc, command, store, input, out),
    }
}

/// Whether a command builds over the files of the store.
fn builds_files(command: &Command) -> bool
    ensures { result ≡ builds_files command.now }
{
    match command {
        Command::Go(_) | Command::Build(_) | Command::Where { .. } | Command::Interp(_) => true,
        _ => false,
    }
}

/// What is told of a command's reply: of one that builds over the files of the store what came of the C source of a refused module.
#[tactic(auto, using(crate::proofs::TellingLemmas::told_by_source, crate::proofs::TellingLemmas::told_by_none, crate::proofs::TellingLemmas::told_for_source, crate::proofs::TellingLemmas::told_for_none, crate::proofs::TellingLemmas::no_builder))]
fn tell_builder<S: Store>(alloc: Global, command: &Command, store: &mut S, reply: Reply) -> Reply
    ensures told { IfSome (S.told store.old) (λ told. IsToldBy (Some command.now) told.files reply.answer result.answer) }
    ensures answer { IsToldFor (Some command.now) reply.answer result.answer }
    ensures line { (due : Option ℕ) → IsLineDue due reply.answer reply.line → IsLineDue due result.answer result.line }
    ensures same { Keeps (S.told store.old) (S.told store.new) }
    ensures count { (before : ℕ) → StoreCount before (S.faults store.old) reply.answer → StoreCount before (S.faults store.new) result.answer }
    ensures alone { IsNoBuilder (Some command.now) → (S.told store.new ≡ S.told store.old) × (S.faults store.new ≡ S.faults store.old) × (result ≡ reply) }
{
    if builds_files(command) {
        tell_source(alloc, store, reply)
    } else {
        reply
    }
}

/// Obeys the words.
fn obey_words<S: Store, I: Source, O: Sink>(
    alloc: Global,
    words: &[String],
    store: &mut S,
    input: &mut I,
    out: &mut O,
) -> Reply
    ensures usage_is { result.answer ≡ Answer.Usage → command_of (map string_bytes words.now) ≡ None }
    ensures usage_comes { command_of (map string_bytes words.now) ≡ None → (result.answer ≡ Answer.Usage) ⊎ (result.answer ≡ Answer.NoMemory) }
    ensures obeys { CarriesOutTold (command_of (map string_bytes words.now)) result.answer result.line (outside_of (S.told store.old) (I.rest input.old) (O.taken out.old) (S.faults store.old) (I.faults input.old) (O.faults out.old)) (outside_of (S.told store.new) (I.rest input.new) (O.taken out.new) (S.faults store.new) (I.faults input.new) (O.faults out.new)) }
{
    commands_are_within();
    looks_leave_an_end();
    runs_leave_a_rest();
    runs_leave_an_end();
    match command(alloc, words) {
        Ok(command) => {
            let reply = obey(alloc, &command, store, input, out);
            tell_builder(alloc, &command, store, reply)
        }
        Err(WordsFault::Usage) => Reply {
            answer: Answer::Usage,
            line: None,
        },
        Err(WordsFault::NoMemory) => Reply {
            answer: Answer::NoMemory,
            line: None,
        },
    }
}

/// Does what the words say with the store, the input and the output, and tells the answer on `err` in one line; an
/// answer that a command is done, or that the program ended, has none. A fault of `err` changes nothing.
///
/// What is promised of a store that tells its files, an input that tells its rest and an output that tells what it
/// took: the answer, the files that are put, the output and what is left of the input are those to which the command
/// comes. Want of memory may come in place of an answer, and so may a fault of the store, the input or the output:
/// only where that object's count of faults rose, and every other answer leaves the counts as they were. Whatever the
/// answer, each file but those that the command puts is as before.
///
/// Where what is kept of earlier builds was made by this compiler, each image that is built is the full build's, and the machine
/// does with it what the modules mean in C (`does`): in output, end and count of bytes read. Of globals that have
/// registers the clause says where they stand, which registers calls keep, and when the memory is loaded and stored.
pub fn pawc_top<S: Store, I: Source, O: Sink, E: Sink>(
    alloc: Global,
    words: &[String],
    store: &mut S,
    input: &mut I,
    out: &mut O,
    err: &mut E,
) -> Answer
    // the words
    ensures usage_is { result ≡ Answer.Usage → command_of (map string_bytes words.now) ≡ None }
    ensures usage_comes { command_of (map string_bytes words.now) ≡ None → (result ≡ Answer.Usage) ⊎ (result ≡ Answer.NoMemory) }

    // the answer, the files, the output and the input; where a module is refused that has a C source, what came of this is told
    ensures does { IfSome (S.told store.old) (λ told. IfSome (I.rest input.old) (λ rest. AnswersAs (command_of (map string_bytes words.now)) result told (S.told store.new) rest (I.rest input.new) (O.taken out.old) (O.taken out.new))) }
    ensures ends_script { EndsScript (command_of (map string_bytes words.now)) (I.rest input.old) result }

    // where nothing is refused, whatever the input tells
    ensures complete { IfSome (S.told store.old) (λ told. IsComplete (command_of (map string_bytes words.now)) told.files result) }

    // no refusal is one for want of memory
    ensures no_want_refused { HoldsNoWantOfMemory result }

    // the refusals and the files of `build`, `go` and `where`, whatever the input tells
    ensures builds { IfSome (S.told store.old) (λ told. BuildsAs (command_of (map string_bytes words.now)) result told (S.told store.new)) }

    // what stays
    ensures streams_left { IsNoSession (command_of (map string_bytes words.now)) → LeavesStreams result (I.rest input.old) (I.rest input.new) (O.taken out.old) (O.taken out.new) }
    ensures keeps_others { KeepsTheRest (command_of (map string_bytes words.now)) (I.rest input.old) result (S.told store.old) (S.told store.new) }
    ensures keeps_genuine { IfSome (S.told store.old) (λ told. KeepsGenuine told.files → IfSome (S.told store.new) (λ now. KeepsGenuine now.files)) }
    ensures store_after { OnlyReads (command_of (map string_bytes words.now)) → Keeps (S.told store.old) (S.told store.new) }

    // faults
    ensures store_faults { StoreCount (S.faults store.old) (S.faults store.new) result }
    ensures input_faults { InputCount (I.faults input.old) (I.faults input.new) result }
    ensures output_faults { OutputCount (O.faults out.old) (O.faults out.new) result }

    // the line
    ensures line { IfSome (S.told store.old) (λ told. (line : Option ℕ) × IsLineTold (command_of (map string_bytes words.now)) told.files result line × Tells (line_text line result) (E.taken err.old) (E.taken err.new) (E.faults err.old) (E.faults err.new)) }
    ensures some_line { TellsSome result (E.taken err.old) (E.taken err.new) (E.faults err.old) (E.faults err.new) }
{
    a_store_is_built_exactly_where_it_can_be();
    bench_builds_in_full();
    builds_are_full();
    commands_are_within();
    files_are_seen_in_one_way();
    genuine_objects_are_seen();
    genuine_objects_run_as_the_full_build();
    sessions_build_in_full();
    let reply = obey_words(alloc, words, store, input, out);
    tell(alloc, reply.answer, reply.line, err)
}
