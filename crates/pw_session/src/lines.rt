//! What a line of a session's script does.

ghost use Rattle.std.specs.Prelude.{◌≡◌, ℕ, [], ◌∷◌, IfSome, Some, codes, true};
ghost use Rattle.pw_io.specs.Files.{Keeps};
ghost use Rattle.pw_store_texts.specs.Names.{is_text_file};
ghost use Rattle.pw_top_answer.specs.Answers.{line_text};
ghost use Rattle.pw_top_answer.specs.Outcomes.{IsPrintAnswer, OutputCount, PutsOut, StoreCount};
ghost use Rattle.pw_build_files.specs.Genuine.{KeepsGenuine};
ghost use Rattle.pw_build_files.specs.Outcomes.{AreOpts, fault_answer};
ghost use Rattle.pw_session_script.specs.Reading.{line_view};
ghost use Rattle.pw_session_script.specs.Script.{BuildProgram, NamesText};
ghost use Rattle.pw_session.specs.Changes.{MakesSome, Puts, Removes, after_changes};
ghost use Rattle.pw_session.specs.Removals.{IsRemovedBy};
ghost use Rattle.pw_session.specs.Outcomes.{DoesEffect, IsLineAnswer, IsLineObeyed, KeepsImage, ObeysLine, SaysFault, SaysReply, StoresAlike, image_view};

use crate::laws::texts_are_no_objects;
use crate::runs::run_image;
use pw_build_files::{Unbuilt, answer_of, build_uncounted, put_report};
use pw_build_opts::RunOpts;
use pw_commands_cpp::{answers_are_told_in_one_way, tell_source};
use pw_io::laws::other_files;
use pw_io::{Sink, Store};
use pw_session_script::Line;
use pw_store_texts::files_are_seen_in_one_way;
use pw_top_answer::{Answer, Reply, line_of, print};
use std::alloc::{AllocError, Global};

/// Puts a text into its file.
fn put_text<S: Store, O: Sink>(
    alloc: Global,
    store: &mut S,
    out: &mut O,
    file: &str,
    text: &[u8],
) -> Answer
    requires { is_text_file file.now ≡ true }
    ensures does { IfSome (S.told store.old) (λ told. DoesEffect (codes "ok\n") (Puts (file.now, text.now) ∷ []) result told (S.told store.new) (O.taken out.old) (O.taken out.new)) }
    ensures made { IfSome (S.told store.old) (λ told. IsLineObeyed result → S.told store.new ≡ Some (after_changes told (Puts (file.now, text.now) ∷ []))) }
    ensures genuine { IfSome (S.told store.old) (λ told. KeepsGenuine told.files → IfSome (S.told store.new) (λ now. KeepsGenuine now.files)) }
    ensures store { StoreCount (S.faults store.old) (S.faults store.new) result }
    ensures write { OutputCount (O.faults out.old) (O.faults out.new) result }
    ensures answer { IsLineAnswer result }
{
    other_files();
    texts_are_no_objects();
    match store.put(alloc, file, text) {
        Ok(()) => print(out, b"ok\n"),
        Err(error) => Answer::from(error),
    }
}

/// Removes a text's file.
fn remove_text<S: Store, O: Sink>(alloc: Global, store: &mut S, out: &mut O, file: &str) -> Answer
    requires { is_text_file file.now ≡ true }
    ensures does { IfSome (S.told store.old) (λ told. DoesEffect (codes "ok\n") (Removes file.now ∷ []) result told (S.told store.new) (O.taken out.old) (O.taken out.new)) }
    ensures made { IfSome (S.told store.old) (λ told. IsLineObeyed result → S.told store.new ≡ Some (after_changes told (Removes file.now ∷ []))) }
    ensures genuine { IfSome (S.told store.old) (λ told. KeepsGenuine told.files → IfSome (S.told store.new) (λ now. KeepsGenuine now.files)) }
    ensures store { StoreCount (S.faults store.old) (S.faults store.new) result }
    ensures write { OutputCount (O.faults out.old) (O.faults out.new) result }
    ensures answer { IsLineAnswer result }
{
    other_files();
    texts_are_no_objects();
    match store.remove(alloc, file) {
        Ok(()) => print(out, b"ok\n"),
        Err(error) => Answer::from(error),
    }
}

/// Puts the line of an answer out.
fn say_line<O: Sink>(alloc: Global, out: &mut O, answer: &Answer, line: Option<usize>) -> Answer
    ensures output { PutsOut (line_text line answer.now) result (O.taken out.old) (O.taken out.new) }
    ensures write { OutputCount (O.faults out.old) (O.faults out.new) result }
    ensures answer { IsPrintAnswer result }
{
    match line_of(alloc, answer, line) {
        Ok(text) => print(out, text.as_bytes()),
        Err(AllocError) => Answer::NoMemory,
    }
}

/// Puts the line of what is told of a reply out; a fault of the store, and want of memory, are the answer themselves.
fn say_reply<O: Sink>(alloc: Global, out: &mut O, reply: &Reply) -> Answer
    ensures said { SaysReply reply.now.answer reply.now.line result (O.taken out.old) (O.taken out.new) }
    ensures write { OutputCount (O.faults out.old) (O.faults out.new) result }
    ensures answer { IsLineAnswer result }
    ensures store { StoresAlike reply.now.answer result }
{
    match &reply.answer {
        Answer::StoreFault => Answer::StoreFault,
        Answer::NoMemory => Answer::NoMemory,
        answer => say_line(alloc, out, answer, reply.line),
    }
}

/// Puts the line of what is told of a refusal out; a fault of the store, and want of memory, are the answer themselves.
fn say_fault<S: Store, O: Sink>(
    alloc: Global,
    store: &mut S,
    out: &mut O,
    unbuilt: Unbuilt,
) -> Answer
    ensures said { IfSome (S.told store.old) (λ told. SaysFault told.files unbuilt.fault unbuilt.line result (O.taken out.old) (O.taken out.new)) }
    ensures same { Keeps (S.told store.old) (S.told store.new) }
    ensures store { (before : ℕ) → StoreCount before (S.faults store.old) (fault_answer unbuilt.fault) → StoreCount before (S.faults store.new) result }
    ensures write { OutputCount (O.faults out.old) (O.faults out.new) result }
    ensures answer { IsLineAnswer result }
{
    let reply = Reply {
        line: unbuilt.line,
        answer: answer_of(unbuilt.fault),
    };
    say_reply(alloc, out, &tell_source(alloc, store, reply))
}

/// Builds the program, puts out its report or the line of its refusal, and keeps its image.
fn build_program<S: Store, O: Sink>(
    alloc: Global,
    store: &mut S,
    out: &mut O,
    opts: &RunOpts,
    image: &mut Option<Vec<u8>>,
) -> Answer
    requires opts { AreOpts opts.now.build }
    requires image { KeepsImage (image_view image.old) }
    ensures does { IfSome (S.told store.old) (λ told. ObeysLine opts.now (record { told = told; image = image_view image.old }) BuildProgram result (S.told store.new) (O.taken out.old) (O.taken out.new) (image_view image.new)) }
    ensures image { KeepsImage (image_view image.new) }
    ensures some { IfSome (S.told store.old) (λ told. MakesSome (IsRemovedBy BuildProgram) result told (S.told store.new)) }
    ensures genuine { IfSome (S.told store.old) (λ told. KeepsGenuine told.files → IfSome (S.told store.new) (λ now. KeepsGenuine now.files)) }
    ensures store { StoreCount (S.faults store.old) (S.faults store.new) result }
    ensures write { OutputCount (O.faults out.old) (O.faults out.new) result }
    ensures answer { IsLineAnswer result }
{
    answers_are_told_in_one_way();
    files_are_seen_in_one_way();
    match build_uncounted(alloc, store, &opts.build) {
        Ok(report) => {
            let answer = put_report(alloc, &report, out);
            *image = Some(report.image);
            answer
        }
        Err(unbuilt) => say_fault(alloc, store, out, unbuilt),
    }
}

/// Obeys a line. The answer is `Done`, or that something failed or memory ran out.
pub fn obey_line<S: Store, O: Sink>(
    alloc: Global,
    store: &mut S,
    out: &mut O,
    opts: &RunOpts,
    image: &mut Option<Vec<u8>>,
    line: &Line,
) -> Answer
    requires opts { AreOpts opts.now.build }
    requires named { NamesText (line_view line.now) }
    requires image { KeepsImage (image_view image.old) }
    ensures does { IfSome (S.told store.old) (λ told. ObeysLine opts.now (record { told = told; image = image_view image.old }) (line_view line.now) result (S.told store.new) (O.taken out.old) (O.taken out.new) (image_view image.new)) }
    ensures image { KeepsImage (image_view image.new) }
    ensures some { IfSome (S.told store.old) (λ told. MakesSome (IsRemovedBy (line_view line.now)) result told (S.told store.new)) }
    ensures genuine { IfSome (S.told store.old) (λ told. KeepsGenuine told.files → IfSome (S.told store.new) (λ now. KeepsGenuine now.files)) }
    ensures store { StoreCount (S.faults store.old) (S.faults store.new) result }
    ensures write { OutputCount (O.faults out.old) (O.faults out.new) result }
    ensures answer { IsLineAnswer result }
{
    match line {
        Line::Put(file, text) => put_text(alloc, store, out, file.as_str(), text),
        Line::Remove(file) => remove_text(alloc, store, out, file.as_str()),
        Line::Build => build_program(alloc, store, out, opts, image),
        Line::Run(input) => run_image(alloc, out, image.as_deref(), opts.budget, input),
    }
}
