//! The command `interp`.

ghost use Rattle.std.specs.Prelude.{◌≡◌, ◌≤◌, ◌<◌, IfSome, map};
ghost use Rattle.pw_io.specs.Files.{Files, Keeps};
ghost use Rattle.pw_db.specs.Limits.{colour_limit};
ghost use Rattle.pw_store_modules.specs.Modules.{modules_of};
ghost use Rattle.pw_store_modules.specs.Views.{source};
ghost use Rattle.pw_store_texts.specs.Seen.{IsSeen};
ghost use Rattle.pw_top_answer.specs.Outcomes.{InputCount, IsLineDue, LeavesStreams, OutputCount, StoreCount};
ghost use Rattle.pw_build_files.specs.Outcomes.{AreOpts};
ghost use Rattle.pw_commands_interp.specs.Interpreting.{Did, DidOf, DidPlain, InterpOf, IsInterpAnswer, told_line};

use crate::telling::told_reply;
use pw_build_files::build_laws::modules_have_one_build;
use pw_build_files::{
    answer_of as refusal_of, kept_objects_are_seen, modules_to_build, program_of as link_program,
};
use pw_build_objects::Steps;
use pw_build_opts::RunOpts;
use pw_interp_runs::{run_linked, with_line};
use pw_io::{Sink, Source, Store};
use pw_store_modules::Module;
use pw_store_texts::files_are_seen_in_one_way;
use pw_top_answer::{Answer, Reply};
use std::alloc::Global;
use std::marker::Brand;
use std::sync::ledger::{Blank, Ledger};

/// Links modules, with a ledger that counts the objects that are made, and runs their program.
fn interpret_counted<S: Store, L: Ledger, I: Source, O: Sink>(
    alloc: Global,
    store: &mut S,
    modules: &[Module],
    opts: &RunOpts,
    blank: Blank,
    input: &mut I,
    out: &mut O,
) -> Reply
    requires colours { opts.now.build.colours ≤ colour_limit }
    requires name { blank.name ≡ L.name }
    requires parts { blank.parts ≡ L.parts }
    requires some { 0 < blank.parts }
    ensures did { IfSome (S.told store.old) (λ told. (shown : Files) → IsSeen told.files shown → map source modules.now ≡ modules_of shown → IfSome (I.rest input.old) (λ rest. DidOf (InterpOf shown opts.now rest) rest result.answer (I.rest input.new) (O.taken out.old) (O.taken out.new))) }
    ensures line { IsLineDue (told_line (map source modules.now) result.answer) result.answer result.line }
    ensures same { Keeps (S.told store.old) (S.told store.new) }
    ensures answer { IsInterpAnswer result.answer }
    ensures store { StoreCount (S.faults store.old) (S.faults store.new) result.answer }
    ensures read { InputCount (I.faults input.old) (I.faults input.new) result.answer }
    ensures write { OutputCount (O.faults out.old) (O.faults out.new) result.answer }
    ensures streams { LeavesStreams result.answer (I.rest input.old) (I.rest input.new) (O.taken out.old) (O.taken out.new) }
{
    modules_have_one_build();
    kept_objects_are_seen();
    let mut steps: Steps<L> = Steps::new(blank);
    match link_program(alloc, store, modules, &opts.build, &mut steps) {
        Ok(linked) => {
            let image = linked.files.image.as_slice();
            let answer = run_linked(alloc, modules, image, opts, input, out);
            with_line(alloc, modules, answer)
        }
        Err(unbuilt) => Reply {
            line: unbuilt.line,
            answer: refusal_of(unbuilt.fault),
        },
    }
}

/// The same, over the modules of a store.
fn interpret_seen<S: Store, I: Source, O: Sink>(
    alloc: Global,
    store: &mut S,
    opts: &RunOpts,
    input: &mut I,
    out: &mut O,
) -> Reply
    requires { AreOpts opts.now.build }
    ensures did { IfSome (S.told store.old) (λ told. IfSome (I.rest input.old) (λ rest. DidPlain told.files opts.now rest result.answer (I.rest input.new) (O.taken out.old) (O.taken out.new))) }
    ensures line { IfSome (S.told store.old) (λ told. (shown : Files) → IsSeen told.files shown → IsLineDue (told_line (modules_of shown) result.answer) result.answer result.line) }
    ensures same { Keeps (S.told store.old) (S.told store.new) }
    ensures answer { IsInterpAnswer result.answer }
    ensures store { StoreCount (S.faults store.old) (S.faults store.new) result.answer }
    ensures read { InputCount (I.faults input.old) (I.faults input.new) result.answer }
    ensures write { OutputCount (O.faults out.old) (O.faults out.new) result.answer }
    ensures streams { LeavesStreams result.answer (I.rest input.old) (I.rest input.new) (O.taken out.old) (O.taken out.new) }
{
    modules_have_one_build();
    files_are_seen_in_one_way();
    match modules_to_build(alloc, store) {
        Ok(modules) => interpret_counted::<S, Brand, I, O>(
            alloc,
            store,
            &modules,
            opts,
            Blank::new(1),
            input,
            out,
        ),
        Err(unbuilt) => Reply {
            line: unbuilt.line,
            answer: refusal_of(unbuilt.fault),
        },
    }
}

/// Builds the program of the modules of a store, without putting anything, and runs the modules by the meaning of C within the
/// bound that `opts.budget` is, with the frames of the program's image and the stack of the options. A byte of the input is read
/// when the program reads it, and a byte of the output put when the program writes it.
///
/// The answer is how the run ended: `Ended`, `StackStop`, `Spent` where it did not end within the bound, or `Undefined` at the first
/// operation that has no meaning in C, with the module and the token that met it, and the token's line. `Refused` for the first
/// module that is refused, with the line, and `LinkRefused` where the modules are refused together; then nothing is read or put
/// out. At a fault of the store, the input or the output, or for want of memory, the run is given up: what was put out is a prefix
/// of the program's output, and what was read a prefix of what it reads.
#[tactic(auto, using(crate::proofs::ToldLemmas::line_stored, crate::proofs::ToldLemmas::kind_told, crate::proofs::ToldLemmas::kind_stored, crate::proofs::ToldLemmas::store_told, crate::proofs::ToldLemmas::read_told, crate::proofs::ToldLemmas::read_stored, crate::proofs::ToldLemmas::write_told, crate::proofs::ToldLemmas::write_stored, crate::proofs::ToldLemmas::streams_told, crate::proofs::ToldLemmas::streams_stored, crate::proofs::ToldLemmas::kept_told))]
pub fn interpret_modules<S: Store, I: Source, O: Sink>(
    alloc: Global,
    store: &mut S,
    opts: &RunOpts,
    input: &mut I,
    out: &mut O,
) -> Reply
    requires { AreOpts opts.now.build }
    ensures did { IfSome (S.told store.old) (λ told. IfSome (I.rest input.old) (λ rest. Did told.files opts.now rest result.answer (I.rest input.new) (O.taken out.old) (O.taken out.new))) }
    ensures line { IfSome (S.told store.old) (λ told. (shown : Files) → IsSeen told.files shown → IsLineDue (told_line (modules_of shown) result.answer) result.answer result.line) }
    ensures same { Keeps (S.told store.old) (S.told store.new) }
    ensures answer { IsInterpAnswer result.answer }
    ensures store { StoreCount (S.faults store.old) (S.faults store.new) result.answer }
    ensures read { InputCount (I.faults input.old) (I.faults input.new) result.answer }
    ensures write { OutputCount (O.faults out.old) (O.faults out.new) result.answer }
    ensures streams { LeavesStreams result.answer (I.rest input.old) (I.rest input.new) (O.taken out.old) (O.taken out.new) }
{
    match store.names(alloc) {
        Ok(names) => told_reply(
            alloc,
            &names,
            interpret_seen(alloc, store, opts, input, out),
        ),
        Err(error) => Reply {
            answer: Answer::from(error),
            line: None,
        },
    }
}
