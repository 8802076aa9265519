//! The command `where`.

ghost use Rattle.std.specs.Prelude.{◌≢◌, ◌<◌, IfSome};
ghost use Rattle.std.specs.List.{AllByRecursion};
ghost use Rattle.pw_debug.specs.Knowing.{IsFrame};
ghost use Rattle.pw_debug_frames.specs.Frames.{AreFrames};
ghost use Rattle.pw_top_answer.specs.Effects.{Effect};
ghost use Rattle.pw_top_answer.specs.Outcomes.{InputCount, LeavesInput, LeavesStreams, OutputCount, PutsOut, StoreCount};
ghost use Rattle.pw_commands.specs.Outcome.{Obeys};
ghost use Rattle.pw_build_objects.specs.Programs.{WasMade};
ghost use Rattle.pw_build_files.specs.Driving.{KeepsUnput};
ghost use Rattle.pw_build_files.specs.Genuine.{KeepsGenuine};
ghost use Rattle.pw_build_files.specs.Outcomes.{AreOpts, HoldsImage};
ghost use Rattle.pw_build_files.specs.Seen.{IsSeenLine};
ghost use Rattle.pw_go.specs.Going.{HasBuilt};
ghost use Rattle.pw_commands_where.specs.Showing.{IsLookAnswer, IsWhereAnswer, WhereEffect};
ghost use Rattle.pw_commands_where.specs.Steps.{LooksAtFile, PutsLook, TellsLook};

use pw_build_files::{answer_of, build_uncounted};
use pw_build_opts::RunOpts;
use pw_commands::answer_of_stop;
use pw_debug::FrameInfo;
use pw_debug_frames::frames;
use pw_debug_frames::laws::objects_have_one_list_of_frames;
use pw_image::laws::images_and_files_are_one_to_one;
use pw_io::laws::other_files;
use pw_io::{Sink, Source, Store};
use pw_machine::{Stop, runs_add_up};
use pw_object::Object;
use pw_top_answer::{Answer, Reply, print};
use pw_where::laws::{
    a_call_shows_one_thing, a_call_shows_something, a_run_comes_or_passes, a_run_has_one_call,
};
use pw_where::{Look, look_at_call};
use std::alloc::{AllocError, Global};

/// What a look comes to, as the answer of the command; lines are put out. The run had no fault of an output, since nothing
/// of its own was put out.
fn told<O: Sink>(look: Look, out: &mut O) -> Answer
    requires { look ≢ Look.StoppedAs Stop.WriteFault }
    ensures tells { TellsLook look result }
    ensures output { PutsLook look result (O.taken out.old) (O.taken out.new) }
    ensures write { OutputCount (O.faults out.old) (O.faults out.new) result }
{
    match look {
        Look::Lines(lines) => print(out, &lines),
        Look::LostAt(address) => Answer::NoFrames(address),
        Look::StoppedAs(stop) => answer_of_stop(stop),
    }
}

/// Shows a call in the run of a program whose functions' frames are known.
fn show_known<I: Source, O: Sink>(
    alloc: Global,
    image: &[u8],
    objects: &[Object],
    known: &[FrameInfo],
    call: u64,
    budget: u64,
    input: &mut I,
    out: &mut O,
) -> Answer
    requires image { HoldsImage image.now }
    requires known { AreFrames objects.now known.now }
    requires lawful { AllByRecursion IsFrame known.now }
    requires first { 0 < call }
    ensures looks { IfSome (I.rest input.old) (λ rest. LooksAtFile image.now objects.now call budget rest result (I.rest input.new) (O.taken out.old) (O.taken out.new)) }
    ensures read { InputCount (I.faults input.old) (I.faults input.new) result }
    ensures write { OutputCount (O.faults out.old) (O.faults out.new) result }
    ensures answer { IsLookAnswer result }
{
    a_call_shows_one_thing();
    a_call_shows_something();
    a_run_comes_or_passes();
    a_run_has_one_call();
    images_and_files_are_one_to_one();
    objects_have_one_list_of_frames();
    runs_add_up();
    match look_at_call(alloc, image, objects, known, call, budget, input) {
        Ok(look) => told(look, out),
        Err(AllocError) => Answer::NoMemory,
    }
}

/// Shows a call in the run of a program that was built.
fn show_built<I: Source, O: Sink>(
    alloc: Global,
    image: &[u8],
    objects: &[Object],
    call: u64,
    budget: u64,
    input: &mut I,
    out: &mut O,
) -> Answer
    requires image { HoldsImage image.now }
    requires objects { AllByRecursion WasMade objects.now }
    requires first { 0 < call }
    ensures looks { IfSome (I.rest input.old) (λ rest. LooksAtFile image.now objects.now call budget rest result (I.rest input.new) (O.taken out.old) (O.taken out.new)) }
    ensures read { InputCount (I.faults input.old) (I.faults input.new) result }
    ensures write { OutputCount (O.faults out.old) (O.faults out.new) result }
    ensures answer { IsLookAnswer result }
{
    match frames(alloc, objects) {
        Ok(known) => show_known(
            alloc,
            image,
            objects,
            known.as_slice(),
            call,
            budget,
            input,
            out,
        ),
        Err(AllocError) => Answer::NoMemory,
    }
}

/// Builds the program of the modules of a store and puts what changed, as `build` does; then runs its image, reading from
/// `input`, up to the call of a number, counted from 1, if that is among the first steps of the run, and puts out what is
/// shown directly before it: a line of the call, and a line for each global that is a number. The program's own output goes
/// nowhere.
///
/// The answer is `Done` where the lines were put out; `NoFrames` where a walk over the frames is lost, and how the run
/// stopped where it stopped before: nothing is put out then. `Refused` for the first module that is refused, with the line;
/// `LinkRefused` where the modules are refused together. Where the build is refused nothing is put, read or put out.
pub fn show_call<S: Store, I: Source, O: Sink>(
    alloc: Global,
    store: &mut S,
    opts: &RunOpts,
    call: u64,
    input: &mut I,
    out: &mut O,
) -> Reply
    requires opts { AreOpts opts.now.build }
    requires first { 0 < call }
    ensures obeys { IfSome (S.told store.old) (λ told. IfSome (I.rest input.old) (λ rest. Obeys (WhereEffect told.files opts.now call rest) result.answer told (S.told store.new))) }
    ensures output { IfSome (S.told store.old) (λ told. IfSome (I.rest input.old) (λ rest. (effect : Effect) → WhereEffect told.files opts.now call rest effect → PutsOut effect.output result.answer (O.taken out.old) (O.taken out.new))) }
    ensures rest { IfSome (S.told store.old) (λ told. IfSome (I.rest input.old) (λ rest. (effect : Effect) → WhereEffect told.files opts.now call rest effect → LeavesInput effect.rest rest result.answer (I.rest input.new))) }
    ensures built { IfSome (S.told store.old) (λ told. HasBuilt opts.now.build result.answer told (S.told store.new)) }
    ensures others { IfSome (S.told store.old) (λ told. KeepsUnput result.answer told (S.told store.new)) }
    ensures genuine { IfSome (S.told store.old) (λ told. KeepsGenuine told.files → IfSome (S.told store.new) (λ now. KeepsGenuine now.files)) }
    ensures line { IfSome (S.told store.old) (λ told. IsSeenLine told.files result.answer result.line) }
    ensures answer { IsWhereAnswer result.answer }
    ensures store { StoreCount (S.faults store.old) (S.faults store.new) result.answer }
    ensures read { InputCount (I.faults input.old) (I.faults input.new) result.answer }
    ensures write { OutputCount (O.faults out.old) (O.faults out.new) result.answer }
    ensures streams { LeavesStreams result.answer (I.rest input.old) (I.rest input.new) (O.taken out.old) (O.taken out.new) }
{
    other_files();
    match build_uncounted(alloc, store, &opts.build) {
        Ok(report) => Reply {
            answer: show_built(
                alloc,
                &report.image,
                &report.objects,
                call,
                opts.budget,
                input,
                out,
            ),
            line: None,
        },
        Err(unbuilt) => Reply {
            line: unbuilt.line,
            answer: answer_of(unbuilt.fault),
        },
    }
}
