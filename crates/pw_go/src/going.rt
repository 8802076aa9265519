//! The command `go`.

ghost use Rattle.std.specs.Prelude.{IfSome};
ghost use Rattle.pw_top_answer.specs.Effects.{Effect};
ghost use Rattle.pw_top_answer.specs.Outcomes.{InputCount, LeavesInput, LeavesStreams, OutputCount, PutsOut, StoreCount};
ghost use Rattle.pw_commands.specs.MachineRun.{IsRunAnswer};
ghost use Rattle.pw_commands.specs.Outcome.{Obeys};
ghost use Rattle.pw_build_files.specs.Driving.{KeepsUnput};
ghost use Rattle.pw_build_files.specs.Genuine.{KeepsGenuine};
ghost use Rattle.pw_build_files.specs.Seen.{IsSeenLine};
ghost use Rattle.pw_build_files.specs.Outcomes.{AreOpts, HoldsImage};
ghost use Rattle.pw_go.specs.Going.{GoEffect, HasBuilt, IsGoAnswer, RunsImage};

use pw_build_files::{answer_of, build_uncounted};
use pw_build_opts::RunOpts;
use pw_commands::run_machine;
use pw_io::laws::other_files;
use pw_io::{Sink, Source, Store};
use pw_machine::{LoadError, Machine};
use pw_top_answer::{Answer, Reply};
use std::alloc::Global;

/// Runs a program that was built for at most `budget` instructions. The bytes are the file of an image, so that only
/// want of memory keeps it from being loaded.
fn run_built<I: Source, O: Sink>(
    alloc: Global,
    image: &[u8],
    budget: u64,
    input: &mut I,
    out: &mut O,
) -> Answer
    requires { HoldsImage image.now }
    ensures run { IfSome (I.rest input.old) (λ rest. RunsImage image.now budget rest result (I.rest input.new) (O.taken out.old) (O.taken out.new)) }
    ensures read { InputCount (I.faults input.old) (I.faults input.new) result }
    ensures write { OutputCount (O.faults out.old) (O.faults out.new) result }
    ensures answer { IsRunAnswer result }
{
    match Machine::load(alloc, image) {
        Ok(mut machine) => run_machine(&mut machine, input, out, budget),
        Err(LoadError::NoMemory) => Answer::NoMemory,
        Err(LoadError::LoadFault { .. }) => unreachable!(),
    }
}

/// Builds the program of the modules of a store and puts what changed, as `build` does; then runs its image for at most
/// so many instructions as the budget has, reading from `input` and writing to `out`.
///
/// The answer is how the run stopped; `Refused` for the first module that is refused, with the line; `LinkRefused` where
/// the modules are refused together. Where the build is refused nothing is put, read or put out. A fault of the input or
/// the output, or want of memory for the run, comes after all files were put.
pub fn go<S: Store, I: Source, O: Sink>(
    alloc: Global,
    store: &mut S,
    opts: &RunOpts,
    input: &mut I,
    out: &mut O,
) -> Reply
    requires { AreOpts opts.now.build }
    ensures obeys { IfSome (S.told store.old) (λ told. IfSome (I.rest input.old) (λ rest. Obeys (GoEffect told.files opts.now rest) result.answer told (S.told store.new))) }
    ensures output { IfSome (S.told store.old) (λ told. IfSome (I.rest input.old) (λ rest. (effect : Effect) → GoEffect told.files opts.now rest effect → PutsOut effect.output result.answer (O.taken out.old) (O.taken out.new))) }
    ensures rest { IfSome (S.told store.old) (λ told. IfSome (I.rest input.old) (λ rest. (effect : Effect) → GoEffect told.files opts.now rest effect → LeavesInput effect.rest rest result.answer (I.rest input.new))) }
    ensures built { IfSome (S.told store.old) (λ told. HasBuilt opts.now.build result.answer told (S.told store.new)) }
    ensures others { IfSome (S.told store.old) (λ told. KeepsUnput result.answer told (S.told store.new)) }
    ensures genuine { IfSome (S.told store.old) (λ told. KeepsGenuine told.files → IfSome (S.told store.new) (λ now. KeepsGenuine now.files)) }
    ensures line { IfSome (S.told store.old) (λ told. IsSeenLine told.files result.answer result.line) }
    ensures answer { IsGoAnswer result.answer }
    ensures store { StoreCount (S.faults store.old) (S.faults store.new) result.answer }
    ensures read { InputCount (I.faults input.old) (I.faults input.new) result.answer }
    ensures write { OutputCount (O.faults out.old) (O.faults out.new) result.answer }
    ensures streams { LeavesStreams result.answer (I.rest input.old) (I.rest input.new) (O.taken out.old) (O.taken out.new) }
{
    other_files();
    match build_uncounted(alloc, store, &opts.build) {
        Ok(report) => Reply {
            answer: run_built(alloc, &report.image, opts.budget, input, out),
            line: None,
        },
        Err(unbuilt) => Reply {
            line: unbuilt.line,
            answer: answer_of(unbuilt.fault),
        },
    }
}
