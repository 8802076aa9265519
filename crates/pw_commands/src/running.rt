//! The command `run`.

ghost use Rattle.std.specs.Prelude.{IfErr, IfSome};
ghost use Rattle.pw_io.specs.Files.{Keeps};
ghost use Rattle.pw_top_answer.specs.Outcomes.{Answers, InputCount, LeavesInput, LeavesStreams, OutputCount, PutsOut, StoreCount};
ghost use Rattle.pw_commands.specs.Needed.{Needs};
ghost use Rattle.pw_commands.specs.Outcome.{IsFileStop, StopCount};
ghost use Rattle.pw_commands.specs.Running.{IsRunOrStop, core_in, run_effect};

use crate::machine_run::run_machine;
use crate::needed::{bad_file, read_needed};
use pw_image::LoadError;
use pw_io::{Sink, Source, Store};
use pw_machine::Machine;
use pw_store_modules::IMAGE_NAME;
use pw_top_answer::Answer;
use std::alloc::Global;

/// The machine at the start of the program that stands in `prog.img`.
fn needed_machine<S: Store>(alloc: Global, store: &mut S) -> Result<Machine, Answer>
    ensures machine { IfSome (S.told store.old) (λ told. Needs (λ machine. machine.core) result (core_in told.files)) }
    ensures same { Keeps (S.told store.old) (S.told store.new) }
    ensures count { StopCount (S.faults store.old) (S.faults store.new) result }
    ensures stop { IfErr result IsFileStop }
{
    let bytes = read_needed(alloc, store, IMAGE_NAME)?;
    match Machine::load(alloc, &bytes) {
        Ok(machine) => Ok(machine),
        Err(LoadError::LoadFault { at }) => Err(bad_file(alloc, IMAGE_NAME, Some(at))),
        Err(LoadError::NoMemory) => Err(Answer::NoMemory),
    }
}

/// Runs `prog.img` for at most `budget` instructions, reading from `input` and writing to `out`.
///
/// The answer is how the run stopped; or `BadFile` where `prog.img` is absent or refused, and then the input and the
/// output are not touched. The store stays as it is.
pub fn run_image<S: Store, I: Source, O: Sink>(
    alloc: Global,
    store: &mut S,
    input: &mut I,
    out: &mut O,
    budget: u64,
) -> Answer
    ensures answer { IfSome (S.told store.old) (λ told. IfSome (I.rest input.old) (λ rest. Answers (run_effect told.files budget rest).answer result)) }
    ensures output { IfSome (S.told store.old) (λ told. IfSome (I.rest input.old) (λ rest. PutsOut (run_effect told.files budget rest).output result (O.taken out.old) (O.taken out.new))) }
    ensures rest { IfSome (S.told store.old) (λ told. IfSome (I.rest input.old) (λ rest. LeavesInput (run_effect told.files budget rest).rest rest result (I.rest input.new))) }
    ensures same { Keeps (S.told store.old) (S.told store.new) }
    ensures count { StoreCount (S.faults store.old) (S.faults store.new) result }
    ensures read { InputCount (I.faults input.old) (I.faults input.new) result }
    ensures write { OutputCount (O.faults out.old) (O.faults out.new) result }
    ensures streams { LeavesStreams result (I.rest input.old) (I.rest input.new) (O.taken out.old) (O.taken out.new) }
    ensures run { IsRunOrStop result }
{
    match needed_machine(alloc, store) {
        Ok(mut machine) => run_machine(&mut machine, input, out, budget),
        Err(answer) => answer,
    }
}
