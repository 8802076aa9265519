//! The run of linked modules by the meaning of C.

ghost use Rattle.std.specs.Prelude.{List, map};
ghost use Rattle.pw_cmean.specs.Worlds.{ProgramModule};
ghost use Rattle.pw_interp.specs.Programs.{program_of};
ghost use Rattle.pw_interp_calls.specs.Frames.{frame_among};
ghost use Rattle.pw_store_modules.specs.Views.{source};
ghost use Rattle.pw_top_answer.specs.Outcomes.{InputCount, OutputCount};
ghost use Rattle.pw_build_files.specs.Outcomes.{HoldsImage};
ghost use Rattle.pw_interp_runs.specs.Running.{AreTyped, IsRunAnswer, RunsAs, RunsLinked, UnlessMemory};

use crate::answers::answer_of;
use crate::programs::{Program, program_of};
use pw_build_opts::RunOpts;
use pw_interp::interpret;
use pw_io::{Sink, Source};
use pw_store_modules::Module;
use pw_top_answer::Answer;
use std::alloc::{AllocError, Global};

/// Runs a program by the meaning of C, and answers how the run ended.
fn run_program<I: Source, O: Sink>(
    alloc: Global,
    program: &Program,
    opts: &RunOpts,
    input: &mut I,
    out: &mut O,
) -> Answer
    ensures runs { RunsAs (program_of program.now.modules.items) (frame_among program.now.frames.items) opts.now (I.rest input.old) result (I.rest input.new) (O.taken out.old) (O.taken out.new) }
    ensures answer { IsRunAnswer result }
    ensures read { InputCount (I.faults input.old) (I.faults input.new) result }
    ensures write { OutputCount (O.faults out.old) (O.faults out.new) result }
{
    let ran = interpret(
        alloc,
        &program.modules,
        &program.frames,
        opts.build.stack,
        opts.budget,
        input,
        out,
    );
    answer_of(ran)
}

/// Runs the program of modules that were linked to an image: by the meaning of C, with the frames of the image's
/// functions and the stack of the options, within their bound. The answer is how the run ended; at a fault of the input
/// or the output, or for want of memory, the run is given up.
pub fn run_linked<I: Source, O: Sink>(
    alloc: Global,
    modules: &[Module],
    image: &[u8],
    opts: &RunOpts,
    input: &mut I,
    out: &mut O,
) -> Answer
    requires { HoldsImage image.now }
    ensures runs { RunsLinked (map source modules.now) image.now opts.now (I.rest input.old) result (I.rest input.new) (O.taken out.old) (O.taken out.new) }
    ensures typed { UnlessMemory result ((typed : List ProgramModule) × AreTyped (map source modules.now) typed) }
    ensures answer { IsRunAnswer result }
    ensures read { InputCount (I.faults input.old) (I.faults input.new) result }
    ensures write { OutputCount (O.faults out.old) (O.faults out.new) result }
{
    match program_of(alloc, modules, image) {
        Ok(program) => run_program(alloc, &program, opts, input, out),
        Err(AllocError) => Answer::NoMemory,
    }
}
