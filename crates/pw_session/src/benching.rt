//! `bench`: builds and runs a made program.

ghost use Rattle.std.specs.Prelude.{◌≡◌, ◌≤◌, ℕ, [], List, Option, IfOk, string_bytes};
ghost use Rattle.pw_top_answer.specs.Outcomes.{Answers, IsPrintAnswer, LeavesStreams, OutputCount, PutsOut};
ghost use Rattle.pw_commands.specs.MachineRun.{run_answer};
ghost use Rattle.pw_build_files.specs.Outcomes.{AreOpts, HoldsImage};
ghost use Rattle.pw_session.specs.Bench.{BenchEffect, IsBenchAnswer, IsBenchLine, ObeysBench, ObeysReport, StopsWithoutInput, bench_prefix, bench_functions, bench_line, bench_modules, made_files};
ghost use Rattle.pw_session.specs.Runs.{runs_as};

use crate::runs::{is_stop, stop_text};
use pw_build_files::{Report, answer_of, build_uncounted};
use pw_build_opts::RunOpts;
use pw_commands::run_machine;
use pw_gen::generate;
use pw_io::{DropSink, Sink, SureSource, SureStore};
use pw_machine::{LoadError, Machine};
use pw_top_answer::{Answer, Reply, print};
use std::alloc::{AllocError, Global};

/// How many modules of the made program stand beside the main.
pub const BENCH_MODULES: u8 = 64;

/// How many functions the made program has: those of the modules, and the main.
pub const BENCH_FUNCTIONS: u32 = BENCH_MODULES as u32 * pw_gen::FUNCTIONS + 1;

/// The counts are those that the definitions speak of.
pub fn counts_of_the_bench()
    ensures modules { BENCH_MODULES ≡ bench_modules }
    ensures functions { BENCH_FUNCTIONS ≡ bench_functions }
{}

/// A store with the files of the program of so many modules that is made from a number.
fn made_store(alloc: Global, number: u32, modules: u8) -> Result<SureStore, AllocError>
    requires { 1 ≤ modules }
    ensures { IfOk result (λ store. store ≡ record { files = made_files number modules; puts = [] }) }
{
    let files = generate(alloc, number, modules)?;
    SureStore::new(alloc, &files)
}

/// Runs a machine over no input, with an output that goes nowhere.
fn run_quietly(alloc: Global, machine: &mut Machine, budget: u64) -> Answer
    ensures { Answers (run_answer (runs_as budget [] machine.old.core)) result }
{
    match SureSource::new(alloc, &[]) {
        Ok(mut source) => run_machine(machine, &mut source, &mut DropSink::new(), budget),
        Err(AllocError) => Answer::NoMemory,
    }
}

/// The answer to the run of an image over no input. The bytes are its file.
fn run_of_image(alloc: Global, image: &[u8], budget: u64) -> Answer
    requires { HoldsImage image.now }
    ensures { StopsWithoutInput image.now budget result }
{
    match Machine::load(alloc, image) {
        Ok(mut machine) => run_quietly(alloc, &mut machine, budget),
        Err(LoadError::NoMemory) => Answer::NoMemory,
        Err(LoadError::LoadFault { .. }) => unreachable!(),
    }
}

/// The front of the line.
fn bench_prefix(
    alloc: Global,
    number: u32,
    modules: u32,
    size: usize,
    digits: &str,
) -> Result<String, AllocError>
    ensures { IfOk result (λ text. string_bytes text ≡ bench_prefix number modules size digits.now) }
{
    format!(in alloc;
        "bench {number} modules {modules} functions {BENCH_FUNCTIONS} image {size} {digits} stop "
    )
}

/// The line of a program that was built and run.
fn bench_line(
    alloc: Global,
    number: u32,
    report: &Report,
    stop: &Answer,
) -> Result<Vec<u8>, AllocError>
    ensures { IfOk result (λ text. text.items ≡ bench_line number report.now.image.items report.now.digest stop.now) }
{
    let modules = u32::from(BENCH_MODULES) + 1;
    let digits = hex::encode(alloc, report.digest.as_slice())?;
    let front = bench_prefix(alloc, number, modules, report.image.len(), digits.as_str())?;
    let stop = stop_text(alloc, stop)?;
    let mut text = Vec::from_slice(alloc, front.as_bytes())?;
    text.extend_from_slice(&stop)?;
    text.extend_from_slice(b"\n")?;
    Ok(text)
}

/// Puts the line of a program out that was built and stopped so.
fn put_line<O: Sink>(
    alloc: Global,
    number: u32,
    report: &Report,
    stop: &Answer,
    out: &mut O,
) -> Answer
    ensures output { PutsOut (bench_line number report.now.image.items report.now.digest stop.now) result (O.taken out.old) (O.taken out.new) }
    ensures write { OutputCount (O.faults out.old) (O.faults out.new) result }
    ensures answer { IsPrintAnswer result }
{
    match bench_line(alloc, number, report, stop) {
        Ok(text) => print(out, &text),
        Err(AllocError) => Answer::NoMemory,
    }
}

/// Runs a program that was built, and puts its line out.
fn run_report<O: Sink>(
    alloc: Global,
    number: u32,
    report: &Report,
    budget: u64,
    out: &mut O,
) -> Answer
    requires { HoldsImage report.now.image.items }
    ensures run { ObeysReport number report.now.image.items report.now.digest budget result (O.taken out.old) (O.taken out.new) }
    ensures write { OutputCount (O.faults out.old) (O.faults out.new) result }
    ensures answer { IsPrintAnswer result }
{
    let stop = run_of_image(alloc, &report.image, budget);
    if is_stop(&stop) {
        put_line(alloc, number, report, &stop, out)
    } else {
        Answer::NoMemory
    }
}

/// Builds the program that is made from a number over a store in memory, runs it over no input, and puts one line out: the
/// number, how many modules and functions there are, the bytes of the image and their digest, and how the run stopped.
///
/// The answer is `Done`; or the refusal of the build, with the line of a refused module.
pub fn bench<O: Sink>(alloc: Global, number: u32, opts: &RunOpts, out: &mut O) -> Reply
    requires { AreOpts opts.now.build }
    ensures obeys { (input : List ℕ) → ObeysBench (BenchEffect number opts.now input) result.answer (O.taken out.old) (O.taken out.new) }
    ensures line { IsBenchLine number result.answer result.line }
    ensures write { OutputCount (O.faults out.old) (O.faults out.new) result.answer }
    ensures streams { (input : Option (List ℕ)) → LeavesStreams result.answer input input (O.taken out.old) (O.taken out.new) }
    ensures answer { IsBenchAnswer result.answer }
{
    let Ok(mut store) = made_store(alloc, number, BENCH_MODULES) else {
        return Reply {
            answer: Answer::NoMemory,
            line: None,
        };
    };
    match build_uncounted(alloc, &mut store, &opts.build) {
        Ok(report) => Reply {
            answer: run_report(alloc, number, &report, opts.budget, out),
            line: None,
        },
        Err(unbuilt) => Reply {
            line: unbuilt.line,
            answer: answer_of(unbuilt.fault),
        },
    }
}
