//! The run of an image, as a session and `bench` tell it.

ghost use Rattle.std.specs.Prelude.{◌≡◌, IfOk, option_map};
ghost use Rattle.pw_top_answer.specs.Outcomes.{IsPrintAnswer, OutputCount, PutsOut};
ghost use Rattle.pw_session.specs.Outcomes.{KeepsImage, ObeysRun};
ghost use Rattle.pw_session.specs.Runs.{is_stop, ran_text, runs_as, stop_line, stop_text};

use pw_commands::run_machine;
use pw_io::{Sink, SureSource};
use pw_machine::{Halt, LoadError, Machine};
use pw_top_answer::{Answer, halt_name, print};
use pw_value::Word;
use std::alloc::{AllocError, Global};

/// How a run was halted, and where.
fn halted_text(alloc: Global, halt: Halt, at: Word) -> Result<Vec<u8>, AllocError>
    ensures { IfOk result (λ text. text.items ≡ stop_text (Answer.Halted halt at)) }
{
    let at = format!(in alloc; " {at}")?;
    let mut text = Vec::from_slice(alloc, b"Halted ")?;
    text.extend_from_slice(halt_name(halt))?;
    text.extend_from_slice(at.as_bytes())?;
    Ok(text)
}

/// With which status a run ended.
fn ended_text(alloc: Global, status: u8) -> Result<Vec<u8>, AllocError>
    ensures { IfOk result (λ text. text.items ≡ stop_text (Answer.Ended status)) }
{
    let status = format!(in alloc; "Ended {status}")?;
    Vec::from_slice(alloc, status.as_bytes())
}

/// How a run stopped, by its answer.
pub fn stop_text(alloc: Global, answer: &Answer) -> Result<Vec<u8>, AllocError>
    ensures { IfOk result (λ text. text.items ≡ stop_text answer.now) }
{
    match answer {
        Answer::Ended(status) => ended_text(alloc, *status),
        Answer::StackStop => Vec::from_slice(alloc, b"StackStop"),
        Answer::Spent => Vec::from_slice(alloc, b"Spent"),
        Answer::Halted(halt, at) => halted_text(alloc, *halt, *at),
        _ => Ok(Vec::new(alloc)),
    }
}

/// The line that tells how a run stopped.
fn stop_line(alloc: Global, answer: &Answer) -> Result<Vec<u8>, AllocError>
    ensures { IfOk result (λ text. text.items ≡ stop_line answer.now) }
{
    let stop = stop_text(alloc, answer)?;
    let mut text = Vec::from_slice(alloc, b"[")?;
    text.extend_from_slice(&stop)?;
    text.extend_from_slice(b"]\n")?;
    Ok(text)
}

/// Puts out how a run stopped.
fn say_stop<O: Sink>(alloc: Global, out: &mut O, answer: &Answer) -> Answer
    ensures output { PutsOut (stop_line answer.now) result (O.taken out.old) (O.taken out.new) }
    ensures write { OutputCount (O.faults out.old) (O.faults out.new) result }
    ensures answer { IsPrintAnswer result }
{
    match stop_line(alloc, answer) {
        Ok(text) => print(out, &text),
        Err(AllocError) => Answer::NoMemory,
    }
}

/// Whether it is the answer to the stop of a run, and no fault.
pub fn is_stop(answer: &Answer) -> bool
    ensures { result ≡ is_stop answer.now }
{
    matches!(
        answer,
        Answer::Ended(_) | Answer::StackStop | Answer::Spent | Answer::Halted(_, _)
    )
}

/// Runs a machine over an input, and puts out what it puts out and how it stopped.
fn run_loaded<O: Sink>(
    alloc: Global,
    out: &mut O,
    machine: &mut Machine,
    budget: u64,
    input: &[u8],
) -> Answer
    ensures output { PutsOut (ran_text (runs_as budget input.now machine.old.core)) result (O.taken out.old) (O.taken out.new) }
    ensures write { OutputCount (O.faults out.old) (O.faults out.new) result }
    ensures answer { IsPrintAnswer result }
{
    let Ok(mut source) = SureSource::new(alloc, input) else {
        return Answer::NoMemory;
    };
    let answer = run_machine(machine, &mut source, out, budget);
    if is_stop(&answer) {
        say_stop(alloc, out, &answer)
    } else {
        answer
    }
}

/// Runs the image that was built last over an input, and puts out what comes of it; or that there is none. What was built
/// is the file of an image, so that only want of memory keeps it from being loaded.
pub fn run_image<O: Sink>(
    alloc: Global,
    out: &mut O,
    image: Option<&[u8]>,
    budget: u64,
    input: &[u8],
) -> Answer
    requires { KeepsImage (option_map (λ image. image.now) image) }
    ensures run { ObeysRun (option_map (λ image. image.now) image.entry) budget input.now result (O.taken out.old) (O.taken out.new) }
    ensures write { OutputCount (O.faults out.old) (O.faults out.new) result }
    ensures answer { IsPrintAnswer result }
{
    let Some(image) = image else {
        return print(out, b"no image\n");
    };
    match Machine::load(alloc, image) {
        Ok(mut machine) => run_loaded(alloc, out, &mut machine, budget, input),
        Err(LoadError::NoMemory) => Answer::NoMemory,
        Err(LoadError::LoadFault { .. }) => unreachable!(),
    }
}
