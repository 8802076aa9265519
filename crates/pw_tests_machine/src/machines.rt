// Machines that are made, run and told as texts.

use pw_fields::frame::seal;
use pw_image::KIND;
use pw_io::{Sink, Source, SureSink, SureSource};
use pw_machine::{Machine, Stop};
use pw_rows::Text;
use std::alloc::Global;
use std::process::Abort;

/// Appends numbers of four bytes each.
fn push_numbers(rt: &impl Abort, out: &mut Vec<u8>, numbers: &[u32]) {
    for number in numbers {
        out.extend_from_slice(&number.to_be_bytes())
            .expect(rt, "memory for a file");
    }
}

/// The file of an image that has these words, entered at the first, and no data, functions and globals.
fn image_of(rt: &impl Abort, alloc: Global, words: &[u32]) -> Vec<u8> {
    assert!(rt; !words.is_empty() && words.len() <= 65_536);
    let mut payload = Vec::new(alloc);
    push_numbers(
        rt,
        &mut payload,
        &[4096, 4096, 1_048_576, words.len() as u32],
    );
    push_numbers(rt, &mut payload, words);
    push_numbers(rt, &mut payload, &[0, 0, 0, 0, 0]);
    assert!(rt; payload.len() <= 300_000);
    seal(alloc, KIND, 1, &payload).expect(rt, "a file")
}

/// A machine with these words at its start.
pub(crate) fn machine(rt: &impl Abort, alloc: Global, words: &[u32]) -> Box<Machine> {
    let machine = Machine::load(alloc, &image_of(rt, alloc, words)).expect(
        rt,
        "memory for a machine",
    );
    Box::new(alloc, machine).expect(rt, "memory for a machine")
}

/// What `run` answers, and nothing more that a proof would have to carry.
pub(crate) fn run<I: Source, O: Sink>(
    machine: &mut Machine,
    input: &mut I,
    out: &mut O,
    budget: u64,
) -> Stop {
    machine.run(input, out, budget)
}

/// What the last of 100 calls of `run` answers.
fn run_on(machine: &mut Machine, input: &mut SureSource, out: &mut SureSink, budget: u64) -> Stop {
    let mut stop = Stop::Spent;
    for _call in 0..100 {
        stop = run(machine, input, out, budget);
    }
    stop
}

/// Runs a program in turns of `budget` steps, and then again; adds its stop, its steps and its output.
pub(crate) fn push_run(
    rt: &impl Abort,
    text: &mut Text,
    machine: &mut Machine,
    input: &str,
    budget: u64,
) {
    let mut input = SureSource::new(text.alloc(), input.as_bytes()).expect(rt, "an input");
    let mut out = SureSink::new(text.alloc(), 100).expect(rt, "an output");
    text.debug(&run_on(machine, &mut input, &mut out, budget));
    text.push(b" ");
    text.display(&machine.steps());
    text.push(b" ");
    text.debug(&out.bytes());
}

/// Adds the words at addresses.
pub(crate) fn push_words(text: &mut Text, machine: &Machine, addresses: &[u32]) {
    for address in addresses {
        text.push(b" ");
        text.debug(&machine.word_at(*address));
    }
}

/// Adds some registers, as `5=0000001f`.
pub(crate) fn push_registers(text: &mut Text, machine: &Machine, registers: &[u8]) {
    for r in registers {
        text.push(b" ");
        text.display(r);
        text.push(b"=");
        text.word(machine.reg(*r % 32));
    }
}
