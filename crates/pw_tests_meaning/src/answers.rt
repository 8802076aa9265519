//! How a program's run ends, in words.

use crate::job::Job;
use pw_cmean::{Undef, undefined_text};
use pw_interp::{CEnd, InterpFault, interpret_parts};
use pw_interp_world::Part;
use pw_io::{Source, SureSink, SureSource};
use pw_rows::Text;
use pw_value::Name;
use std::alloc::AllocError;

/// The room for the output of a run, in bytes.
const OUTPUT_ROOM: usize = 1 << 16;

/// Adds bytes: those that can be printed themselves, others in hexadecimal behind a `\`.
fn push_bytes(text: &mut Text, bytes: &[u8]) {
    for byte in bytes {
        match byte {
            b' '..=b'[' | b']'..=b'~' => text.push(&[*byte]),
            _ => {
                text.push(b"\\");
                text.byte(*byte);
            }
        }
    }
}

/// Adds an undefined operation, with the module and the token of the node that met it.
fn push_undefined(text: &mut Text, operation: Undef, module: &Name, token: usize) {
    text.push(undefined_text(operation).as_bytes());
    text.push(b" at ");
    text.push(module.as_bytes());
    text.push(b" ");
    text.display(&token);
}

/// Adds how a run ended, or why it was given up.
fn push_end(text: &mut Text, end: &Result<CEnd, InterpFault>) {
    match end {
        Ok(CEnd::Undefined(operation, module, token)) => {
            push_undefined(text, *operation, module, *token);
        }
        Ok(CEnd::Stack) => text.push(b"stack full"),
        Ok(CEnd::Ended(status)) => {
            text.push(b"exit ");
            text.display(status);
        }
        Ok(CEnd::Bound) => text.push(b"bound"),
        Err(InterpFault::ReadFault) => text.push(b"read fault"),
        Err(InterpFault::WriteFault) => text.push(b"write fault"),
        Err(InterpFault::NoMemory) => text.push(b"no memory"),
    }
}

/// How many of so many bytes a source has still to give.
fn count_left(input: &mut SureSource, most: usize) -> usize {
    let mut left = 0_usize;
    for _ in 0..most {
        if let Ok(Some(_)) = input.next() {
            left = left.saturating_add(1);
        }
    }
    left
}

/// The input and the output of a run.
#[derive(Drop)]
struct Streams {
    input: SureSource,
    out: SureSink,
}

/// Those of a program's run, with room for its output.
fn streams_of(text: &Text, job: &Job) -> Result<Streams, AllocError> {
    Ok(Streams {
        input: SureSource::new(text.alloc(), &job.input)?,
        out: SureSink::new(text.alloc(), OUTPUT_ROOM)?,
    })
}

/// Adds a run: how it ended, how many bytes it read, and what it wrote.
fn push_answer(text: &mut Text, job: &Job, end: &Result<CEnd, InterpFault>, streams: &mut Streams) {
    let most = job.input.len();
    let left = count_left(&mut streams.input, most);
    push_end(text, end);
    text.push(b", read ");
    text.display(&most.saturating_sub(left));
    text.push(b", wrote ");
    push_bytes(text, streams.out.bytes());
}

/// Adds the run of a program, by its modules.
fn push_run_of(text: &mut Text, job: &Job, parts: &[Part<'_>]) {
    match streams_of(text, job) {
        Ok(mut streams) => {
            let end = interpret_parts(
                text.alloc(),
                parts,
                &job.frames,
                job.stack,
                job.bound,
                &mut streams.input,
                &mut streams.out,
            );
            push_answer(text, job, &end, &mut streams);
        }
        Err(AllocError) => text.cut(),
    }
}

/// The modules of a program, as its run takes them.
fn parts_of<'a>(text: &mut Text, job: &'a Job) -> Vec<Part<'a>> {
    let mut parts = Vec::new(text.alloc());
    for module in &job.modules {
        let part = Part {
            name: &module.name,
            tree: &module.tree,
        };
        if parts.push(part).is_err() {
            text.cut();
        }
    }
    parts
}

/// Adds how a program's run ends, or that a module of it is refused.
pub fn push_run(text: &mut Text, job: &Job) {
    if job.is_refused {
        return text.push(b"refused");
    }
    let parts = parts_of(text, job);
    push_run_of(text, job, &parts);
}
