// Runs of many steps, over a source and a sink.

ghost use Rattle.std.specs.Prelude.{◌≡◌, IfSome};
ghost use Rattle.pw_machine.specs.Run.{input_word};
ghost use Rattle.pw_machine.specs.Stops.{StepsFit, RunsOver, ReadCount, WriteCount, IsBeforeBreak, end_of};

use crate::ends::{Stop, stop_of};
use crate::execute::step;
use crate::processor::{Outcome, Processor};
use pw_io::{Failed, Sink, Source};
use pw_value::words::END_OF_INPUT;

/// What a run came to, and how many steps it took.
#[derive(Clone, Copy)]
pub(crate) struct Ran {
    pub(crate) stop: Stop,
    pub(crate) steps: u64,
}

/// What a read answers: the byte, or -1 at the end of the input.
fn input_word(byte: Option<u8>) -> u32
    ensures { result ≡ input_word byte }
{
    match byte {
        Some(byte) => byte.into(),
        None => END_OF_INPUT,
    }
}

/// Runs at most `budget` steps.
pub(crate) fn run<I: Source, O: Sink>(
    p: &mut Processor,
    input: &mut I,
    out: &mut O,
    budget: u64,
) -> Ran
    ensures fits { StepsFit result.stop budget result.steps }
    ensures over { RunsOver p.old (I.rest input.old) (O.taken out.old) budget result.stop result.steps p.new (I.rest input.new) (O.taken out.new) }
    ensures end { p.new.stopped ≡ end_of result.stop }
    ensures fault { IsBeforeBreak result.stop p.new }
    ensures stays { IfSome p.old.stopped (λ end. (p.new ≡ p.old) × (result.steps ≡ 0) × (input.new ≡ input.old) × (out.new ≡ out.old)) }
    ensures read { ReadCount (I.faults input.old) (I.faults input.new) result.stop }
    ensures write { WriteCount (O.faults out.old) (O.faults out.new) result.stop }
{
    if let Some(end) = p.stopped() {
        return Ran {
            stop: stop_of(end),
            steps: 0,
        };
    }
    for steps in 0..budget {
        match step(p) {
            Outcome::Goes => {}
            Outcome::Reads => match input.next() {
                Ok(byte) => p.answer(input_word(byte)),
                Err(Failed) => return Ran {
                    stop: Stop::ReadFault,
                    steps,
                },
            },
            Outcome::Writes(byte) => match out.put(&[byte]) {
                Ok(()) => p.answer(byte.into()),
                Err(Failed) => return Ran {
                    stop: Stop::WriteFault,
                    steps,
                },
            },
            Outcome::Stops(end) => {
                p.stop(end);
                return Ran {
                    stop: stop_of(end),
                    steps: steps + 1,
                };
            }
        }
    }
    Ran {
        stop: Stop::Spent,
        steps: budget,
    }
}
