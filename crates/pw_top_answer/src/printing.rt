//! Putting a text out.

ghost use Rattle.std.specs.Prelude.{◌≢◌};
ghost use Rattle.pw_top_answer.specs.Outcomes.{IsPrintAnswer, OutputCount, PutsOut};

use crate::answer::Answer;
use pw_io::{Failed, Sink};

/// Puts a text out. The answer is `Done`, or `WriteFault` where the output failed; no memory is taken.
pub fn print<O: Sink>(out: &mut O, text: &[u8]) -> Answer
    ensures output { PutsOut text.now result (O.taken out.old) (O.taken out.new) }
    ensures write { OutputCount (O.faults out.old) (O.faults out.new) result }
    ensures answer { IsPrintAnswer result }
    ensures memory { result ≢ Answer.NoMemory }
{
    match out.put(text) {
        Ok(()) => Answer::Done,
        Err(Failed) => Answer::WriteFault,
    }
}
