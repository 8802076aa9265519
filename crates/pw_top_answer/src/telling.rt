//! Telling an answer.

ghost use Rattle.pw_top_answer.specs.Answers.{line_text};
ghost use Rattle.pw_top_answer.specs.Outcomes.{Tells, ToldAs};

use crate::answer::Answer;
use crate::line::line_of;
use pw_io::Sink;
use std::alloc::{AllocError, Global};

/// Puts a line, as far as the sink takes it.
fn put_line<E: Sink>(err: &mut E, line: &[u8])
    ensures { Tells line.now (E.taken err.old) (E.taken err.new) (E.faults err.old) (E.faults err.new) }
{
    let _ = err.put(line);
}

/// Tells an answer in its line; where a module is refused, it is on line `line` of its text, where that is known. Where there
/// is no memory for the line, the answer is that. A fault of `err` changes nothing.
pub fn tell<E: Sink>(alloc: Global, answer: Answer, line: Option<usize>, err: &mut E) -> Answer
    ensures answer { ToldAs answer result }
    ensures line { Tells (line_text line result) (E.taken err.old) (E.taken err.new) (E.faults err.old) (E.faults err.new) }
{
    match line_of(alloc, &answer, line) {
        Ok(line) => put_line(err, line.as_bytes()),
        Err(AllocError) => {
            put_line(err, b"NoMemory\n");
            return Answer::NoMemory;
        }
    }
    answer
}
