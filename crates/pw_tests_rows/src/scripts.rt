//! Scripts of sessions: how many lawful lines they begin with, and where none stands.

use pw_io::{MemSource, Source};
use pw_rows::Text;
use pw_session_script::{ScriptFault, next_line};
use std::alloc::{AllocError, Global};

/// More lines than a row has.
const LINES: u32 = 100;

/// What the next line of a script is.
#[derive(Clone, Copy)]
enum Next {
    /// A lawful line of so many bytes.
    Line(u64),
    /// No byte is left.
    End,
    /// No lawful line.
    Bad,
    /// A fault, which no row has.
    Fault,
}

/// The next line of a script.
fn next_of<I: Source>(alloc: Global, source: &mut I) -> Next {
    match next_line(alloc, source) {
        Ok(Some(taken)) => Next::Line(taken.length),
        Ok(None) => Next::End,
        Err(ScriptFault::BadLine) => Next::Bad,
        Err(_) => Next::Fault,
    }
}

/// How many lines are read of a script, and the offset at which none stands.
fn lines_of(alloc: Global, source: &mut MemSource) -> (u32, Option<u64>) {
    let mut offset: u64 = 0;
    for lines in 0..LINES {
        match next_of(alloc, source) {
            Next::Line(length) => offset = offset.saturating_add(length),
            Next::End => return (lines, None),
            Next::Bad => return (lines, Some(offset)),
            Next::Fault => return (LINES, None),
        }
    }
    (LINES, None)
}

/// Adds how many lines are read of a script, and the offset at which none stands.
pub fn push_script(text: &mut Text, script: &[u8]) {
    match MemSource::new(text.alloc(), script, &[]) {
        Ok(mut source) => {
            text.push(b" ");
            text.debug(&lines_of(text.alloc(), &mut source));
        }
        Err(AllocError) => text.cut(),
    }
}
