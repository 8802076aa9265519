//! A test of the whole program, and of the texts that its parts read and write: worked examples as rows, and what is
//! told of each. `pw_tests_rows` says what each row does; commands are obeyed by the top call.
#![tactic(auto)]

use pw_io::{MemSink, MemSource, MemStore, Sink, Source, Store};
use pw_rows::answer_rows;
use pw_tests_rows::{Rows, Top};
use pw_top::{pawc_top, status};
use std::alloc::Global;
use std::io;
use std::mem::ManuallyDrop;

/// The status of words: nothing of the top call's contract is kept but that it is met. The answer's memory goes back with the
/// program's.
fn status_of<S: Store, I: Source, O: Sink, E: Sink>(
    alloc: Global,
    words: &[String],
    store: &mut S,
    input: &mut I,
    out: &mut O,
    err: &mut E,
) -> u8 {
    let answer = pawc_top(alloc, words, store, input, out, err);
    status(&ManuallyDrop::new(answer))
}

/// The top call.
#[derive(Clone, Copy)]
struct Pawc;

impl Top for Pawc {
    fn status_of(
        &self,
        alloc: Global,
        words: &[String],
        store: &mut MemStore,
        input: &mut MemSource,
        out: &mut MemSink,
        err: &mut MemSink,
    ) -> u8 {
        status_of(alloc, words, store, input, out, err)
    }
}

fn main(rt: HostRuntime) -> io::Result<()> {
    let mut rows = Rows::new(rt.alloc(), Pawc)?;
    answer_rows(rt.alloc(), rt.reader(), &mut rt.stdout(), &mut rows)
}
