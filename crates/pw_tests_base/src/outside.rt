//! Cases of pw_io: the objects in memory through their traits, what each call answers, and what it leaves.

use crate::cases::Case;
use pw_io::{
    DropSink, Left, MemSink, MemSource, MemStore, Sink, Source, Store, StoreFail, SureSink,
    SureSource, SureStore,
};
use pw_rows::Text;
use std::alloc::Global;
use std::process::Abort;

/// What is asked of the outside.
pub(crate) enum OutsideCase {
    /// What a sure source of `ab` answers, and one with faults at its calls 2 and 5.
    SureSource,
    /// What a source of `ab` answers that has faults at its calls 2 and 5.
    FailingSource,
    /// Of each of `PIECES` whether a sure sink with room for three bytes takes it, whether one that drops all does, and
    /// whether one with room for four does whose calls 2 and 3 have faults; then what the first and the last keep.
    Sinks,
    /// What a store of `FILES` answers that fails at `CALLS`: of each of `PUTS` to `b` the answer and the file then;
    /// whether the names, a get and a remove are refused, and whether nothing is put; the answer of a put of `new` to
    /// `b`; what it serves; and the names that were put.
    FailingStore,
    /// The file `b` of a sure store of `FILES`, what it serves, and the names that were put.
    SureStore,
}

/// Cases and their answers.
pub(crate) static CASES: [(OutsideCase, &str); 5] = [
    (
        OutsideCase::SureSource,
        "Ok(Some(97)) Ok(Some(98)) Ok(None) Ok(None) ",
    ),
    (
        OutsideCase::FailingSource,
        "Ok(Some(97)) Err(Failed) Ok(Some(98)) Ok(None) Err(Failed) Ok(None) ",
    ),
    (
        OutsideCase::Sinks,
        "\
[true, true, true] ab ab
[true, true, false] ab ab
[true, true, true] ab ab
[true, true, true] abc abc
[true, true, false] abc abc
[true, true, true] abc abcd
[true, true, true] abc abcd
",
    ),
    (
        OutsideCase::FailingStore,
        "\
Err(Failed) None
Err(Failed) Some([120, 121])
Err(Failed) Some([112])
Err(Failed) Some([112])
Err(Failed) Some([112])
Err(Failed) None
[true, true, true, true]
Ok(())
[Ok(()), Ok(()), Ok(()), Ok(())]
Ok(Some([110, 101])) Ok(Some([])) Ok(None) Ok([\"B\", \"b\", \"c\"])
[\"b\", \"c\", \"B\"]",
    ),
    (
        OutsideCase::SureStore,
        "\
Some([110, 101, 119])
[Ok(()), Ok(()), Ok(()), Ok(())]
Ok(Some([110, 101])) Ok(Some([])) Ok(None) Ok([\"B\", \"b\", \"c\"])
[\"c\", \"B\"]",
    ),
];

impl Case for OutsideCase {
    fn answer<R: Abort>(&self, rt: &R, text: &mut Text) {
        let alloc = text.alloc();
        match self {
            OutsideCase::SureSource => {
                push_taken(
                    text,
                    SureSource::new(alloc, b"ab").expect(rt, "a source"),
                    4,
                )
            }
            OutsideCase::FailingSource => {
                push_taken(
                    text,
                    MemSource::new(alloc, b"ab", &[2, 5]).expect(rt, "a source"),
                    6,
                )
            }
            OutsideCase::Sinks => push_given(rt, text),
            OutsideCase::FailingStore => push_failing(rt, text),
            OutsideCase::SureStore => push_sure(rt, text),
        }
    }
}

/// Adds what so many calls of a source answer.
fn push_taken<I: Source + Drop>(text: &mut Text, mut input: I, calls: u32) {
    for _call in 0..calls {
        text.debug(&input.next());
        text.push(b" ");
    }
}

static PIECES: [&str; 7] = ["ab", "cd", "", "c", "de", "d", ""];

/// Whether a sink takes a piece.
fn is_given<O: Sink>(out: &mut O, piece: &[u8]) -> bool {
    out.put(piece).is_ok()
}

/// Adds which sinks take a piece, and what two of them keep.
fn push_piece(text: &mut Text, sure: &mut SureSink, full: &mut MemSink, piece: &[u8]) {
    text.debug(&[
        is_given(sure, piece),
        is_given(&mut DropSink::new(), piece),
        is_given(full, piece),
    ]);
    text.push(b" ");
    text.push(sure.bytes());
    text.push(b" ");
    text.push(full.bytes());
    text.push(b"\n");
}

/// Adds which sinks take each of the pieces, and what they keep.
fn push_given(rt: &impl Abort, text: &mut Text) {
    let mut sure = SureSink::new(text.alloc(), 3).expect(rt, "a sink");
    let mut full = MemSink::new(text.alloc(), 4, &[2, 3]).expect(rt, "a sink");
    for piece in PIECES.iter() {
        push_piece(text, &mut sure, &mut full, piece.as_bytes());
    }
}

/// Adds what a store answers to four changes.
fn push_changes<S: Store>(text: &mut Text, store: &mut S) {
    let alloc = text.alloc();
    text.debug(&[
        store.put(alloc, "c", b"xyz"),
        store.remove(alloc, "none"),
        store.remove(alloc, "a"),
        store.put(alloc, "B", b""),
    ]);
    text.push(b"\n");
}

/// Adds the first two bytes of a file.
fn push_file<S: Store>(text: &mut Text, store: &mut S, name: &str) {
    text.debug(&store.get(text.alloc(), name, 2));
    text.push(b" ");
}

/// Adds what a store serves that holds "1" as `a` and "new" as `b`.
fn push_served<S: Store>(text: &mut Text, store: &mut S) {
    push_changes(text, store);
    push_file(text, store, "b");
    push_file(text, store, "B");
    push_file(text, store, "a");
    text.debug(&store.names(text.alloc()));
    text.push(b"\n");
}

/// Names and files; the second `b` stands.
static FILES: [(&str, &[u8]); 3] = [("b", b"old"), ("a", b"1"), ("b", b"new")];

fn files(rt: &impl Abort, alloc: Global) -> Vec<(String, Vec<u8>)> {
    let mut files = Vec::new(alloc);
    for (name, bytes) in FILES.iter() {
        let name = String::from_str(alloc, *name).expect(rt, "memory for a name");
        let bytes = bytes.to_vec(alloc).expect(rt, "memory for a file");
        files.push((name, bytes)).expect(rt, "memory for files");
    }
    files
}

static CALLS: [StoreFail; 10] = [
    StoreFail {
        call: 1,
        leaves: Left::Old,
    },
    StoreFail {
        call: 2,
        leaves: Left::Prefix(9),
    },
    StoreFail {
        call: 3,
        leaves: Left::Prefix(1),
    },
    StoreFail {
        call: 4,
        leaves: Left::Prefix(3),
    },
    StoreFail {
        call: 5,
        leaves: Left::Old,
    },
    StoreFail {
        call: 6,
        leaves: Left::Nothing,
    },
    StoreFail {
        call: 7,
        leaves: Left::Nothing,
    },
    StoreFail {
        call: 8,
        leaves: Left::Nothing,
    },
    StoreFail {
        call: 9,
        leaves: Left::Nothing,
    },
    StoreFail {
        call: 1,
        leaves: Left::Nothing,
    },
];

static PUTS: [&str; 6] = ["xyz", "xyz", "pq", "", "z", "z"];

/// Adds what puts of `b` answer and leave.
fn push_puts(text: &mut Text, store: &mut MemStore) {
    for bytes in PUTS.iter() {
        text.debug(&store.put(text.alloc(), "b", bytes.as_bytes()));
        text.push(b" ");
        text.debug(&store.bytes_of("b"));
        text.push(b"\n");
    }
}

/// Whether the other calls are refused, and whether nothing is put.
fn refusals(alloc: Global, store: &mut MemStore) -> [bool; 4] {
    [
        store.names(alloc).is_err(),
        store.get(alloc, "a", 2).is_err(),
        store.remove(alloc, "a").is_err(),
        store.puts().is_empty(),
    ]
}

/// Adds what the store answers that fails.
fn push_answers(text: &mut Text, store: &mut MemStore) {
    push_puts(text, store);
    text.debug(&refusals(text.alloc(), store));
    text.push(b"\n");
    text.debug(&store.put(text.alloc(), "b", b"new"));
    text.push(b"\n");
    push_served(text, store);
    text.debug(&store.puts());
}

/// Adds what a store answers that fails.
fn push_failing(rt: &impl Abort, text: &mut Text) {
    let files = files(rt, text.alloc());
    let mut store = MemStore::new(text.alloc(), &files, &CALLS).expect(rt, "a store");
    push_answers(text, &mut store);
}

/// Adds what a store answers that does not fail.
fn push_sure(rt: &impl Abort, text: &mut Text) {
    let files = files(rt, text.alloc());
    let mut store = SureStore::new(text.alloc(), &files).expect(rt, "a store");
    text.debug(&store.bytes_of("b"));
    text.push(b"\n");
    push_served(text, &mut store);
    text.debug(&store.puts());
}
