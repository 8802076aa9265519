//! A test of the system's files and streams, tried in a folder of the program's own: what each call answers, line by
//! line.
#![tactic(auto)]

mod failing;

use failing::{Call, Failing, Fault};
use pw_io::{Sink, Source, Store, StoreError};
use pw_io_system::{CurrentFolder, FileStore, StdSink, StdSource};
use std::fs;
use std::io::{self, BufWriter, ErrorKind, Write};
use std::os::unix::fs::symlink;
use std::rt::Files;

/// The files of which the fronts are read, and how many bytes. The system opens `to_mem.i`, and fails to read it. The last two
/// are no names of files of a folder.
const GETS: [(&str, usize); 12] = [
    ("a.i", 100),
    ("a.i", 4),
    ("a.i", 3),
    ("a.i", 0),
    ("gone.i", 9),
    ("folder.i", 9),
    ("to_folder.i", 9),
    ("to_nothing.i", 9),
    ("to_a.i", 2),
    ("to_mem.i", 9),
    ("a.i/x", 9),
    ("./a.i", 9),
];

/// The files that are written. The last is none of the folder's.
const PUTS: [(&str, &str); 5] = [
    ("new", "one"),
    ("new", ""),
    ("new", "three"),
    ("folder.i", "x"),
    ("folder.i/new", "x"),
];

/// The files that are taken out. The last is none of the folder's.
const REMOVALS: [&str; 5] = ["new", "new", "folder.i", "to_a.i", "./a.i"];

/// The calls of the system that fail, one a row, and the fault. A name that is no text is told without a number; number 36
/// is the system's fault of a name that is too long, and is of the same kind.
const FAILING: [(&str, Call, Fault); 11] = [
    (
        "open folder, denied",
        Call::OpenFolder,
        Fault::Of(ErrorKind::PermissionDenied),
    ),
    (
        "open folder, no memory",
        Call::OpenFolder,
        Fault::Of(ErrorKind::OutOfMemory),
    ),
    (
        "read folder, denied",
        Call::ReadFolder,
        Fault::Of(ErrorKind::PermissionDenied),
    ),
    (
        "read folder, no text",
        Call::ReadFolder,
        Fault::Of(ErrorKind::InvalidFilename),
    ),
    (
        "read folder, too long",
        Call::ReadFolder,
        Fault::Numbered(36),
    ),
    (
        "ask, denied",
        Call::AskName,
        Fault::Of(ErrorKind::PermissionDenied),
    ),
    ("ask, gone", Call::AskName, Fault::Of(ErrorKind::NotFound)),
    (
        "open file, denied",
        Call::OpenFile,
        Fault::Of(ErrorKind::PermissionDenied),
    ),
    (
        "open file, no memory",
        Call::OpenFile,
        Fault::Of(ErrorKind::OutOfMemory),
    ),
    (
        "remove, denied",
        Call::RemoveFile,
        Fault::Of(ErrorKind::PermissionDenied),
    ),
    (
        "remove, no memory",
        Call::RemoveFile,
        Fault::Of(ErrorKind::OutOfMemory),
    ),
];

/// A folder and links to it, to nothing, to a file, and to a file of the system that opens and cannot be read.
fn make_folder(rt: &HostRuntime) -> io::Result<()> {
    fs::create_dir(rt, "folder.i")?;
    symlink(rt, "folder.i", "to_folder.i")?;
    symlink(rt, "gone.i", "to_nothing.i")?;
    symlink(rt, "a.i", "to_a.i")?;
    symlink(rt, "/proc/self/mem", "to_mem.i")
}

/// What a read of a file answered.
fn got(file: &Result<Option<Vec<u8>>, StoreError>) -> &str {
    match file {
        Ok(Some(bytes)) => str::from_utf8(bytes.as_slice()).unwrap_or("no text"),
        Ok(None) => "absent",
        Err(StoreError::Failed) => "fault",
        Err(StoreError::NoMemory) => "no memory",
    }
}

/// Whether a call was done.
fn done<T>(answer: &Result<T, StoreError>) -> &'static str {
    match answer {
        Ok(_) => "done",
        Err(StoreError::Failed) => "fault",
        Err(StoreError::NoMemory) => "no memory",
    }
}

fn tell_names<S: Store>(rt: &HostRuntime, store: &mut S) -> io::Result<()> {
    match store.names(rt.alloc()) {
        Ok(names) => {
            for name in &names {
                println!(rt; "{name}")?;
            }
            Ok(())
        }
        Err(_) => println!(rt; "fault"),
    }
}

fn tell_gets<S: Store>(rt: &HostRuntime, store: &mut S) -> io::Result<()> {
    for (name, most) in GETS {
        let file = store.get(rt.alloc(), name, most);
        println!(rt; "get {name} {most}: {}", got(&file))?;
    }
    Ok(())
}

fn tell_puts<S: Store>(rt: &HostRuntime, store: &mut S) -> io::Result<()> {
    for (name, text) in PUTS {
        let change = store.put(rt.alloc(), name, text.as_bytes());
        let file = store.get(rt.alloc(), name, 9);
        println!(rt; "put {name}: {}, {}", done(&change), got(&file))?;
    }
    Ok(())
}

fn tell_removals<S: Store>(rt: &HostRuntime, store: &mut S) -> io::Result<()> {
    for name in REMOVALS {
        let change = store.remove(rt.alloc(), name);
        println!(rt; "remove {name}: {}", done(&change))?;
    }
    Ok(())
}

/// Passes the input on to the output, byte by byte, through both adapters.
fn pass_on(rt: &HostRuntime) -> io::Result<()> {
    let mut input = StdSource::new(rt.stdin());
    let mut out = StdSink::new(BufWriter::new(rt.alloc(), rt.stdout())?);
    for _ in 0..u64::MAX {
        let Ok(Some(byte)) = input.next() else {
            break;
        };
        if out.put(&[byte]).is_err() {
            break;
        }
    }
    let _ = out.flush();
    Ok(())
}

/// A writer that takes every byte and can write none out.
#[derive(Drop)]
struct FullWriter;

impl Write for FullWriter {
    fn write(&mut self, bytes: &[u8]) -> io::Result<usize> {
        Ok(bytes.len())
    }

    fn flush(&mut self) -> io::Result<()> {
        Err(io::Error::from(ErrorKind::StorageFull))
    }
}

/// A flush that fails is told.
fn tell_lost_block(rt: &HostRuntime) -> io::Result<()> {
    let mut out = StdSink::new(BufWriter::new(rt.alloc(), FullWriter)?);
    let taken = out.put(b"lost").is_ok();
    let flushed = out.flush().is_ok();
    println!(rt; "a full writer: taken {taken}, flushed {flushed}")
}

/// Tries all calls of the store of the current folder.
fn tell_all<R: Files + AllocGlobal + Clone + Drop>(rt: &HostRuntime, files: &R) -> io::Result<()> {
    let mut store = FileStore::new(CurrentFolder::new(files));
    tell_names(rt, &mut store)?;
    tell_gets(rt, &mut store)?;
    tell_puts(rt, &mut store)?;
    tell_removals(rt, &mut store)?;
    tell_names(rt, &mut store)
}

/// What each call of the store answers where this call of the system fails.
fn tell_fault(rt: &HostRuntime, title: &str, call: Call, fault: Fault) -> io::Result<()> {
    let files = Failing { rt, call, fault };
    let mut store = FileStore::new(CurrentFolder::new(&files));
    let names = done(&store.names(rt.alloc()));
    let file = store.get(rt.alloc(), "a.i", 3);
    let put = done(&store.put(rt.alloc(), "new", b"x"));
    let removal = done(&store.remove(rt.alloc(), "new"));
    println!(rt;
        "{title}: names {names}, get {}, put {put}, remove {removal}",
        got(&file)
    )
}

/// What each call of the store answers where one call of the system fails.
fn tell_failing(rt: &HostRuntime) -> io::Result<()> {
    for (title, call, fault) in FAILING {
        tell_fault(rt, title, call, fault)?;
    }
    Ok(())
}

fn main(rt: HostRuntime) -> io::Result<()> {
    make_folder(&rt)?;
    tell_all(&rt, &rt)?;
    tell_failing(&rt)?;
    tell_lost_block(&rt)?;
    pass_on(&rt)
}
