//! A folder of files, whose calls answer with the library's errors.

ghost use Rattle.std.specs.Prelude.{◌≡◌, ◌≢◌, ◌↔◌, ◌⊎◌, ◌++◌, ◌∷◌, [], Option, Result, None, Some, Ok, Err, IfOk, IfErr, IfSome, IsErrAnd, IsOk, IsOkAnd, IsTrue, OnOk, OnErr, false, map, take, true, string_bytes, string_cmp};
ghost use Rattle.std.specs.Fn.{FnOnceReturnsAt, FnReturnsAt};
ghost use Rattle.std.specs.Fs.{IsDir, file_type};
ghost use Rattle.std.specs.Iterator.{IsFinite};
ghost use Rattle.std.specs.List.Sorted.{IsSorted};
ghost use Rattle.std.specs.declared.fs.attrs.Metadata.{Metadata};
ghost use Rattle.std.specs.declared.io.Error.{Error};
ghost use Rattle.std.specs.IoError.{error_kind};
ghost use Rattle.std.specs.declared.io.ErrorKind.{ErrorKind};
ghost use Rattle.pw_io.specs.Files.{Told, Keeps, ListsNames, Puts, PutsPart, Removes};
ghost use Rattle.pw_io_system.specs.Entries.{FailsAt, FailsInList, FindsFiles, HasNoText, ListsFiles, PutsEntry, PutsName};
ghost use Rattle.pw_io_system.specs.Faults.{TellsKind};
ghost use Rattle.pw_io_system.specs.Folders.{IsAbsent, Opens, OpensAs, can_be_file, holds};

use std::alloc::Global;
use std::fs;
use std::fs::{DirEntry, Metadata, OpenFile};
use std::io::{self, ErrorKind, Read};
use std::rt::Files;

/// Files by name. A folder that tells what it holds goes on telling it after every call.
pub trait Folder {
    /// An open file, from which its bytes are read.
    type File: Read + Drop;

    /// The files and the names written so far, or `None` where the folder does not tell them.
    ghost told: { Self → Option Told };

    /// The kind of the fault that the last call answered, or `None` where it answered none.
    ghost last_fault: { Self → Option ErrorKind };

    /// The names of all files, in byte order.
    fn names(&mut self, alloc: Global) -> io::Result<Vec<String>>
        ensures names { IfOk result (λ names. ListsNames (told self.old) names.items) }
        ensures sorted { IfOk result (λ names. IsSorted string_cmp names.items) }
        ensures same { Keeps (told self.old) (told self.new) }
        ensures kind { TellsKind result (last_fault self.new) };

    /// Opens a file. The kind of an error is not found only where no file has the name.
    fn open(&mut self, name: &str) -> io::Result<Self::File>
        ensures file { IfOk result (λ file. Opens (told self.old) name.now (Self.File.Read.remaining file)) }
        ensures absent { IfErr result (λ e. error_kind e ≡ ErrorKind.NotFound → IsAbsent (told self.old) name.now) }
        ensures same { Keeps (told self.old) (told self.new) }
        ensures kind { TellsKind result (last_fault self.new) };

    /// The first `most` bytes of a file that was opened. The kind of an error is never not found, since the file was there.
    fn front(&mut self, alloc: Global, file: Self::File, most: usize) -> io::Result<Vec<u8>>
        ensures bytes { IfOk result (λ bytes. IfSome (Self.File.Read.remaining file) (λ rest. bytes.items ≡ take most rest)) }
        ensures found { IfErr result (λ e. error_kind e ≢ ErrorKind.NotFound) }
        ensures same { Keeps (told self.old) (told self.new) }
        ensures kind { TellsKind result (last_fault self.new) };

    /// Gives the file of that name these bytes. After an error it is as before, absent, or a proper prefix of them.
    fn write(&mut self, name: &str, bytes: &[u8]) -> io::Result<()>
        ensures ok { OnOk result (Puts (told self.old) (told self.new) name.now bytes.now) }
        ensures failed { OnErr result (PutsPart (told self.old) (told self.new) name.now bytes.now) }
        ensures kind { TellsKind result (last_fault self.new) };

    /// Takes the file of that name out. An error leaves the files as they were.
    fn remove(&mut self, name: &str) -> io::Result<()>
        ensures ok { OnOk result (Removes (told self.old) (told self.new) name.now) }
        ensures absent { IfErr result (λ e. error_kind e ≡ ErrorKind.NotFound → Removes (told self.old) (told self.new) name.now) }
        ensures failed { OnErr result (Keeps (told self.old) (told self.new)) }
        ensures kind { TellsKind result (last_fault self.new) };
}

/// The kind of a fault, or `None` where there is none.
fn kind_of<T>(answer: &io::Result<T>) -> Option<ErrorKind>
    ensures { TellsKind answer.now result }
{
    match answer {
        Ok(_) => None,
        Err(fault) => Some(fault.kind()),
    }
}

/// The current folder of the system, which tells no files. A name that holds a `/` or a zero byte is no file of it: to open, write
/// or remove one is a fault.
#[derive(Drop)]
pub struct CurrentFolder<'a, R> {
    rt: &'a R,
    last_fault: Option<ErrorKind>,
}

impl<'a, R> CurrentFolder<'a, R> {
    /// The folder in which the program runs. No call of it has failed so far.
    pub fn new(rt: &'a R) -> Self
        ensures { result.last_fault ≡ None }
    {
        CurrentFolder {
            rt,
            last_fault: None,
        }
    }

    /// Answers so, and keeps the kind of a fault.
    fn noted<T>(&mut self, answer: io::Result<T>) -> io::Result<T>
        ensures same { result ≡ answer }
        ensures kind { TellsKind result self.new.last_fault }
    {
        self.last_fault = kind_of(&answer);
        answer
    }
}

/// Whether the bytes hold one byte.
fn holds(bytes: &[u8], byte: u8) -> bool
    ensures { result ≡ holds bytes.now byte }
{
    bytes.iter().any(|other| *other == byte)
}

/// Whether a name can be that of a file of a folder: it holds neither a `/` nor a zero byte.
fn can_be_file(name: &str) -> bool
    ensures { result ≡ can_be_file name.now }
{
    let bytes = name.as_bytes();
    !holds(bytes, b'/') && !holds(bytes, 0)
}

/// A name that can be that of a file of a folder. Of any other the system is not asked: it is a fault, and none that says that
/// a file is not found.
fn file_name(name: &str) -> io::Result<&str>
    ensures same { IfOk result (λ own. own.now ≡ name.now) }
    ensures decides { IsOk result ↔ (can_be_file name.now ≡ true) }
    ensures fault { IfErr result (λ e. error_kind e ≡ ErrorKind.InvalidInput) }
{
    if can_be_file(name) {
        return Ok(name);
    }
    Err(io::Error::from(ErrorKind::InvalidInput))
}

/// Whether what the system tells of a name is that it is a file's, or that of a link to one. A folder, a link to one and a
/// link to nothing are no files.
fn is_file(told: io::Result<Metadata>) -> io::Result<bool>
    ensures file { IfOk told (λ metadata. IsOkAnd result (λ is. IsTrue is ↔ ¬ (IsDir (file_type metadata)))) }
    ensures none { IfErr told (λ e. error_kind e ≡ ErrorKind.NotFound → result ≡ Ok false) }
    ensures fault { IfErr told (λ e. error_kind e ≢ ErrorKind.NotFound → result ≡ Err e) }
{
    match told {
        Ok(metadata) => Ok(!metadata.is_dir()),
        Err(fault) if fault.kind() == ErrorKind::NotFound => Ok(false),
        Err(fault) => Err(fault),
    }
}

/// Whether this is the fault of an entry whose name is no text, and none of the system's own, which have a number.
fn is_no_text(fault: &io::Error) -> bool
    ensures { IsTrue result ↔ HasNoText fault.now }
{
    fault.kind() == ErrorKind::InvalidFilename && fault.raw_os_error().is_none()
}

/// An entry of a folder, or `None` where its name is no text.
fn with_text<E: Drop>(entry: io::Result<E>) -> io::Result<Option<E>>
    ensures text { IfOk entry (λ found. result ≡ Ok (Some found)) }
    ensures none { IfErr entry (λ e. HasNoText e → result ≡ Ok None) }
    ensures other { IfErr entry (λ e. ¬ (HasNoText e) → result ≡ Err e) }
{
    match entry {
        Ok(entry) => Ok(Some(entry)),
        Err(fault) if is_no_text(&fault) => Ok(None),
        Err(fault) => Err(fault),
    }
}

/// Puts a name behind others, where it is a file's.
fn push_name(alloc: Global, names: &mut Vec<String>, name: &str, is_file: bool) -> io::Result<()>
    ensures file { is_file ≡ true → OnOk result (map string_bytes names.new.items ≡ map string_bytes names.old.items ++ name.now ∷ []) }
    ensures same { is_file ≡ false → names.new ≡ names.old }
    ensures done { is_file ≡ false → IsOk result }
    ensures memory { IfErr result (λ e. error_kind e ≡ ErrorKind.OutOfMemory) }
{
    if is_file {
        names.push(String::from_str(alloc, name)?)?;
    }
    Ok(())
}

/// Puts a name behind others, where what is told of it says that it is a file's.
fn push_told(
    alloc: Global,
    names: &mut Vec<String>,
    name: &str,
    told: io::Result<Metadata>,
) -> io::Result<()>
    ensures puts { OnOk result (PutsName names.old.items name.now told names.new.items) }
    ensures fault { IfErr result (λ e. (error_kind e ≡ ErrorKind.OutOfMemory) ⊎ ((told ≡ Err e) × (error_kind e ≢ ErrorKind.NotFound))) }
{
    let is_file = is_file(told)?;
    push_name(alloc, names, name, is_file)
}

/// Puts the name of an entry behind others, where it is a text and, by what `ask` tells of it, that of a file.
fn push_entry<R: Files + AllocGlobal + Clone + Drop, F: Fn(&str) -> io::Result<Metadata>>(
    alloc: Global,
    names: &mut Vec<String>,
    entry: io::Result<DirEntry<R, R::A>>,
    ask: &F,
) -> io::Result<()>
    requires { F.IsAlwaysCallable ask.now }
    ensures puts { OnOk result (PutsEntry (FnReturnsAt F.Fn ask.now) names.old.items entry names.new.items) }
    ensures fault { IfErr result (λ e. FailsAt (FnReturnsAt F.Fn ask.now) entry e) }
{
    let Some(entry) = with_text(entry)? else {
        return Ok(());
    };
    let told = ask(entry.file_name());
    push_told(alloc, names, entry.file_name(), told)
}

/// The names of the files among the entries of a folder, in the order of the entries, by what `ask` tells of each name. The
/// first fault is the answer.
fn files_among<R, I, F>(alloc: Global, entries: I, ask: F) -> io::Result<Vec<String>>
where
    R: Files + AllocGlobal + Clone + Drop,
    I: Iterator<Item = io::Result<DirEntry<R, R::A>>>,
    F: Fn(&str) -> io::Result<Metadata> + Drop,
    requires can { I.can_next entries }
    requires ends { IsFinite (I.remaining entries) }
    requires asks { F.IsAlwaysCallable ask }
    ensures names { IfOk result (λ names. FindsFiles I.next_gives (FnReturnsAt F.Fn ask) entries names.items) }
    ensures fault { IfErr result (λ e. FailsInList I.next_gives (FnReturnsAt F.Fn ask) entries e) }
{
    let mut names = Vec::new(alloc);
    for entry in entries {
        push_entry(alloc, &mut names, entry, &ask)?;
    }
    Ok(names)
}

/// The names of the files among the entries of a folder, in byte order, by what is told of the folder and what `ask` tells of
/// each name. The first fault is the answer.
fn file_names<R, I, F>(alloc: Global, told: io::Result<I>, ask: F) -> io::Result<Vec<String>>
where
    R: Files + AllocGlobal + Clone + Drop,
    I: Iterator<Item = io::Result<DirEntry<R, R::A>>>,
    F: Fn(&str) -> io::Result<Metadata> + Drop,
    requires can { IfOk told (λ entries. I.can_next entries) }
    requires ends { IfOk told (λ entries. IsFinite (I.remaining entries)) }
    requires asks { F.IsAlwaysCallable ask }
    ensures folder { IfErr told (λ e. result ≡ Err e) }
    ensures names { IfOk told (λ entries. IfOk result (λ names. ListsFiles I.next_gives (FnReturnsAt F.Fn ask) entries names.items)) }
    ensures sorted { IfOk result (λ names. IsSorted string_cmp names.items) }
    ensures fault { IfOk told (λ entries. IfErr result (λ e. FailsInList I.next_gives (FnReturnsAt F.Fn ask) entries e)) }
{
    let mut names = files_among(alloc, told?, ask)?;
    names.sort()?;
    Ok(names)
}

/// What a fault of an opened file comes to. The file was there: one that says otherwise is answered as another.
fn read_fault(fault: io::Error) -> io::Error
    ensures found { error_kind result ≢ ErrorKind.NotFound }
    ensures gone { error_kind fault ≡ ErrorKind.NotFound → error_kind result ≡ ErrorKind.Other }
    ensures other { error_kind fault ≢ ErrorKind.NotFound → result ≡ fault }
{
    if fault.kind() == ErrorKind::NotFound {
        return io::Error::from(ErrorKind::Other);
    }
    fault
}

/// The file that was opened, by what is told of it: a folder is not found. A file that was there is never told as one that
/// is not.
fn unless_folder<T: Drop>(file: T, told: io::Result<Metadata>) -> io::Result<T>
    ensures { OpensAs file told result }
{
    match told {
        Ok(metadata) if metadata.is_dir() => Err(io::Error::from(ErrorKind::NotFound)),
        Ok(_) => Ok(file),
        Err(fault) => Err(read_fault(fault)),
    }
}

/// The file that was opened, which is no folder by what `ask` tells of it. A fault of either is the answer.
fn opened_file<T: Drop, F: FnOnce(&T) -> io::Result<Metadata>>(
    opened: io::Result<T>,
    ask: F,
) -> io::Result<T>
    requires { F.IsAlwaysCallable ask }
    ensures file { IfOk opened (λ file. (told : Result Metadata Error) × FnOnceReturnsAt F.FnOnce ask file told × OpensAs file told result) }
    ensures fault { IfErr opened (λ e. result ≡ Err e) }
{
    let file = opened?;
    let told = ask(&file);
    unless_folder(file, told)
}

/// The bytes that were read, by what is told of the reading.
fn bytes_read(bytes: Vec<u8>, told: io::Result<usize>) -> io::Result<Vec<u8>>
    ensures bytes { IfOk told (λ _. result ≡ Ok bytes) }
    ensures gone { IfErr told (λ e. error_kind e ≡ ErrorKind.NotFound → IsErrAnd result (λ f. error_kind f ≡ ErrorKind.Other)) }
    ensures other { IfErr told (λ e. error_kind e ≢ ErrorKind.NotFound → result ≡ Err e) }
{
    match told {
        Ok(_) => Ok(bytes),
        Err(fault) => Err(read_fault(fault)),
    }
}

/// The first `most` bytes that a reader has left.
fn front_of<R: Read + Drop>(alloc: Global, reader: R, most: usize) -> io::Result<Vec<u8>>
    ensures bytes { IfOk result (λ bytes. IfSome (R.remaining reader) (λ rest. bytes.items ≡ take most rest)) }
    ensures found { IfErr result (λ e. error_kind e ≢ ErrorKind.NotFound) }
{
    let mut bytes = Vec::new(alloc);
    let told = reader.take(most as u64).read_to_end(&mut bytes);
    bytes_read(bytes, told)
}

impl<'a, R: Files + AllocGlobal + Clone + Drop> Folder for CurrentFolder<'a, R> {
    type File = R::File;

    ghost told = { λ _. None };

    ghost last_fault = { λ folder. folder.last_fault };

    fn names(&mut self, alloc: Global) -> io::Result<Vec<String>> {
        let rt = self.rt;
        let names = file_names(alloc, fs::read_dir(rt, "."), |name| fs::metadata(rt, name));
        self.noted(names)
    }

    fn open(&mut self, name: &str) -> io::Result<R::File> {
        let opened = match file_name(name) {
            Ok(name) => fs::open(self.rt, name),
            Err(fault) => Err(fault),
        };
        let file = opened_file(opened, |file| file.metadata());
        self.noted(file)
    }

    fn front(&mut self, alloc: Global, file: R::File, most: usize) -> io::Result<Vec<u8>> {
        let bytes = front_of(alloc, file, most);
        self.noted(bytes)
    }

    fn write(&mut self, name: &str, bytes: &[u8]) -> io::Result<()> {
        let written = match file_name(name) {
            Ok(name) => fs::write(self.rt, name, bytes),
            Err(fault) => Err(fault),
        };
        self.noted(written)
    }

    fn remove(&mut self, name: &str) -> io::Result<()> {
        let removed = match file_name(name) {
            Ok(name) => fs::remove_file(self.rt, name),
            Err(fault) => Err(fault),
        };
        self.noted(removed)
    }
}
