//! The preprocessor as a whole.

ghost use Rattle.std.specs.Prelude.{◌≡◌, length, slice_get, Some, IfOk, IsTrue, ◌↔◌};
ghost use Rattle.pw_cpp.specs.Answers.{AnswersCpp, AnswersReading};
ghost use Rattle.pw_cpp_sources.specs.Sources.{File, IsThere, line_of, digits_of, files_of, names_of, source_of, spans_of, texts_of};

use crate::fault::CppFault;
use crate::file::place_at;
use crate::reader::{Reader, bytes_before};
use pw_cpp_directives::{CppKind, Fault, Standing};
use pw_cpp_macros::Macros;
use pw_cpp_sets::Sets;
use pw_cpp_sources::{Source, source_of};
use pw_items::Items;
use pw_token::{line_at, text_from};
use pw_value::Name;
use std::alloc::{AllocError, Global};

fn is_no_memory(kind: &CppKind) -> bool
    ensures { IsTrue result ↔ (kind.now ≡ CppKind.NoMemory) }
{
    matches!(kind, CppKind::NoMemory)
}

/// A fault with its file and its line.
fn placed(
    alloc: Global,
    source: &Source,
    files: &[(Name, Vec<u8>)],
    number: usize,
    fault: Fault,
) -> Result<CppFault, AllocError>
    requires count { length source.now.spans.items ≡ length files.now }
    requires spans { files_of (names_of files.now) source.now.spans.items ≡ spans_of (texts_of files.now) }
    ensures { (file : File) → slice_get (spans_of (texts_of files.now)) number ≡ Some file → IfOk result (λ found. found ≡ record { kind = fault.kind; file = file.name; line = line_of source.now.bytes.items file fault.place }) }
{
    if files.len() <= number {
        return Err(AllocError);
    }
    let Some(span) = place_at(source.spans.as_slice(), number) else {
        return Err(AllocError);
    };
    let size = span.end.saturating_sub(span.from);
    let text = bytes_before(text_from(source.bytes.as_slice(), span.from), size);
    let file = files[number].0.copy(alloc)?;
    let line = line_at(text, fault.place.saturating_sub(span.from)) as u64;
    Ok(CppFault {
        kind: fault.kind,
        file,
        line,
    })
}

/// Reads a file of the source and the headers that it includes. A fault has the number of its file.
fn read_all(
    alloc: Global,
    source: &Source,
    files: &[(Name, Vec<u8>)],
    name: &[u8],
) -> Result<Vec<u8>, (usize, Fault)>
    requires source { source.now.bytes.items ≡ source_of (texts_of files.now) }
    requires count { length source.now.spans.items ≡ length files.now }
    requires spans { files_of (names_of files.now) source.now.spans.items ≡ spans_of (texts_of files.now) }
    ensures { IsThere (texts_of files.now) name.now → AnswersReading (source_of (texts_of files.now)) (spans_of (texts_of files.now)) digits_of name.now result }
{
    let mut reader = Reader {
        alloc,
        source: source.bytes.as_slice(),
        files,
        spans: source.spans.as_slice(),
        file: 0,
        standing: Standing {
            macros: Macros::new(alloc),
            sets: Sets::new(alloc),
            sections: Items::new(alloc),
            nested: Items::new(alloc),
            produced: 0,
        },
        out: Vec::new(alloc),
        size: 0,
    };
    let Some(number) = reader.file_named(name) else {
        return Ok(Vec::new(alloc));
    };
    match reader.read_file(number, 0) {
        Ok(()) => {
            let Reader { out, .. } = reader;
            Ok(out)
        }
        Err(fault) => Err((reader.file, fault)),
    }
}

/// The output of the preprocessor for a file of a source, or its first fault.
fn preprocess_source(
    alloc: Global,
    files: &[(Name, Vec<u8>)],
    name: &[u8],
) -> Result<Result<Vec<u8>, CppFault>, AllocError>
    ensures { IfOk result (λ answer. IsThere (texts_of files.now) name.now → AnswersCpp (texts_of files.now) name.now answer) }
{
    let source = source_of(alloc, files)?;
    match read_all(alloc, &source, files, name) {
        Ok(out) => Ok(Ok(out)),
        Err((number, fault)) => {
            if is_no_memory(&fault.kind) {
                return Err(AllocError);
            }
            let found = placed(alloc, &source, files, number, fault)?;
            Ok(Err(found))
        }
    }
}

/// The output of the preprocessor for a file, which is one of the files; the others are headers that it may include.
///
/// # Errors
///
/// The first fault in the order of reading, with its file and its line. Want of memory has the file's own name.
pub fn preprocess(alloc: Global, files: &[(Name, Vec<u8>)], name: Name) -> Result<Vec<u8>, CppFault>
    ensures { IsThere (texts_of files.now) name → AnswersCpp (texts_of files.now) name result }
{
    match preprocess_source(alloc, files, name.as_bytes()) {
        Ok(answer) => answer,
        Err(AllocError) => Err(CppFault {
            kind: CppKind::NoMemory,
            file: name,
            line: 1,
        }),
    }
}
