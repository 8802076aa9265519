//! A test of the preprocessor's parts: a program that reads rows and prints for each its line's number and what comes of it.
//!
//! A row `if TOKENS` is a condition: whether it holds, or that it is none. A row `define TOKENS` is a definition: how many parameters
//! and tokens its macro has, or why there is none. A row `skip TEXT` is a line that is passed over, in which `@` stands for a newline:
//! where the next line begins. A row `cpp FILE` is a file that is preprocessed, and behind a backquote each a header beside it: its name,
//! a blank, and its text, in which `@` stands for a newline. What comes of it is the output with `@` for each newline, or the fault. A
//! line that is empty or begins with `#` is a heading and is printed as it is.
#![tactic(auto)]

use pw_cpp::{CppFault, CppKind, preprocess};
use pw_cpp_condition::{Item, evaluate, item_of};
use pw_cpp_lines::{LineFault, lex_line, pass_line};
use pw_cpp_macros::{DefineFault, definition_of, spelled};
use pw_items::Items;
use pw_rows::{Program, Text, answer_rows};
use pw_token::Token;
use pw_value::Name;
use std::alloc::{AllocError, Global};
use std::io;

/// Parts of the preprocessor.
#[derive(Drop)]
struct Parts;

/// The tokens of a row, or None where it does not lex.
fn tokens_of(alloc: Global, source: &[u8]) -> Result<Option<Items<Token>>, AllocError> {
    match lex_line(alloc, source, 0) {
        Ok(line) => Ok(Some(line.tokens)),
        Err(LineFault::Bad { .. }) => Ok(None),
        Err(LineFault::NoMemory) => Err(AllocError),
    }
}

/// The items that tokens are, or None where one of them is none.
fn items_of(
    alloc: Global,
    source: &[u8],
    tokens: &[Token],
) -> Result<Option<Items<Item>>, AllocError> {
    let mut items = Items::new(alloc);
    for token in tokens {
        let Some(item) = item_of(alloc, token.kind, spelled(source, *token))? else {
            return Ok(None);
        };
        items.push(item)?;
    }
    Ok(Some(items))
}

/// What is printed for a condition.
fn condition(alloc: Global, source: &[u8]) -> Result<&'static str, AllocError> {
    let Some(tokens) = tokens_of(alloc, source)? else {
        return Ok("no tokens");
    };
    let Some(items) = items_of(alloc, source, tokens.as_slice())? else {
        return Ok("none");
    };
    let Some(number) = evaluate(alloc, items.as_slice())? else {
        return Ok("none");
    };
    Ok(match number.word {
        Some(0) => "fails",
        Some(_) => "holds",
        None => "no value",
    })
}

/// Adds what is printed for a definition.
fn push_definition(text: &mut Text, source: &[u8], tokens: &[Token]) {
    match definition_of(text.alloc(), source, tokens) {
        Ok(definition) => {
            if let Some(parameters) = &definition.meaning.parameters {
                text.display(&parameters.len());
                text.push(b" ");
            }
            text.display(&definition.meaning.replacement.len());
        }
        Err(DefineFault::NoMemory) => text.cut(),
        Err(fault) => text.debug(&fault),
    }
}

/// The files of a row, the one that is preprocessed first.
fn files_of(alloc: Global, row: &str) -> Result<Vec<(Name, Vec<u8>)>, AllocError> {
    let mut files = Vec::new(alloc);
    for file in row.split('`') {
        let (name, text) = file.split_once(' ').unwrap_or((file, ""));
        let name = Name::lawful(alloc, name.as_bytes())?;
        files.push((name, with_newlines(alloc, text)?))?;
    }
    Ok(files)
}

/// Adds the kind of a fault.
fn push_kind(text: &mut Text, kind: &CppKind) {
    match kind {
        CppKind::Lex => text.push(b"Lex"),
        CppKind::Directive => text.push(b"Directive"),
        CppKind::Macro => text.push(b"Macro"),
        CppKind::Condition => text.push(b"Condition"),
        CppKind::Include(name) => {
            text.push(b"Include ");
            text.push(name.as_bytes());
        }
        CppKind::Error => text.push(b"Error"),
        CppKind::Limit(which, number) => {
            text.push(b"Limit ");
            text.debug(which);
            text.push(b" ");
            text.display(number);
        }
        CppKind::NoMemory => text.cut(),
    }
}

/// Adds a fault: its file, its line and its kind.
fn push_fault(text: &mut Text, fault: &CppFault) {
    text.push(fault.file.as_bytes());
    text.push(b":");
    text.display(&fault.line);
    text.push(b": Cpp ");
    push_kind(text, &fault.kind);
}

/// Adds an output with a mark for each newline.
fn push_output(text: &mut Text, output: &[u8]) {
    for byte in output {
        if *byte == b'\n' {
            text.push(b"@");
        } else {
            text.push(&[*byte]);
        }
    }
}

/// Adds what the preprocessor makes of the files of a row.
fn push_run(text: &mut Text, files: &[(Name, Vec<u8>)]) {
    let [(name, _), ..] = files else {
        return;
    };
    let Ok(name) = name.copy(text.alloc()) else {
        text.cut();
        return;
    };
    match preprocess(text.alloc(), files, name) {
        Ok(output) => push_output(text, output.as_slice()),
        Err(fault) => push_fault(text, &fault),
    }
}

/// Adds what is printed for a row that begins with a word.
fn push_row(text: &mut Text, word: &str, source: &[u8]) {
    let alloc = text.alloc();
    match word {
        "if" => match condition(alloc, source) {
            Ok(verdict) => text.push(verdict.as_bytes()),
            Err(AllocError) => text.cut(),
        },
        "define" => match tokens_of(alloc, source) {
            Ok(Some(tokens)) => push_definition(text, source, tokens.as_slice()),
            Ok(None) => text.push(b"no tokens"),
            Err(AllocError) => text.cut(),
        },
        "skip" => text.display(&pass_line(source, 0)),
        _ => text.push(b"no row"),
    }
}

/// A text with a newline for each `@`.
fn with_newlines(alloc: Global, source: &str) -> Result<Vec<u8>, AllocError> {
    let mut bytes = Vec::from_slice(alloc, source.as_bytes())?;
    for byte in bytes.iter_mut() {
        if *byte == b'@' {
            *byte = b'\n';
        }
    }
    Ok(bytes)
}

/// Adds what is printed for a row.
fn push_answer(text: &mut Text, word: &str, rest: &str) {
    let alloc = text.alloc();
    if word == "cpp" {
        match files_of(alloc, rest) {
            Ok(files) => push_run(text, files.as_slice()),
            Err(AllocError) => text.cut(),
        }
        return;
    }
    match with_newlines(alloc, rest) {
        Ok(source) => push_row(text, word, &source),
        Err(AllocError) => text.cut(),
    }
}

impl Program for Parts {
    fn answer(&mut self, text: &mut Text, number: usize, row: &str) {
        if row.is_empty() || row.starts_with('#') {
            text.push(row.as_bytes());
        } else {
            let (word, rest) = row.split_once(' ').unwrap_or((row, ""));
            text.display(&number);
            text.push(b" ");
            push_answer(text, word, rest);
        }
        text.push(b"\n");
    }
}

fn main(rt: HostRuntime) -> io::Result<()> {
    answer_rows(rt.alloc(), rt.reader(), &mut rt.stdout(), &mut Parts)
}
