//! Reading the lines of a script.

ghost use Rattle.std.specs.Prelude.{◌≡◌, ◌+◌, ◌<◌, ◌≤◌, ◌++◌, ◌∷◌, [], IfErr, IfOk, IfSome, OnOk, length, string_bytes, true};
ghost use Rattle.pw_store_texts.specs.Names.{is_text_file};
ghost use Rattle.pw_session_script.specs.Reading.{EndsHead, IsReadInPart, ReadsBehind, ReadsCommand, ReadsContent, ReadsHead, ReadsLine, ReadsTaken, ScriptCount, command_view, line_view};
ghost use Rattle.pw_session_script.specs.Script.{IsLawfulCommand, NamesText, PutFile, RunWith, command_of, line_limit, taken_limit};

use crate::command::{Command, command_of, content_length};
use crate::limits::LINE_LIMIT;
use crate::line::{Line, ScriptFault, TakenLine};
use pw_io::Source;
use std::alloc::{AllocError, Global};

/// Puts a byte behind others.
fn push_byte(bytes: &mut Vec<u8>, byte: u8) -> Result<(), AllocError>
    ensures { OnOk result (bytes.new.items ≡ bytes.old.items ++ byte ∷ []) }
{
    bytes.push(byte)?;
    Ok(())
}

/// What stands at the end of the input behind the bytes of a line: the end of the script where there are none.
fn unended(read: &[u8]) -> Result<Option<Vec<u8>>, ScriptFault>
    ensures { EndsHead (length read.now) result }
{
    if read.is_empty() {
        Ok(None)
    } else {
        Err(ScriptFault::BadLine)
    }
}

/// Reads the line of a command, without its newline; or the end of the script.
fn next_head<I: Source>(alloc: Global, input: &mut I) -> Result<Option<Vec<u8>>, ScriptFault>
    ensures head { IfSome (I.rest input.old) (λ rest. ReadsHead rest (I.rest input.new) result) }
    ensures short { IfOk result (λ head. IfSome head (λ bytes. length bytes.items < line_limit)) }
    ensures part { IfSome (I.rest input.old) (λ rest. IsReadInPart rest (I.rest input.new)) }
    ensures count { ScriptCount (I.faults input.old) (I.faults input.new) result }
{
    let mut head = Vec::new(alloc);
    for _place in 0..LINE_LIMIT {
        let Some(byte) = input.next()? else {
            return unended(&head);
        };
        if byte == b'\n' {
            return Ok(Some(head));
        }
        push_byte(&mut head, byte)?;
    }
    Err(ScriptFault::BadLine)
}

/// Reads so many bytes and a newline.
fn content<I: Source>(alloc: Global, input: &mut I, count: u64) -> Result<Vec<u8>, ScriptFault>
    ensures content { IfSome (I.rest input.old) (λ rest. ReadsContent count rest (I.rest input.new) result) }
    ensures part { IfSome (I.rest input.old) (λ rest. IsReadInPart rest (I.rest input.new)) }
    ensures count { ScriptCount (I.faults input.old) (I.faults input.new) result }
{
    let mut bytes = Vec::new(alloc);
    for _place in 0..count {
        let Some(byte) = input.next()? else {
            return Err(ScriptFault::BadLine);
        };
        push_byte(&mut bytes, byte)?;
    }
    let Some(last) = input.next()? else {
        return Err(ScriptFault::BadLine);
    };
    if last == b'\n' {
        Ok(bytes)
    } else {
        Err(ScriptFault::BadLine)
    }
}

/// The name of a file.
fn name_of(alloc: Global, file: &str) -> Result<String, ScriptFault>
    ensures name { IfOk result (λ name. string_bytes name ≡ file.now) }
    ensures fault { IfErr result (λ fault. fault ≡ ScriptFault.NoMemory) }
{
    Ok(String::from_str(alloc, file)?)
}

/// The line that puts a text.
fn put_line<I: Source>(
    alloc: Global,
    input: &mut I,
    file: &str,
    count: u64,
) -> Result<Line, ScriptFault>
    requires { is_text_file file.now ≡ true }
    ensures named { IfOk result (λ line. NamesText (line_view line)) }
    ensures line { IfSome (I.rest input.old) (λ rest. ReadsCommand (PutFile file.now count) rest (I.rest input.new) result) }
    ensures part { IfSome (I.rest input.old) (λ rest. IsReadInPart rest (I.rest input.new)) }
    ensures count { ScriptCount (I.faults input.old) (I.faults input.new) result }
{
    let file = name_of(alloc, file)?;
    let text = content(alloc, input, count)?;
    Ok(Line::Put(file, text))
}

/// The line that runs the program.
fn run_line<I: Source>(alloc: Global, input: &mut I, count: u64) -> Result<Line, ScriptFault>
    ensures named { IfOk result (λ line. NamesText (line_view line)) }
    ensures line { IfSome (I.rest input.old) (λ rest. ReadsCommand (RunWith count) rest (I.rest input.new) result) }
    ensures part { IfSome (I.rest input.old) (λ rest. IsReadInPart rest (I.rest input.new)) }
    ensures count { ScriptCount (I.faults input.old) (I.faults input.new) result }
{
    let bytes = content(alloc, input, count)?;
    Ok(Line::Run(bytes))
}

/// The line of a command, with the bytes that stand behind it.
fn line_of<I: Source>(
    alloc: Global,
    input: &mut I,
    command: Command<'_>,
) -> Result<Line, ScriptFault>
    requires { IsLawfulCommand (command_view command) }
    ensures named { IfOk result (λ line. NamesText (line_view line)) }
    ensures line { IfSome (I.rest input.old) (λ rest. ReadsCommand (command_view command.entry) rest (I.rest input.new) result) }
    ensures part { IfSome (I.rest input.old) (λ rest. IsReadInPart rest (I.rest input.new)) }
    ensures count { ScriptCount (I.faults input.old) (I.faults input.new) result }
{
    match command {
        Command::Put(file, count) => put_line(alloc, input, file, count),
        Command::Remove(file) => Ok(Line::Remove(name_of(alloc, file)?)),
        Command::Build => Ok(Line::Build),
        Command::Run(count) => run_line(alloc, input, count),
    }
}

/// The line of a command, and the count of its bytes, of which so many stand before the content.
fn taken_line<I: Source>(
    alloc: Global,
    input: &mut I,
    command: Command<'_>,
    before: u64,
) -> Result<TakenLine, ScriptFault>
    requires few { before ≤ line_limit }
    requires lawful { IsLawfulCommand (command_view command) }
    ensures line { IfSome (I.rest input.old) (λ rest. ReadsTaken (command_view command.entry) before rest (I.rest input.new) result) }
    ensures short { IfOk result (λ taken. taken.length ≤ taken_limit) }
    ensures named { IfOk result (λ taken. NamesText (line_view taken.line)) }
    ensures part { IfSome (I.rest input.old) (λ rest. IsReadInPart rest (I.rest input.new)) }
    ensures count { ScriptCount (I.faults input.old) (I.faults input.new) result }
{
    let length = before + content_length(&command);
    let line = line_of(alloc, input, command)?;
    Ok(TakenLine { line, length })
}

/// The line whose command's bytes these are.
fn line_behind<I: Source>(
    alloc: Global,
    input: &mut I,
    head: &[u8],
) -> Result<TakenLine, ScriptFault>
    requires { length head.now < line_limit }
    ensures line { IfSome (I.rest input.old) (λ rest. ReadsBehind head.now rest (I.rest input.new) result) }
    ensures no_command { command_of head.now ≡ None → result ≡ Err ScriptFault.BadLine }
    ensures short { IfOk result (λ taken. taken.length ≤ taken_limit) }
    ensures named { IfOk result (λ taken. NamesText (line_view taken.line)) }
    ensures part { IfSome (I.rest input.old) (λ rest. IsReadInPart rest (I.rest input.new)) }
    ensures count { ScriptCount (I.faults input.old) (I.faults input.new) result }
{
    match command_of(head) {
        Some(command) => taken_line(alloc, input, command, head.len() as u64 + 1),
        None => Err(ScriptFault::BadLine),
    }
}

/// Reads the first line of a script, with the count of its bytes; or its end, which stands before a line.
///
/// # Errors
///
/// `BadLine` where no lawful line stands there: another form, a missing byte or newline, too many bytes. A fault of the
/// input, or want of memory.
pub fn next_line<I: Source>(alloc: Global, input: &mut I) -> Result<Option<TakenLine>, ScriptFault>
    ensures line { IfSome (I.rest input.old) (λ rest. ReadsLine rest (I.rest input.new) result) }
    ensures short { IfOk result (λ found. IfSome found (λ taken. taken.length ≤ taken_limit)) }
    ensures named { IfOk result (λ found. IfSome found (λ taken. NamesText (line_view taken.line))) }
    ensures part { IfSome (I.rest input.old) (λ rest. IsReadInPart rest (I.rest input.new)) }
    ensures count { ScriptCount (I.faults input.old) (I.faults input.new) result }
{
    match next_head(alloc, input)? {
        Some(head) => Ok(Some(line_behind(alloc, input, &head)?)),
        None => Ok(None),
    }
}
