//! Commands of a script, from the bytes of their lines.

ghost use Rattle.std.specs.Prelude.{◌≡◌, ◌<◌, ◌≤◌, IfSome, Some, length, true, option_map};
ghost use Rattle.std.specs.List.{position};
ghost use Rattle.pw_store_texts.specs.Names.{is_text_file};
ghost use Rattle.pw_top_words.specs.CommandLine.{number_in};
ghost use Rattle.pw_session_script.specs.Script.{IsLawfulCommand, command_of, content_length, file_in, first_word, is_space, long_command, put_in, put_of, words_behind};
ghost use Rattle.pw_session_script.specs.Reading.{command_view};

use crate::limits::{PUT_LIMIT, RUN_LIMIT};
use pw_store_texts::is_text_file;
use pw_top_words::number_in;

/// The command of a line, with the name of a text's file and how many bytes stand behind the line.
#[derive(Clone, Copy)]
pub enum Command<'a> {
    /// `put FILE COUNT`: the file's name, and the count of bytes of its text.
    Put(&'a str, u64),
    /// `remove FILE`: the file's name.
    Remove(&'a str),
    /// `build`
    Build,
    /// `run COUNT`: the count of bytes of the input.
    Run(u64),
}

/// How many bytes stand behind the line of a command, with their newline.
pub fn content_length(command: &Command<'_>) -> u64
    requires { IsLawfulCommand (command_view command.now) }
    ensures { result ≡ content_length (command_view command.now) }
{
    match command {
        Command::Put(_, count) | Command::Run(count) => *count + 1,
        Command::Remove(_) | Command::Build => 0,
    }
}

/// The place of the first space.
fn first_space(line: &[u8]) -> Option<usize>
    ensures place { result ≡ position is_space line.now }
    ensures within { IfSome result (λ at. at < length line.now) }
{
    line.iter().position(|byte| *byte == b' ')
}

/// The first word of a line, and the words behind it, where a space stands between.
fn words_of(line: &[u8]) -> (&[u8], Option<&[u8]>)
    ensures first { result.0.now ≡ first_word line.now }
    ensures behind { option_map (λ words. words.now) result.1 ≡ words_behind line.now }
{
    match first_space(line) {
        Some(at) => (&line[..at], Some(&line[at + 1..])),
        None => (line, None),
    }
}

/// The name of a text's file.
fn file_in(word: &[u8]) -> Option<&str>
    ensures file { option_map (λ file. file.now) result ≡ file_in word.now }
    ensures named { IfSome result (λ file. is_text_file file.now ≡ true) }
{
    if !is_text_file(word) {
        return None;
    }
    match str::from_utf8(word) {
        Ok(file) => Some(file),
        Err(_) => None,
    }
}

/// How many bytes stand behind a line: at most so many.
fn count_in(most: u64, digits: &[u8]) -> Option<u64>
    ensures read { result ≡ number_in 0 most digits.now }
    ensures within { IfSome result (λ n. n ≤ most) }
{
    match str::from_utf8(digits) {
        Ok(text) => number_in(0, most, text),
        Err(_) => None,
    }
}

/// The command that puts so many bytes into a text's file.
fn put_in<'a>(word: &'a [u8], digits: &[u8]) -> Option<Command<'a>>
    ensures command { option_map command_view result ≡ put_in word.now (Some digits.now) }
    ensures lawful { IfSome result (λ command. IsLawfulCommand (command_view command)) }
{
    let file = file_in(word)?;
    let count = count_in(PUT_LIMIT, digits)?;
    Some(Command::Put(file, count))
}

/// The command behind `put `.
fn put_of(words: &[u8]) -> Option<Command<'_>>
    ensures command { option_map command_view result ≡ put_of words.now }
    ensures lawful { IfSome result (λ command. IsLawfulCommand (command_view command)) }
{
    match words_of(words) {
        (word, Some(digits)) => put_in(word, digits),
        (_, None) => None,
    }
}

/// The command of a line of more than one word.
fn long_command<'a>(word: &[u8], words: &'a [u8]) -> Option<Command<'a>>
    ensures command { option_map command_view result ≡ long_command word.now words.now }
    ensures lawful { IfSome result (λ command. IsLawfulCommand (command_view command)) }
{
    if word == b"put".as_slice() {
        put_of(words)
    } else if word == b"remove".as_slice() {
        Some(Command::Remove(file_in(words)?))
    } else if word == b"run".as_slice() {
        Some(Command::Run(count_in(RUN_LIMIT, words)?))
    } else {
        None
    }
}

/// The command of a script's line without its newline: `build`, `remove FILE`, `put FILE COUNT` or `run COUNT`, whose
/// count tells the bytes behind the line; None where the line is no command, or its count is above the limit.
pub fn command_of(line: &[u8]) -> Option<Command<'_>>
    ensures command { option_map command_view result ≡ command_of line.now }
    ensures lawful { IfSome result (λ command. IsLawfulCommand (command_view command)) }
{
    match words_of(line) {
        (word, Some(words)) => long_command(word, words),
        (word, None) if word == b"build".as_slice() => Some(Command::Build),
        (_, None) => None,
    }
}
