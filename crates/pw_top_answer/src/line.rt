//! The one line that is told of an answer.

ghost use Rattle.std.specs.Prelude.{◌≡◌, IfOk, OnOk, OnErr, ◌++◌, ◌<◌, ◌^◌, codes};
ghost use Rattle.std.specs.Fmt.{decimal};
ghost use Rattle.pw_cmean.specs.Undefined.{text_of};
ghost use Rattle.pw_top_answer.specs.Answers.{feature_name, what_name, which_name, limit_name, kind_text, cpp_text, bad_file_text, halt_name, lex_text, link_text, parse_text, refusal_text, line_text, at_line, NeedsMemory};
ghost use Rattle.pw_top_answer.specs.Lines.{line_bytes};

use crate::answer::Answer;
use pw_check_walk::{CheckKind, Which};
use pw_cmean::{Undef, undefined_text};
use pw_cpp::{CppFault, CppKind, CppWhich};
use pw_front_end::{ParseFault, Refusal};
use pw_machine::Halt;
use pw_store_modules::TEXT_ENDING;
use pw_token::{Feature, LexFault};
use pw_value::{LinkFault, Name, What, Word, push_decimal};
use std::alloc::{AllocError, Global};

fn feature_name(feature: Feature) -> &'static [u8]
    ensures { result.now ≡ feature_name feature }
{
    match feature {
        Feature::Float => b"Float",
        Feature::Wide => b"Wide",
        Feature::Variadic => b"Variadic",
        Feature::Directive => b"Directive",
        Feature::BitField => b"BitField",
        Feature::OldStyle => b"OldStyle",
        Feature::StructByValue => b"StructByValue",
        Feature::PointerCast => b"PointerCast",
    }
}

fn what_name(what: What) -> &'static [u8]
    ensures { result.now ≡ what_name what }
{
    match what {
        What::Modules => b"Modules",
        What::TextBytes => b"TextBytes",
        What::Functions => b"Functions",
        What::Globals => b"Globals",
    }
}

fn which_name(which: Which) -> &'static [u8]
    ensures { result.now ≡ which_name which }
{
    match which {
        Which::NameLength => b"NameLength",
        Which::Nodes => b"Nodes",
        Which::ObjectSize => b"ObjectSize",
        Which::ShapeLength => b"ShapeLength",
        Which::Room => b"Room",
        Which::TypeDepth => b"TypeDepth",
        Which::Parameters => b"Parameters",
    }
}

fn limit_name(which: CppWhich) -> &'static [u8]
    ensures { result.now ≡ limit_name which }
{
    match which {
        CppWhich::Depth => b"Depth",
        CppWhich::Macros => b"Macros",
        CppWhich::Parameters => b"Parameters",
        CppWhich::Produced => b"Produced",
        CppWhich::Length => b"Length",
    }
}

/// The word by which a line tells why the machine halted.
pub fn halt_name(halt: Halt) -> &'static [u8]
    ensures { result.now ≡ halt_name halt }
{
    match halt {
        Halt::Illegal => b"Illegal",
        Halt::Unaligned => b"Unaligned",
        Halt::OutOfMemoryRange => b"OutOfMemoryRange",
        Halt::TextWrite => b"TextWrite",
        Halt::BadBranch => b"BadBranch",
        Halt::BadBreak => b"BadBreak",
    }
}

/// Puts a number behind a text, in decimal, behind what it counts.
fn push_numbered(text: &mut Vec<u8>, what: &[u8], number: usize) -> Result<(), AllocError>
    ensures { OnOk result (text.new.items ≡ text.old.items ++ what.now ++ decimal number) }
{
    text.extend_from_slice(what)?;
    push_decimal(text, number as u64)?;
    Ok(())
}

/// Puts behind a text what is not compiled, and at which token.
fn push_unsupported(text: &mut Vec<u8>, token: usize, feature: Feature) -> Result<(), AllocError>
    ensures { OnOk result (text.new.items ≡ text.old.items ++ refusal_text (Refusal.Unsupported token feature)) }
{
    text.extend_from_slice(b"Unsupported ")?;
    text.extend_from_slice(feature_name(feature))?;
    text.extend_from_slice(b" at token ")?;
    push_decimal(text, token as u64)?;
    Ok(())
}

/// Puts behind a text why a text has no tokens.
fn push_lex_fault(text: &mut Vec<u8>, fault: LexFault) -> Result<(), AllocError>
    ensures { OnOk result (text.new.items ≡ text.old.items ++ lex_text fault) }
{
    match fault {
        LexFault::Bad { at } => {
            push_numbered(text, b"Bad at byte ", at)?;
            Ok(())
        }
        LexFault::TooMany { at } => {
            push_numbered(text, b"TooMany at byte ", at)?;
            Ok(())
        }
        LexFault::TooLong => {
            text.extend_from_slice(b"TooLong")?;
            Ok(())
        }
        LexFault::NoMemory => {
            text.extend_from_slice(b"NoMemory")?;
            Ok(())
        }
    }
}

/// Puts behind a text why its tokens have no syntax tree.
fn push_parse_fault(text: &mut Vec<u8>, fault: ParseFault) -> Result<(), AllocError>
    ensures { OnOk result (text.new.items ≡ text.old.items ++ parse_text fault) }
{
    match fault {
        ParseFault::TooDeep { token } => push_numbered(text, b"TooDeep at token ", token),
        ParseFault::Syntax { token } => push_numbered(text, b"Syntax at token ", token),
        ParseFault::NoMemory => {
            text.extend_from_slice(b"NoMemory")?;
            Ok(())
        }
    }
}

/// Puts behind a text which limit a count passes, the count, and at which token.
fn push_limit(text: &mut Vec<u8>, which: Which, count: u64, token: usize) -> Result<(), AllocError>
    ensures { OnOk result (text.new.items ≡ text.old.items ++ kind_text (CheckKind.Limit which count) token) }
{
    text.extend_from_slice(b"Limit ")?;
    text.extend_from_slice(which_name(which))?;
    text.extend_from_slice(b" ")?;
    push_decimal(text, count)?;
    text.extend_from_slice(b" at token ")?;
    push_decimal(text, token as u64)?;
    Ok(())
}

/// Puts a word behind a text, and at which token.
fn push_at(text: &mut Vec<u8>, word: &[u8], token: usize) -> Result<(), AllocError>
    ensures { OnOk result (text.new.items ≡ text.old.items ++ word.now ++ codes " at token " ++ decimal token) }
{
    text.extend_from_slice(word)?;
    push_numbered(text, b" at token ", token)?;
    Ok(())
}

/// Puts behind a text what is wrong with its tree, and at which token.
fn push_kind(text: &mut Vec<u8>, kind: &CheckKind, token: usize) -> Result<(), AllocError>
    ensures { OnOk result (text.new.items ≡ text.old.items ++ kind_text kind.now token) }
{
    match kind {
        CheckKind::UnknownName => push_at(text, b"UnknownName", token),
        CheckKind::Redeclared => push_at(text, b"Redeclared", token),
        CheckKind::Typing => push_at(text, b"Typing", token),
        CheckKind::Constant => push_at(text, b"Constant", token),
        CheckKind::Unsupported(feature) => push_unsupported(text, token, *feature),
        CheckKind::Limit(which, count) => push_limit(text, *which, *count, token),
        CheckKind::NoMemory => push_at(text, b"NoMemory", token),
    }
}

fn push_refusal(text: &mut Vec<u8>, refusal: &Refusal) -> Result<(), AllocError>
    ensures { OnOk result (text.new.items ≡ text.old.items ++ refusal_text refusal.now) }
{
    match refusal {
        Refusal::Lex(fault) => push_lex_fault(text, *fault),
        Refusal::Unsupported(token, feature) => push_unsupported(text, *token, *feature),
        Refusal::Parse(fault) => push_parse_fault(text, *fault),
        Refusal::Check(fault) => push_kind(text, &fault.kind, fault.token),
    }
}

/// Puts a fault's name behind a text, and the name of which it speaks with the two modules.
fn push_modules(
    text: &mut Vec<u8>,
    name: &Name,
    first: &Name,
    second: &Name,
) -> Result<(), AllocError>
    ensures { OnOk result (text.new.items ≡ text.old.items ++ name.now ++ codes " " ++ first.now ++ codes " " ++ second.now) }
{
    text.extend_from_slice(name.as_bytes())?;
    text.extend_from_slice(b" ")?;
    text.extend_from_slice(first.as_bytes())?;
    text.extend_from_slice(b" ")?;
    text.extend_from_slice(second.as_bytes())?;
    Ok(())
}

/// The text of modules that are refused together.
fn link_text(alloc: Global, fault: &LinkFault) -> Result<Vec<u8>, AllocError>
    ensures { IfOk result (λ text. text.items ≡ link_text fault.now) }
{
    let front: &[u8] = match fault {
        LinkFault::Undefined(_) => b"Undefined ",
        LinkFault::Duplicate(_, _, _) => b"Duplicate ",
        LinkFault::Conflict(_, _, _) => b"Conflict ",
        LinkFault::NoMain => b"NoMain",
        LinkFault::TextTooLarge(_) => b"TextTooLarge ",
        LinkFault::MemoryTooLarge(_) => b"MemoryTooLarge ",
        LinkFault::NoMemory => b"NoMemory",
        LinkFault::TooMany(_, _) => b"TooMany ",
    };
    let mut text = Vec::from_slice(alloc, front)?;
    match fault {
        LinkFault::Undefined(name) => text.extend_from_slice(name.as_bytes())?,
        LinkFault::Duplicate(name, first, second) | LinkFault::Conflict(name, first, second) => {
            push_modules(&mut text, name, first, second)?;
        }
        LinkFault::NoMain | LinkFault::NoMemory => {}
        LinkFault::TextTooLarge(number) | LinkFault::MemoryTooLarge(number) => {
            push_decimal(&mut text, *number)?;
        }
        LinkFault::TooMany(what, count) => {
            text.extend_from_slice(what_name(*what))?;
            text.extend_from_slice(b" ")?;
            push_decimal(&mut text, *count)?;
        }
    }
    Ok(text)
}

/// Puts behind the name of a text on which of its lines it is refused, where that is known.
fn push_line(text: &mut Vec<u8>, line: Option<usize>) -> Result<(), AllocError>
    ensures { OnOk result (text.new.items ≡ text.old.items ++ at_line line) }
{
    if let Some(number) = line {
        push_numbered(text, b":", number)?;
    }
    Ok(())
}

/// The line of a text of a module, of this ending, that is refused, on its line `line`.
fn refused_text(
    alloc: Global,
    name: &Name,
    ending: &str,
    refusal: &Refusal,
    line: Option<usize>,
) -> Result<Vec<u8>, AllocError>
    ensures { IfOk result (λ text. text.items ≡ name.now ++ ending.now ++ at_line line ++ codes ": " ++ refusal_text refusal.now ++ codes "\n") }
{
    let mut text = Vec::from_slice(alloc, name.as_bytes())?;
    text.extend_from_slice(ending.as_bytes())?;
    push_line(&mut text, line)?;
    text.extend_from_slice(b": ")?;
    push_refusal(&mut text, refusal)?;
    text.extend_from_slice(b"\n")?;
    Ok(text)
}

/// The line of a module that is refused, on line `line` of its text.
fn refused_line(
    alloc: Global,
    name: &Name,
    refusal: &Refusal,
    line: Option<usize>,
) -> Result<Vec<u8>, AllocError>
    ensures { IfOk result (λ text. text.items ≡ line_text line (Answer.Refused name.now refusal.now)) }
{
    refused_text(alloc, name, TEXT_ENDING, refusal, line)
}

/// The line of a module whose C source's output is refused, on line `line` of that output.
fn refused_source_line(
    alloc: Global,
    name: &Name,
    refusal: &Refusal,
    line: Option<usize>,
) -> Result<Vec<u8>, AllocError>
    ensures { IfOk result (λ text. text.items ≡ line_text line (Answer.RefusedSource name.now refusal.now)) }
{
    refused_text(alloc, name, ".c", refusal, line)
}

/// Puts behind a text what the preprocessor finds wrong.
fn push_cpp_kind(text: &mut Vec<u8>, kind: &CppKind) -> Result<(), AllocError>
    ensures { OnOk result (text.new.items ≡ text.old.items ++ cpp_text kind.now) }
{
    match kind {
        CppKind::Lex => text.extend_from_slice(b"Lex")?,
        CppKind::Directive => text.extend_from_slice(b"Directive")?,
        CppKind::Macro => text.extend_from_slice(b"Macro")?,
        CppKind::Condition => text.extend_from_slice(b"Condition")?,
        CppKind::Include(name) => {
            text.extend_from_slice(b"Include ")?;
            text.extend_from_slice(name.as_bytes())?;
        }
        CppKind::Error => text.extend_from_slice(b"Error")?,
        CppKind::Limit(which, number) => {
            text.extend_from_slice(b"Limit ")?;
            text.extend_from_slice(limit_name(*which))?;
            text.extend_from_slice(b" ")?;
            push_decimal(text, *number)?;
        }
        CppKind::NoMemory => text.extend_from_slice(b"NoMemory")?,
    }
    Ok(())
}

/// The line of a file that the preprocessor refuses.
fn cpp_line(alloc: Global, fault: &CppFault) -> Result<Vec<u8>, AllocError>
    ensures { IfOk result (λ text. text.items ≡ fault.now.file ++ codes ":" ++ decimal fault.now.line ++ codes ": Cpp " ++ cpp_text fault.now.kind ++ codes "\n") }
{
    let mut text = Vec::from_slice(alloc, fault.file.as_bytes())?;
    text.extend_from_slice(b":")?;
    push_decimal(&mut text, fault.line)?;
    text.extend_from_slice(b": Cpp ")?;
    push_cpp_kind(&mut text, &fault.kind)?;
    text.extend_from_slice(b"\n")?;
    Ok(text)
}

/// The line of modules that are refused together.
fn link_refused_line(alloc: Global, fault: &LinkFault) -> Result<Vec<u8>, AllocError>
    ensures { IfOk result (λ text. text.items ≡ codes "link: " ++ link_text fault.now ++ codes "\n") }
{
    let fault = link_text(alloc, fault)?;
    let mut text = Vec::from_slice(alloc, b"link: ")?;
    text.extend_from_slice(fault.as_slice())?;
    text.extend_from_slice(b"\n")?;
    Ok(text)
}

/// The line of a run that an instruction halted.
fn halted_line(alloc: Global, halt: Halt, at: Word) -> Result<Vec<u8>, AllocError>
    ensures { IfOk result (λ text. text.items ≡ codes "Halted " ++ halt_name halt ++ codes " " ++ decimal at ++ codes "\n") }
{
    let mut text = Vec::from_slice(alloc, b"Halted ")?;
    text.extend_from_slice(halt_name(halt))?;
    text.extend_from_slice(b" ")?;
    push_decimal(&mut text, u64::from(at))?;
    text.extend_from_slice(b"\n")?;
    Ok(text)
}

/// The line of a file that is absent or refused.
fn bad_file_line(alloc: Global, name: &Name, at: Option<usize>) -> Result<Vec<u8>, AllocError>
    ensures { IfOk result (λ text. text.items ≡ bad_file_text name.now at ++ codes "\n") }
{
    let mut text = Vec::from_slice(alloc, b"BadFile ")?;
    text.extend_from_slice(name.as_bytes())?;
    if let Some(offset) = at {
        push_numbered(&mut text, b" at ", offset)?;
    }
    text.extend_from_slice(b"\n")?;
    Ok(text)
}

/// The line of a lost walk: the address.
fn no_frames_line(alloc: Global, address: Word) -> Result<Vec<u8>, AllocError>
    ensures { IfOk result (λ text. text.items ≡ codes "NoFrames " ++ decimal address ++ codes "\n") }
{
    let mut text = Vec::from_slice(alloc, b"NoFrames ")?;
    push_decimal(&mut text, u64::from(address))?;
    text.push(b'\n')?;
    Ok(text)
}

/// The line of an undefined operation at a token of the text of a file, on line `line` of it.
fn undefined_in(
    alloc: Global,
    operation: Undef,
    name: &Name,
    ending: &str,
    token: usize,
    line: Option<usize>,
) -> Result<Vec<u8>, AllocError>
    ensures { IfOk result (λ text. text.items ≡ name.now ++ ending.now ++ at_line line ++ codes ": Undefined " ++ text_of operation ++ codes " at token " ++ decimal token ++ codes "\n") }
{
    let mut text = Vec::from_slice(alloc, name.as_bytes())?;
    text.extend_from_slice(ending.as_bytes())?;
    push_line(&mut text, line)?;
    text.extend_from_slice(b": Undefined ")?;
    push_at(&mut text, undefined_text(operation).as_bytes(), token)?;
    text.extend_from_slice(b"\n")?;
    Ok(text)
}

/// The line of an undefined operation at a token of a module's text.
fn undefined_line(
    alloc: Global,
    operation: Undef,
    name: &Name,
    token: usize,
    line: Option<usize>,
) -> Result<Vec<u8>, AllocError>
    ensures { IfOk result (λ text. text.items ≡ line_text line (Answer.Undefined operation name.now token)) }
{
    undefined_in(alloc, operation, name, TEXT_ENDING, token, line)
}

/// The line of an undefined operation at a token of the output of a module's C source.
fn undefined_source_line(
    alloc: Global,
    operation: Undef,
    name: &Name,
    token: usize,
    line: Option<usize>,
) -> Result<Vec<u8>, AllocError>
    ensures { IfOk result (λ text. text.items ≡ line_text line (Answer.UndefinedSource operation name.now token)) }
{
    undefined_in(alloc, operation, name, ".c", token, line)
}

/// The line of a script that has no lawful line at an offset.
fn bad_script_line(alloc: Global, at: u64) -> Result<Vec<u8>, AllocError>
    ensures { IfOk result (λ text. text.items ≡ codes "BadScript at " ++ decimal at ++ codes "\n") }
{
    let mut text = Vec::from_slice(alloc, b"BadScript at ")?;
    push_decimal(&mut text, at)?;
    text.extend_from_slice(b"\n")?;
    Ok(text)
}

/// A line that tells an answer; for an answer of which nothing is told it has no bytes.
#[derive(Drop)]
pub enum Line {
    /// A line that is always the same.
    Fixed(&'static [u8]),
    /// A line that was made for its answer.
    Made(Vec<u8>),
}

impl Line {
    /// The line in ASCII with its newline; no bytes for an answer of which nothing is told.
    pub fn as_bytes(&self) -> &[u8]
        ensures { result.now ≡ line_bytes self.now }
    {
        match self {
            Line::Fixed(text) => text,
            Line::Made(text) => text.as_slice(),
        }
    }
}

/// The line of an answer; where a module is refused, it is on line `line` of its text, where that is known. Only the answers
/// that name something need memory.
pub fn line_of(alloc: Global, answer: &Answer, line: Option<usize>) -> Result<Line, AllocError>
    ensures text { IfOk result (λ made. line_bytes made ≡ line_text line answer.now) }
    ensures memory { OnErr result (NeedsMemory answer.now) }
{
    match answer {
        Answer::Refused(name, refusal) => Ok(Line::Made(refused_line(alloc, name, refusal, line)?)),
        Answer::RefusedSource(name, refusal) => {
            Ok(Line::Made(refused_source_line(alloc, name, refusal, line)?))
        }
        Answer::Cpp(fault) => Ok(Line::Made(cpp_line(alloc, fault)?)),
        Answer::LinkRefused(fault) => Ok(Line::Made(link_refused_line(alloc, fault)?)),
        Answer::Halted(halt, at) => Ok(Line::Made(halted_line(alloc, *halt, *at)?)),
        Answer::BadFile(name, at) => Ok(Line::Made(bad_file_line(alloc, name, *at)?)),
        Answer::BadScript(at) => Ok(Line::Made(bad_script_line(alloc, *at)?)),
        Answer::NoFrames(address) => Ok(Line::Made(no_frames_line(alloc, *address)?)),
        Answer::Undefined(operation, name, token) => {
            Ok(Line::Made(undefined_line(alloc, *operation, name, *token, line)?))
        }
        Answer::UndefinedSource(operation, name, token) => {
            let text = undefined_source_line(alloc, *operation, name, *token, line)?;
            Ok(Line::Made(text))
        }
        Answer::Done | Answer::Ended(_) => Ok(Line::Fixed(b"")),
        Answer::Usage => Ok(Line::Fixed(b"usage\n")),
        Answer::StackStop => Ok(Line::Fixed(b"StackStop\n")),
        Answer::Spent => Ok(Line::Fixed(b"Spent\n")),
        Answer::ReadFault => Ok(Line::Fixed(b"ReadFault\n")),
        Answer::WriteFault => Ok(Line::Fixed(b"WriteFault\n")),
        Answer::StoreFault => Ok(Line::Fixed(b"StoreFault\n")),
        Answer::NoMemory => Ok(Line::Fixed(b"NoMemory\n")),
    }
}
