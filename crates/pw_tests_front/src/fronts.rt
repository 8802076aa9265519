//! Texts with their refusals and the lines of these, read by hand.

use crate::modules::{Parts, text_of};
use pw_front_end::{FrontEndFault, Refusal, front, refusal_line};
use pw_parse::ParseFault;
use pw_token::{Feature, LexFault};
use std::alloc::{AllocError, Global};
use std::test::Fail;

/// Why a text is refused, where it is.
fn error_of(alloc: Global, text: &[u8]) -> Option<FrontEndFault> {
    front(alloc, text).err()
}

/// Whether a refusal has this line in a text.
fn has_line(alloc: Global, text: &[u8], refusal: &Refusal, line: usize) -> bool {
    match refusal_line(alloc, text, refusal) {
        Ok(found) => found == line,
        Err(_) => false,
    }
}

/// Whether a text is refused so and on this line, or not refused.
fn is_told(alloc: Global, text: &[u8], wanted: Option<Refusal>, line: usize) -> bool {
    match error_of(alloc, text) {
        None => wanted.is_none(),
        Some(FrontEndFault::Refused(found)) => {
            wanted == Some(found) && has_line(alloc, text, &found, line)
        }
        Some(FrontEndFault::NoMemory) => false,
    }
}

/// A text, its refusal if it has one, and the line of that.
type Row = (&'static [u8], Option<Refusal>, usize);

static TEXTS: [Row; 10] = [
    (b"int x;", None, 1),
    (b"int main(void){return 1;}", None, 1),
    (
        b"int x;\n\n @",
        Some(Refusal::Lex(LexFault::Bad { at: 9 })),
        3,
    ),
    (
        b"float f;",
        Some(Refusal::Unsupported(1, Feature::Float)),
        1,
    ),
    (
        b"/* two\nlines */ int\nf(int a, ...);",
        Some(Refusal::Unsupported(7, Feature::Variadic)),
        3,
    ),
    (b"float @", Some(Refusal::Lex(LexFault::Bad { at: 6 })), 1),
    (
        b"\n\n) L'a'",
        Some(Refusal::Unsupported(2, Feature::Wide)),
        3,
    ),
    (
        b"\n",
        Some(Refusal::Parse(ParseFault::Syntax { token: 1 })),
        2,
    ),
    (
        b"int main(void){\nreturn 1 }",
        Some(Refusal::Parse(ParseFault::Syntax { token: 9 })),
        2,
    ),
    (
        b"int\nx\n",
        Some(Refusal::Parse(ParseFault::Syntax { token: 3 })),
        3,
    ),
];

#[test]
fn texts_have_their_refusals(rt: HostRuntime) {
    for (at, (text, refusal, line)) in TEXTS.iter().enumerate() {
        assert!(rt; is_told(rt.alloc(), text, *refusal, *line), "{at}");
    }
}

/// Texts with refusals and the lines of these, which need not be the texts' own.
static LINES: [(&[u8], Refusal, usize); 4] = [
    (b"a\nb\nc\n", Refusal::Unsupported(3, Feature::Float), 3),
    (b"\n@\n", Refusal::Unsupported(1, Feature::Float), 3),
    (b"\nx\n@\n", Refusal::Unsupported(1, Feature::Float), 2),
    (b"\n\n", Refusal::Lex(LexFault::TooLong), 1),
];

#[test]
fn refusals_have_their_lines(rt: HostRuntime) {
    for (text, refusal, line) in LINES.iter() {
        assert!(rt; has_line(rt.alloc(), text, refusal, *line), "{line}");
    }
}

/// Closing and opening parentheses: the depth is told before the syntax.
static OPENED: [(Parts, ParseFault); 2] = [
    (&[(b")", 1), (b"(", 199)], ParseFault::Syntax { token: 1 }),
    (
        &[(b")", 1), (b"(", 200)],
        ParseFault::TooDeep { token: 201 },
    ),
];

/// Whether a text of parts has this fault.
fn is_opened(alloc: Global, parts: Parts, fault: ParseFault) -> Result<bool, AllocError> {
    let text = text_of(alloc, parts)?;
    Ok(is_told(alloc, &text, Some(Refusal::Parse(fault)), 1))
}

#[test]
fn depth_before_syntax(rt: HostRuntime) -> Result<(), Fail> {
    for (at, (parts, fault)) in OPENED.iter().enumerate() {
        assert!(rt; is_opened(rt.alloc(), parts, *fault)?, "{at}");
    }
    Ok(())
}
