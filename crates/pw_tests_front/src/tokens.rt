//! Texts with the tokens and faults that C90 6.1 and this project's profile give them, read by hand.

use crate::modules::{CALCULATOR, Parts, text_of, tokens_of};
use pw_token::TokenKind::{
    Character, Directive, Floating, Identifier, Keyword, Mark, Number, Text, Wide,
};
use pw_token::{Feature, LexFault, Token, TokenKind, lex, nest_fault, unsupported};
use std::alloc::{AllocError, Global};
use std::test::Fail;

/// A text, its tokens with their places and lengths, and the first unsupported one.
type Row = (
    &'static [u8],
    &'static [(TokenKind, usize, usize)],
    Option<(usize, Feature)>,
);

static TEXTS: [Row; 31] = [
    (
        b"a+++++b",
        &[
            (Identifier, 0, 1),
            (Mark, 1, 2),
            (Mark, 3, 2),
            (Mark, 5, 1),
            (Identifier, 6, 1),
        ],
        None,
    ),
    (
        b"x=-1",
        &[
            (Identifier, 0, 1),
            (Mark, 1, 1),
            (Mark, 2, 1),
            (Number, 3, 1),
        ],
        None,
    ),
    (b"/**/", &[], None),
    (b"/*/ */x", &[(Identifier, 6, 1)], None),
    (b"/***/*/", &[(Mark, 5, 1), (Mark, 6, 1)], None),
    (
        b"'\\'' '' 'ab' '\\1234'",
        &[
            (Character, 0, 4),
            (Character, 5, 2),
            (Character, 8, 4),
            (Character, 13, 7),
        ],
        None,
    ),
    (b"\"\\x41\"", &[(Text, 0, 6)], None),
    (b"\"/*\"", &[(Text, 0, 4)], None),
    (b"08", &[(Number, 0, 1), (Number, 1, 1)], None),
    (b"1ull", &[(Number, 0, 3), (Identifier, 3, 1)], None),
    (b"0x", &[(Number, 0, 1), (Identifier, 1, 1)], None),
    (b"0X1fLU", &[(Number, 0, 6)], None),
    (b"1.e5", &[(Floating, 0, 4)], Some((1, Feature::Float))),
    (b".5f", &[(Floating, 0, 3)], Some((1, Feature::Float))),
    (
        b"1e+x",
        &[
            (Number, 0, 1),
            (Identifier, 1, 1),
            (Mark, 2, 1),
            (Identifier, 3, 1),
        ],
        None,
    ),
    (b"...", &[(Mark, 0, 3)], Some((1, Feature::Variadic))),
    (b"..", &[(Mark, 0, 1), (Mark, 1, 1)], None),
    (
        b"a L\"x\"",
        &[(Identifier, 0, 1), (Wide, 2, 4)],
        Some((2, Feature::Wide)),
    ),
    (b"L 'x'", &[(Identifier, 0, 1), (Character, 2, 3)], None),
    (b"a\\\nb", &[(Identifier, 0, 1), (Identifier, 3, 1)], None),
    (b"\"a\\\nb\"", &[(Text, 0, 6)], None),
    (b"\"\\\\\n\"\"", &[(Text, 0, 6)], None),
    (
        b"# 12 \"a.c\"\nint x",
        &[(Keyword, 11, 3), (Identifier, 15, 1)],
        None,
    ),
    (
        b" \t# define X 1\r\ny",
        &[(Directive, 2, 13), (Identifier, 16, 1)],
        Some((1, Feature::Directive)),
    ),
    (
        b"x # ## 1",
        &[
            (Identifier, 0, 1),
            (Mark, 2, 1),
            (Mark, 4, 2),
            (Number, 7, 1),
        ],
        None,
    ),
    (b"x\\\n # 3 y\n#4", &[(Identifier, 0, 1)], None),
    (b"/*\n*/ # 3", &[(Mark, 6, 1), (Number, 8, 1)], None),
    (b"\r\x0c\x0b/*\xff\0*/;", &[(Mark, 9, 1)], None),
    (
        b"iffy if double",
        &[(Identifier, 0, 4), (Keyword, 5, 2), (Keyword, 8, 6)],
        Some((3, Feature::Float)),
    ),
    (
        b"a>>=b->c",
        &[
            (Identifier, 0, 1),
            (Mark, 1, 3),
            (Identifier, 4, 1),
            (Mark, 5, 2),
            (Identifier, 7, 1),
        ],
        None,
    ),
    (b"", &[], None),
];

/// The tokens are those of the row.
fn are_tokens(tokens: &[Token], wanted: &[(TokenKind, usize, usize)]) -> bool {
    for (token, row) in tokens.iter().zip(wanted) {
        if token.kind != row.0 || token.at != row.1 || token.len != row.2 {
            return false;
        }
    }
    tokens.len() == wanted.len()
}

/// Whether a text has the tokens and the unsupported one of its row.
fn has_tokens(alloc: Global, row: &Row) -> bool {
    match tokens_of(alloc, row.0) {
        Some(tokens) => are_tokens(&tokens, row.1) && unsupported(row.0, &tokens) == row.2,
        None => false,
    }
}

#[test]
fn texts_have_their_tokens(rt: HostRuntime) {
    for (at, row) in TEXTS.iter().enumerate() {
        assert!(rt; has_tokens(rt.alloc(), row), "{at}");
    }
}

/// The fault of a text, if it has one.
fn fault_of(alloc: Global, text: &[u8]) -> Option<LexFault> {
    lex(alloc, text).err()
}

/// Whether this is the byte of a text at which nothing starts.
fn is_bad(alloc: Global, text: &[u8], at: usize) -> bool {
    fault_of(alloc, text) == Some(LexFault::Bad { at })
}

/// Texts with the byte at which nothing starts.
static FAULTS: [(&[u8], usize); 13] = [
    (b"a /* b", 2),
    (b"/*/", 0),
    (b"x \"ab", 2),
    (b"\"a\nb\"", 0),
    (b"'a", 0),
    (b"'\\q'", 0),
    (b"'\\8'", 0),
    (b"'\\x'", 0),
    (b"L'a", 1),
    (b"a $", 2),
    (b"\0", 0),
    (b"ab\x80", 2),
    (b"\\\r\n", 0),
];

#[test]
fn texts_have_their_faults(rt: HostRuntime) {
    for (text, at) in FAULTS.iter() {
        assert!(rt; is_bad(rt.alloc(), text, *at), "{at}");
    }
}

/// A byte that stands so often, what stands behind, and the text's fault.
type Long = (u8, usize, &'static [u8], Option<LexFault>);

static LONG: [Long; 3] = [
    (
        b';',
        200_000,
        b" ;$",
        Some(LexFault::TooMany { at: 200_001 }),
    ),
    (b' ', 1_048_576, b"", None),
    (b' ', 1_048_576, b" ", Some(LexFault::TooLong)),
];

/// A long text.
fn long_text(alloc: Global, row: &Long) -> Result<Vec<u8>, AllocError> {
    let mut text = vec![in alloc; row.0; row.1]?;
    text.extend_from_slice(row.2)?;
    Ok(text)
}

/// Whether a long text has the fault of its row.
fn is_long(alloc: Global, row: &Long) -> Result<bool, AllocError> {
    let text = long_text(alloc, row)?;
    Ok(fault_of(alloc, &text) == row.3)
}

#[test]
fn long_texts_have_their_faults(rt: HostRuntime) -> Result<(), Fail> {
    for row in LONG.iter() {
        assert!(rt; is_long(rt.alloc(), row)?, "of {}", row.1);
    }
    Ok(())
}

/// A text, and the first token that is nested too deep.
type Deep = (Parts, Option<usize>);

static DEPTHS: [Deep; 23] = [
    (&[(b"(", 199), (b"x", 1), (b")", 199)], None),
    (&[(b"(", 200), (b"x", 1), (b")", 200)], None),
    (&[(b"(", 201), (b"x", 1)], Some(201)),
    (&[(b"a?b:", 300), (b"c;", 1)], Some(802)),
    (&[(b"a?", 201)], Some(402)),
    (&[(b"if(a)b;else ", 500), (b"c;", 1)], None),
    (&[(b"if(a)", 201)], Some(798)),
    (&[(b"- ", 200), (b"x", 1)], None),
    (&[(b"- ", 201), (b"x", 1)], Some(201)),
    (&[(b"x-", 300)], None),
    (&[(b"(T)", 201), (b"x", 1)], Some(601)),
    (&[(b"do ", 201)], Some(201)),
    (&[(b"do{", 100), (b"x;", 1), (b"}while(a);", 100)], None),
    (&[(b"do x;while(a);", 300)], None),
    (&[(b"while(a)", 201)], Some(798)),
    (&[(b"x=", 201)], Some(402)),
    (&[(b"{", 1), (b"-1,", 10000), (b"0}", 1)], None),
    (&[(b")", 300)], None),
    (&[(b")a", 202)], Some(402)),
    (&[(b"x++ -", 300)], None),
    (&[(b"for(;;)", 201)], Some(997)),
    (&[(b"{if(a){x=1;}else{x=2;}}", 300)], None),
    (&[(b"(a?b;", 150), (b")", 150)], None),
];

/// Whether this is the first token of a text that is nested too deep.
fn nests(alloc: Global, text: &[u8], wanted: Option<usize>) -> bool {
    match tokens_of(alloc, text) {
        Some(tokens) => nest_fault(text, &tokens) == wanted,
        None => false,
    }
}

/// The same of a text of parts.
fn is_nested(alloc: Global, parts: Parts, wanted: Option<usize>) -> Result<bool, AllocError> {
    let text = text_of(alloc, parts)?;
    Ok(nests(alloc, &text, wanted))
}

#[test]
fn texts_are_not_nested_too_deep(rt: HostRuntime) -> Result<(), Fail> {
    for (at, (parts, wanted)) in DEPTHS.iter().enumerate() {
        assert!(rt; is_nested(rt.alloc(), parts, *wanted)?, "{at}");
    }
    Ok(())
}

/// Whether a text has so many tokens, each supported, and none nested too deep.
fn has_count(alloc: Global, text: &[u8], count: usize) -> bool {
    match tokens_of(alloc, text) {
        Some(tokens) => tokens.len() == count && unsupported(text, &tokens).is_none(),
        None => false,
    }
}

#[test]
fn modules_have_their_tokens(rt: HostRuntime) {
    for (text, count) in CALCULATOR.iter() {
        let holds = has_count(rt.alloc(), text, *count) && nests(rt.alloc(), text, None);
        assert!(rt; holds, "{count}");
    }
}
