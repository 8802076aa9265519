//! Modules, and the token at which a text leaves the grammar.

ghost use Rattle.pw_token.specs.Tokenization.{IsLexed};

use crate::modules::{Parts, text_of, tokens_of};
use pw_parse::{ParseFault, parse};
use pw_token::Token;
use std::alloc::{AllocError, Global};
use std::test::Fail;

/// The fault of a text's tokens, if they have one.
fn fault_of(alloc: Global, text: &[u8], tokens: &[Token]) -> Option<ParseFault>
    requires { IsLexed text.now tokens.now }
{
    parse(alloc, text, tokens).err()
}

/// Whether a text has tokens, and this fault or none.
fn has_fault(alloc: Global, text: &[u8], fault: Option<ParseFault>) -> bool {
    match tokens_of(alloc, text) {
        Some(tokens) => fault_of(alloc, text, &tokens) == fault,
        None => false,
    }
}

/// The fault at a token, none at 0.
fn at(token: usize) -> Option<ParseFault> {
    if token == 0 {
        None
    } else {
        Some(ParseFault::Syntax { token })
    }
}

/// Texts with the tokens at which they leave the grammar, 0 where they do not, by the rules of the standard.
static TEXTS: [(&[u8], usize); 40] = [
    (b"", 1),
    (b";", 1),
    (b"int x;", 0),
    (b"int int y;", 0),
    (b"int x int y;", 6),
    (b"int main(void){return 1 }", 9),
    (b"int main(void){a+b=c;}", 10),
    (b"int main(void){;int x;}", 8),
    (b"typedef int T; void f(void){T * x;}", 0),
    (b"typedef int T; void f(void){int T; T * x;}", 0),
    (b"typedef int T; void f(void){int T; T x;}", 15),
    (b"int f(void){{typedef int T;} T x;}", 14),
    (b"typedef int T; int f(int T){T x;}", 13),
    (b"typedef int T; int f(void){enum {T} e; T * e;}", 0),
    (b"typedef int T; struct S {int T; T t;} s;", 0),
    (b"typedef int T; int f(int (T));", 0),
    (b"typedef int T; int f(const *T);", 10),
    (b"typedef int T; int x = (T)(y);", 0),
    (b"typedef int T; int x = sizeof (T)x;", 12),
    (b"int x; int y = sizeof(x);", 0),
    (b"int x = sizeof(int (*)[3]);", 0),
    (b"int (*(*f)(void))[3];", 0),
    (b"int f(void){if(a)if(b);else;}", 0),
    (b"int f(void){if(a);else if(b);else;else;}", 20),
    (b"int a[] = {1,{2},};", 0),
    (b"int a[] = {};", 7),
    (b"int f(void){a: b: case 1: default: ;}", 0),
    (b"int f(void){a:}", 9),
    (b"typedef int T; int f(void){goto T;}", 0),
    (b"int f(a,b) int a; {return a;}", 0),
    (b"int f(int a,b);", 7),
    (b"int f(int a,...){}", 0),
    (b"struct {int a:1, :2;} x;", 0),
    (b"struct {int a:1, ;} x;", 8),
    (b"enum {A,};", 5),
    (b"x;", 2),
    (b"int x = a-b-c ? d : e = f;", 13),
    (b"int f(void){switch(a){case 1:switch(b)default:;}}", 0),
    (b"int f(void){do ; while(a) }", 13),
    (b"int f(void){for(;;)\"a\" \"b\";", 15),
];

#[test]
fn texts_have_their_faults(rt: HostRuntime) {
    for (text, token) in TEXTS.iter() {
        assert!(rt; has_fault(rt.alloc(), text, at(*token)), "{token}");
    }
}

/// Texts with the first token that is nested too deep.
static DEEP: [(Parts, Option<ParseFault>); 4] = [
    (
        &[
            (b"int main(void){return", 1),
            (b"(", 199),
            (b"7", 1),
            (b")", 199),
            (b";}", 1),
        ],
        None,
    ),
    (
        &[
            (b"int main(void){return", 1),
            (b"(", 200),
            (b"7", 1),
            (b")", 200),
            (b";}", 1),
        ],
        Some(ParseFault::TooDeep { token: 207 }),
    ),
    (
        &[(b"int f(void){", 1), (b"if(a)b;else ", 500), (b"c;}", 1)],
        None,
    ),
    (&[(b"int t[] = {", 1), (b"-1,", 10000), (b"0};", 1)], None),
];

/// Whether a text of parts has this fault or none.
fn nests(alloc: Global, parts: Parts, fault: Option<ParseFault>) -> Result<bool, AllocError> {
    let text = text_of(alloc, parts)?;
    Ok(has_fault(alloc, &text, fault))
}

#[test]
fn texts_are_not_nested_too_deep(rt: HostRuntime) -> Result<(), Fail> {
    for (at, (parts, fault)) in DEEP.iter().enumerate() {
        assert!(rt; nests(rt.alloc(), parts, *fault)?, "{at}");
    }
    Ok(())
}
