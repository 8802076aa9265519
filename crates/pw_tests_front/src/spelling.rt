//! Texts whose trees are spelled out again: each form of a tree stands in one of them. The table of `pw_tests_texts` has the
//! shapes of such trees.

ghost use Rattle.pw_token.specs.Tokenization.{IsLexed};

use crate::modules::{CALCULATOR, Parts, text_of, tokens_of};
use pw_parse::parse;
use pw_token::Token;
use pw_tree::Module;
use pw_tree_spell::{Spelled, spell};
use std::alloc::Global;
use std::test::Fail;

/// Texts of every form: declarations and initializers, expressions, specifiers and declarators, statements.
static TEXTS: [&[u8]; 4] = [
    b"typedef int T ; static const T x [ ] [ 3 ] = { 1 , 2 , } , y ;",
    b"f ( ) { a + b * 2 ; p [ 0 ] ( x , y ) -> m -- ; ( int ) 'c' ; c ? ( sizeof ( int ) , sizeof \"s\" \"t\" ) : 1.5 ; * q <<= L'w' ; }",
    b"union u { int a , b : 3 , : 0 ; } enum { A , B = 7 } struct s enum e ( * volatile g ) ( int , int n , ... ) ; f ( h , i ) { }",
    b"f ( ) { l : case 1 : default : if ( a ) ; else if ( b ) break ; else continue ; { int ; switch ( a ) ; while ( a ) ; do ; while ( a ) ; for ( a ; ; b ) ; } goto l ; return 0 ; return ; }",
];

/// Whether a token of a text is this word.
fn is_token(text: &[u8], token: &Token, word: &Spelled) -> bool {
    let end = token.at.saturating_add(token.len);
    match text.get(token.at..end) {
        Some(bytes) => token.kind == word.kind && bytes == word.text.as_slice(),
        None => false,
    }
}

/// Whether these are the tokens of the text, in its order.
fn are_tokens(text: &[u8], tokens: &[Token], spelled: &[Spelled]) -> bool {
    for (token, word) in tokens.iter().zip(spelled) {
        if !is_token(text, token, word) {
            return false;
        }
    }
    tokens.len() == spelled.len()
}

/// Whether a tree is spelled as these tokens of a text.
fn is_spelling(alloc: Global, text: &[u8], tokens: &[Token], tree: &Module) -> bool {
    match spell(alloc, tree) {
        Ok(spelled) => are_tokens(text, tokens, &spelled),
        Err(_) => false,
    }
}

/// The tree of a text.
fn tree_of(alloc: Global, text: &[u8], tokens: &[Token]) -> Option<Module>
    requires { IsLexed text.now tokens.now }
{
    parse(alloc, text, tokens).ok()
}

/// Whether the tree of tokens is spelled as these.
fn are_spelled(alloc: Global, text: &[u8], tokens: &[Token]) -> bool
    requires { IsLexed text.now tokens.now }
{
    match tree_of(alloc, text, tokens) {
        Some(tree) => is_spelling(alloc, text, tokens, &tree),
        None => false,
    }
}

/// Whether the tree of a text is spelled as the text's tokens.
fn is_spelled(alloc: Global, text: &[u8]) -> bool {
    match tokens_of(alloc, text) {
        Some(tokens) => are_spelled(alloc, text, &tokens),
        None => false,
    }
}

#[test]
fn trees_are_spelled_as_they_were_read(rt: HostRuntime) {
    for (at, text) in TEXTS.iter().enumerate() {
        assert!(rt; is_spelled(rt.alloc(), text), "{at}");
    }
}

#[test]
fn modules_round_trip(rt: HostRuntime) {
    for (text, count) in CALCULATOR.iter() {
        assert!(rt; is_spelled(rt.alloc(), text), "{count}");
    }
}

/// The longest sum that a text may have: 99,998 operands in 199,999 tokens.
static LONGEST: Parts = &[(b"int x=1", 1), (b"+1", 99_997), (b";", 1)];

#[test]
fn the_longest_sum_round_trips(rt: HostRuntime) -> Result<(), Fail> {
    let text = text_of(rt.alloc(), LONGEST)?;
    assert!(rt; is_spelled(rt.alloc(), &text));
    Ok(())
}
