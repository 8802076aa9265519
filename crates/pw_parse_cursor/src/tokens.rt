//! A cursor over the tokens of a module, with the names in scope.

ghost use Rattle.std.specs.Prelude.{◌≡◌, ◌≢◌, ◌≤◌, ◌+◌, [], ◌∷◌, length, map, take, drop, true, false, Some, Ok, OnOk, IfErr};
ghost use Rattle.pw_token.specs.Limits.{token_limit};
ghost use Rattle.pw_tree.specs.Lexemes.{view_lexeme};
ghost use Rattle.pw_tree.specs.Views.{view_word};
ghost use Rattle.pw_parse_grammar.specs.Input as spec;
ghost use Rattle.pw_parse_grammar.specs.Tests as test;
ghost use Rattle.pw_parse_cursor.specs.Reads.{Reads, unit};
ghost use Rattle.pw_parse_cursor.specs.CursorViews.{view_bindings};

use crate::stop::Stop;
use pw_scope::Scopes;
use pw_tree::{Keyword, Lexeme, Mark, Word};
use std::alloc::Global;
use std::marker::Model;

/// A name, and whether it is a typedef name.
pub type Binding<'a> = (&'a [u8], bool);

/// The tokens that are not read yet, the first one's number, and the names in scope, each with
/// whether it is a typedef name.
#[derive(Drop)]
pub struct Tokens<'a> {
    rest: &'a [Lexeme<'a>],
    next: usize,
    names: Scopes<'a, bool>,
}

impl<'a> Model for Tokens<'a> {
    ghost use Rattle.pw_parse_grammar.specs.Input.{Input};

    ghost Value = { Input };

    ghost use Rattle.pw_parse_cursor.specs.Cursor.{input_of, IsCounted};

    ghost view = { input_of };

    ghost invariant = { IsCounted };
}

#[tactic(auto, unfolding(pw_parse_grammar::specs::Input::same_mark))]
fn same_mark(a: Mark, b: Mark) -> bool
    ensures { result ≡ spec.same_mark a b }
{
    a == b
}

#[tactic(auto, unfolding(pw_parse_grammar::specs::Input::same_keyword))]
fn same_keyword(a: Keyword, b: Keyword) -> bool
    ensures { result ≡ spec.same_keyword a b }
{
    a == b
}

impl<'a> Tokens<'a> {
    /// The tokens from the first one on, with no name in scope. There are no more than a module may have.
    pub fn new(alloc: Global, lexemes: &'a [Lexeme<'a>]) -> Self
        requires { length lexemes.now ≤ token_limit }
        ensures { result ≡ record { names = []; rest = map view_lexeme lexemes.now; next = 1 } }
    {
        Tokens {
            rest: lexemes,
            next: 1,
            names: Scopes::new(alloc),
        }
    }

    /// The next token, `Other` at the end of the text.
    #[tactic(auto, unfolding(pw_parse_grammar::specs::Input::ahead))]
    pub fn peek(&self) -> Lexeme<'a>
        ensures { view_lexeme result ≡ spec.ahead self.now }
    {
        match self.rest.split_first() {
            Some((first, _)) => *first,
            None => Lexeme::Other,
        }
    }

    /// The token behind the next.
    #[tactic(auto, unfolding(pw_parse_grammar::specs::Input::ahead, pw_parse_grammar::specs::Input::step))]
    pub fn peek_second(&self) -> Lexeme<'a>
        ensures { view_lexeme result ≡ spec.ahead (spec.step self.now) }
    {
        match self.rest {
            [_, second, ..] => *second,
            _ => Lexeme::Other,
        }
    }

    /// The number of the next token, counted from 1.
    pub fn here(&self) -> usize
        ensures { result ≡ self.now.next }
    {
        self.next
    }

    /// How many turns a list has at most that reads a token in each turn but the last.
    pub fn turns(&self) -> usize
        ensures { result ≡ spec.turns self.now }
    {
        self.rest.len() + 1
    }

    /// No token is left.
    #[tactic(auto, unfolding(pw_parse_grammar::specs::Input::at_end))]
    pub fn is_at_end(&self) -> bool
        ensures { result ≡ spec.at_end self.now }
    {
        self.rest.is_empty()
    }

    /// Goes behind the next token.
    #[tactic(auto, unfolding(pw_parse_grammar::specs::Input::step))]
    pub fn skip(&mut self)
        ensures { self.new ≡ spec.step self.old }
    {
        if let [_, rest @ ..] = self.rest {
            self.rest = rest;
            self.next += 1;
        }
    }

    /// The next token's number; the token is read.
    pub fn take_number(&mut self) -> usize
        ensures number { result ≡ self.old.next }
        ensures after { self.new ≡ spec.step self.old }
    {
        let number = self.next;
        self.skip();
        number
    }

    /// The next token, which has these bytes.
    pub fn word(&mut self, alloc: Global, text: &[u8]) -> Result<Word, Stop>
        ensures { Reads view_word (spec.word text.now self.old) result self.new }
    {
        let token = self.take_number();
        let text = text.to_vec(alloc)?;
        Ok(Word { token, text })
    }

    /// An identifier, whatever it stands for.
    #[tactic(auto, unfolding(pw_parse_grammar::specs::Input::identifier_by))]
    pub fn identifier(&mut self, alloc: Global) -> Result<Word, Stop>
        ensures { Reads view_word (spec.identifier self.old) result self.new }
    {
        match self.peek() {
            Lexeme::Identifier(text) => self.word(alloc, text),
            _ => Err(Stop::Fault),
        }
    }

    /// Whether this mark stands next.
    #[tactic(auto, unfolding(pw_parse_grammar::specs::Input::sees))]
    pub fn sees(&self, mark: Mark) -> bool
        ensures { result ≡ spec.sees mark self.now }
    {
        match self.peek() {
            Lexeme::Mark(other) => same_mark(other, mark),
            _ => false,
        }
    }

    /// Whether this mark stands behind the next token.
    #[tactic(auto, unfolding(pw_parse_grammar::specs::Input::sees))]
    pub fn sees_second(&self, mark: Mark) -> bool
        ensures { result ≡ spec.sees mark (spec.step self.now) }
    {
        match self.peek_second() {
            Lexeme::Mark(other) => same_mark(other, mark),
            _ => false,
        }
    }

    /// Whether this keyword stands next.
    #[tactic(auto, unfolding(pw_parse_grammar::specs::Input::sees_keyword))]
    pub fn sees_keyword(&self, keyword: Keyword) -> bool
        ensures { result ≡ spec.sees_keyword keyword self.now }
    {
        match self.peek() {
            Lexeme::Keyword(other) => same_keyword(other, keyword),
            _ => false,
        }
    }

    /// Reads a mark if it stands next, and says whether it did.
    #[tactic(auto, unfolding(pw_parse_grammar::specs::Input::past))]
    pub fn eat(&mut self, mark: Mark) -> bool
        ensures found { result ≡ spec.sees mark self.old }
        ensures after { self.new ≡ spec.past mark self.old }
    {
        let found = self.sees(mark);
        if found {
            self.skip();
        }
        found
    }

    /// Reads a keyword if it stands next, and says whether it did.
    #[tactic(auto, unfolding(pw_parse_grammar::specs::Input::past_keyword))]
    pub fn eat_keyword(&mut self, keyword: Keyword) -> bool
        ensures found { result ≡ spec.sees_keyword keyword self.old }
        ensures after { self.new ≡ spec.past_keyword keyword self.old }
    {
        let found = self.sees_keyword(keyword);
        if found {
            self.skip();
        }
        found
    }

    /// Reads a mark, or stops with a fault where it does not stand next. Takes no memory.
    #[tactic(auto, unfolding(pw_parse_grammar::specs::Input::expect))]
    pub fn expect(&mut self, mark: Mark) -> Result<(), Stop>
        ensures reads { Reads unit (spec.expect mark self.old) result self.new }
        ensures no_memory { IfErr result (λ stop. stop ≢ Stop.NoMemory) }
    {
        if self.sees(mark) {
            self.skip();
            Ok(())
        } else {
            Err(Stop::Fault)
        }
    }

    /// Reads a keyword, or stops with a fault where it does not stand next. Takes no memory.
    #[tactic(auto, unfolding(pw_parse_grammar::specs::Input::expect_keyword))]
    pub fn expect_keyword(&mut self, keyword: Keyword) -> Result<(), Stop>
        ensures reads { Reads unit (spec.expect_keyword keyword self.old) result self.new }
        ensures no_memory { IfErr result (λ stop. stop ≢ Stop.NoMemory) }
    {
        if self.sees_keyword(keyword) {
            self.skip();
            Ok(())
        } else {
            Err(Stop::Fault)
        }
    }

    /// Whether an identifier is a typedef name at this place of the text (C90 6.5.6): its visible declaration has
    /// `typedef`.
    #[tactic(auto, unfolding(pw_parse_grammar::specs::Input::is_typedef_name))]
    pub fn is_typedef_name(&self, name: &[u8]) -> bool
        ensures { result ≡ spec.is_typedef_name self.now name.now }
    {
        match self.names.visible(name) {
            Some(is_typedef) => is_typedef,
            None => false,
        }
    }

    /// An identifier that is not visible as a typedef name.
    #[tactic(auto, unfolding(pw_parse_grammar::specs::Input::ordinary_by))]
    pub fn ordinary(&mut self, alloc: Global) -> Result<Word, Stop>
        ensures { Reads view_word (spec.ordinary self.old) result self.new }
    {
        match self.peek() {
            Lexeme::Identifier(text) => {
                if self.is_typedef_name(text) {
                    return Err(Stop::Fault);
                }
                self.word(alloc, text)
            }
            _ => Err(Stop::Fault),
        }
    }

    /// How many declarations are in scope.
    pub fn mark(&self) -> usize
        ensures { result ≡ length self.now.names }
    {
        self.names.len()
    }

    /// Forgets what was declared since a mark.
    pub fn leave(&mut self, mark: usize)
        ensures { spec.leave mark self.old ≡ Ok (tt, self.new) }
    {
        self.names.leave(mark);
    }

    /// Declares a name in the innermost scope, as a typedef name or as another one, or stops for want of memory.
    pub fn declare(&mut self, name: &'a [u8], is_typedef: bool) -> Result<(), Stop>
        ensures { Reads unit (spec.declare (name.now, is_typedef) self.old) result self.new }
    {
        self.names.declare(name, is_typedef)?;
        Ok(())
    }

    /// What was declared since a mark.
    pub fn since(&self, alloc: Global, mark: usize) -> Result<Vec<Binding<'a>>, Stop>
        ensures { Reads view_bindings (spec.since mark self.now) result self.now }
    {
        let declared = self.names.since(alloc, mark)?;
        Ok(declared)
    }
}
