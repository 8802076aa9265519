//! The open levels of a text in a fixed place, and their nesting.

ghost use Rattle.std.specs.Prelude.{◌≡◌, ◌≤◌, ◌<◌, ◌+◌, ◌∷◌};
ghost use Rattle.pw_token.specs.Nesting.{is_bracket};

use crate::nesting::NEST_LIMIT;

/// What opened a level.
#[derive(Clone, Copy)]
pub enum Opener {
    /// The text itself, the outermost level.
    Text,
    /// `(`, `[` or `{`.
    Bracket,
    Question,
    Do,
}

/// An open level: what opened it, and how much nesting its expressions and its control words add.
#[derive(Clone, Copy)]
pub struct Level {
    pub opener: Opener,
    pub expressions: usize,
    pub controls: usize,
}

/// The most levels that can stand outside the innermost one: a token is still taken where the nesting is one
/// above the limit, and a token adds at most one.
const ROOM: usize = NEST_LIMIT + 2;

/// The open levels and their nesting. The outer ones begin with the text.
#[derive(Clone, Copy)]
pub struct Levels {
    pub innermost: Level,
    pub outer: [Level; ROOM],
    pub depth: usize,
    pub nest: usize,
}

const TEXT: Level = Level {
    opener: Opener::Text,
    expressions: 0,
    controls: 0,
};

fn is_bracket(opener: Opener) -> bool
    ensures { result ≡ is_bracket opener }
{
    matches!(opener, Opener::Bracket)
}

impl Levels {
    ghost use Rattle.pw_token.specs.Levels.{IsSound, level_room, levels_of, outers};
    ghost use Rattle.pw_token.specs.Nesting.{opened, with_expression, with_control, without_expressions, ended, outer_of, without_questions, without_bracket, start, innermost_is, is_question, is_do};
    ghost use Rattle.std.specs.List.{list_any};

    /// The level of the text itself, in which nothing is open.
    pub fn new() -> Self
        ensures sound { IsSound result }
        ensures levels { levels_of result ≡ start.levels }
    {
        Levels {
            innermost: TEXT,
            outer: [TEXT; ROOM],
            depth: 0,
            nest: 0,
        }
    }

    /// Opens a level inside the innermost one. The nesting rises by one.
    pub fn open(&mut self, opener: Opener)
        requires sound { IsSound self.old }
        requires room { self.old.nest < level_room }
        ensures sound { IsSound self.new }
        ensures levels { levels_of self.new ≡ opened opener (levels_of self.old) }
        ensures rise { self.new.nest ≡ self.old.nest + 1 }
    {
        self.outer[self.depth] = self.innermost;
        self.depth += 1;
        self.innermost = Level {
            opener,
            expressions: 0,
            controls: 0,
        };
        self.nest += 1;
    }

    /// Closes the innermost level, with what its expressions and its control words add.
    pub fn close(&mut self)
        requires sound { IsSound self.old }
        requires inside { 0 < self.old.depth }
        ensures sound { IsSound self.new }
        ensures levels { levels_of self.new ≡ outer_of (levels_of self.old) }
        ensures depth { self.new.depth + 1 ≡ self.old.depth }
        ensures less { self.new.nest < self.old.nest }
    {
        self.nest -= 1 + self.innermost.expressions + self.innermost.controls;
        self.depth -= 1;
        self.innermost = self.outer[self.depth];
    }

    /// Counts a prefix operator or an assignment of the innermost level. The nesting rises by one.
    pub fn add_expression(&mut self)
        requires sound { IsSound self.old }
        requires room { self.old.nest < level_room }
        ensures sound { IsSound self.new }
        ensures levels { levels_of self.new ≡ with_expression (levels_of self.old) }
        ensures rise { self.new.nest ≡ self.old.nest + 1 }
    {
        self.innermost.expressions += 1;
        self.nest += 1;
    }

    /// Counts a control word of the innermost level, behind which a statement stands. The nesting rises by one.
    pub fn add_control(&mut self)
        requires sound { IsSound self.old }
        requires room { self.old.nest < level_room }
        ensures sound { IsSound self.new }
        ensures levels { levels_of self.new ≡ with_control (levels_of self.old) }
        ensures rise { self.new.nest ≡ self.old.nest + 1 }
    {
        self.innermost.controls += 1;
        self.nest += 1;
    }

    /// Forgets the expressions of the innermost level, as behind a comma or a semicolon.
    pub fn clear_expressions(&mut self)
        requires sound { IsSound self.old }
        ensures sound { IsSound self.new }
        ensures levels { levels_of self.new ≡ without_expressions (levels_of self.old) }
        ensures less { self.new.nest ≤ self.old.nest }
    {
        self.nest -= self.innermost.expressions;
        self.innermost.expressions = 0;
    }

    /// What the end of a statement does to the innermost level.
    pub fn end_statement(&mut self, else_follows: bool)
        requires sound { IsSound self.old }
        ensures sound { IsSound self.new }
        ensures levels { levels_of self.new ≡ ended else_follows (levels_of self.old) }
        ensures less { self.new.nest ≤ self.old.nest }
    {
        self.clear_expressions();
        if !else_follows {
            self.nest -= self.innermost.controls;
            self.innermost.controls = 0;
        }
    }

    /// Whether a `?` that waits for its `:` opened the innermost level.
    pub fn is_in_question(&self) -> bool
        ensures { result ≡ innermost_is is_question (levels_of self.now) }
    {
        matches!(self.innermost.opener, Opener::Question)
    }

    /// Whether a `do` that waits for its `while` opened the innermost level.
    pub fn is_in_do(&self) -> bool
        ensures { result ≡ innermost_is is_do (levels_of self.now) }
    {
        matches!(self.innermost.opener, Opener::Do)
    }

    fn is_in_bracket(&self) -> bool
        ensures { result ≡ innermost_is is_bracket (levels_of self.now) }
    {
        is_bracket(self.innermost.opener)
    }

    /// Closes the levels of `?` that stand innermost, up to one that something else opened.
    pub fn close_questions(&mut self)
        requires { IsSound self.old }
        ensures sound { IsSound self.new }
        ensures levels { levels_of self.new ≡ without_questions (levels_of self.old) }
        ensures less { self.new.nest ≤ self.old.nest }
    {
        while self.is_in_question() {
            self.close();
        }
    }

    fn has_outer_bracket(&self) -> bool
        requires { IsSound self.now }
        ensures { result ≡ list_any (λ l. is_bracket l.opener) (outers self.now.outer self.now.depth) }
    {
        let mut at = self.depth;
        while 0 < at {
            at -= 1;
            if is_bracket(self.outer[at].opener) {
                return true;
            }
        }
        false
    }

    fn has_bracket(&self) -> bool
        requires { IsSound self.now }
        ensures { result ≡ list_any (λ l. is_bracket l.opener) (levels_of self.now) }
    {
        self.is_in_bracket() || self.has_outer_bracket()
    }

    /// Closes the innermost level that a bracket opened and all inside it; where no bracket is open, nothing.
    pub fn close_bracket(&mut self)
        requires { IsSound self.old }
        ensures sound { IsSound self.new }
        ensures levels { levels_of self.new ≡ without_bracket (levels_of self.old) }
        ensures less { self.new.nest ≤ self.old.nest }
    {
        if self.has_bracket() {
            while !self.is_in_bracket() {
                self.close();
            }
            self.close();
        }
    }
}
