//! Parts of statements that are done, and what is left of statements behind them (ISO C90 6.6). Each is told by its
//! statement and a place in it, which counts from 0.

use crate::asked::Asked;
use crate::flow::{Entry, Flow};
use pw_typed::TStmt;

/// A part of a statement. A statement that has no such part has an empty one.
#[derive(Clone, Copy)]
pub enum Part {
    /// The statement itself.
    Whole,
    /// A block, so many of whose locals have their objects.
    Locals(u32),
    /// The initialisers of a block from a place on, and then its list.
    Initialisers(usize),
    /// The list of a block, an `if` or a statement with labels, which takes up the gotos to the labels in it.
    Taking,
    /// The members of a block's list from a place on.
    Members(usize),
    /// The arms of an `if` from a place on, and what stands behind its last `else`.
    Arms(usize),
    /// A loop from its top.
    Top,
}

/// A part of a statement that is done, and where it is met.
#[derive(Clone, Copy)]
pub struct Doing<'a> {
    pub part: Part,
    pub of: &'a TStmt,
    pub at: Entry,
}

/// What the value of an expression is for in a statement. A token is that of the expression.
#[derive(Clone, Copy)]
pub enum Purpose {
    /// It is dropped.
    Dropped,
    /// The condition of the arm of this place.
    Arm(usize),
    /// The first part of a `for`.
    First,
    /// The condition at the top of a loop.
    Ahead(usize),
    /// The condition behind the body of a loop.
    Tail(usize),
    /// The third part of a `for`.
    Third,
    /// The value of a switch.
    Switch(usize),
    /// The value of a `return`.
    Return(usize),
    /// The initialiser of this place.
    Initialise(usize),
}

/// What a statement does with the value of an expression.
#[derive(Clone, Copy)]
pub struct Use<'a> {
    pub purpose: Purpose,
    pub of: &'a TStmt,
}

/// A part of a statement that was done.
#[derive(Clone, Copy)]
pub enum Done {
    /// The member of a list before this place.
    Member(usize),
    /// The arm of an `if` before this place.
    Arm(usize),
    /// What takes up gotos.
    Taking,
    /// The body of a loop.
    Body,
    /// The body of a switch.
    Switch,
}

/// What is left of a statement behind a part of it.
#[derive(Clone, Copy)]
pub struct Remainder<'a> {
    pub done: Done,
    pub of: &'a TStmt,
}

/// With which bound the run goes on: with the same, or with one that is one smaller.
#[derive(Clone, Copy)]
pub enum Turn {
    /// With the same bound.
    Here,
    /// With a bound that is one smaller: a loop begins a turn anew, or the run goes to a label.
    Back,
}

/// What is left of a statement: nothing; a part in its place; a part, and what is left behind that; or an expression, and
/// what the statement does with its value.
#[derive(Clone, Copy)]
pub enum Going<'a> {
    /// Nothing is left: this came of the statement.
    Left(Flow),
    /// A part is done in its place, with the bound of this turn.
    On(Turn, Doing<'a>),
    /// A part is done, and then what is left behind it.
    Then(Doing<'a>, Remainder<'a>),
    /// An expression is asked for, and its value is used so.
    Ask(Asked<'a>, Use<'a>),
}
