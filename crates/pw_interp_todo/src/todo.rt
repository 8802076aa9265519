//! The list of what is left to do in a call of a function, and what is done now.

use crate::asked::{Asked, Callee, Operand};
use crate::flow::Flow;
use crate::statements::{Doing, Remainder, Use};
use pw_typed::TExpr;
use pw_value::Value;

/// What is left to do behind what is done now. Where a number stands that is called `bound`, it is the one with which the run
/// goes on behind a statement: loops and gotos within it lower their own.
#[derive(Clone, Copy)]
pub enum Todo<'a> {
    /// What an expression does with the result of an operand.
    Operand(Operand<'a>),
    /// Behind an argument of a call, which has the token, those behind it.
    Argument(&'a [TExpr], usize),
    /// An argument that has its value.
    Held(Value),
    /// A call, behind its arguments.
    Call(Callee<'a>),
    /// What a statement does with a value.
    Value {
        what: Use<'a>,
        bound: u64,
    },
    /// What is left of a statement behind a part of it.
    Flow {
        what: Remainder<'a>,
        bound: u64,
    },
    /// The object of a local ends, and the local has what it had before.
    EndLocal {
        local: usize,
        number: u128,
        before: Option<u128>,
    },
    /// What comes of a function's body is its result.
    Returned,
    /// The objects of so many parameters end, which have the numbers from one on.
    EndParameters {
        count: u32,
        number: u128,
    },
}

/// What a function of the library does with the input and output of a run: it reads a byte, of which the result is the byte,
/// or -1 at the end of the input (ISO C90 7.9.7.6); or it writes this byte, which is the result (7.9.7.9).
#[derive(Clone, Copy)]
pub enum Transfer {
    /// `getchar`: a byte is read.
    Read,
    /// `putchar`: this byte is written.
    Write(u8),
}

/// What is done now: what is asked; a part of a statement, behind which the run goes on with a bound; the arguments of a
/// call that are left; what was done has given this; or a byte is read or written, which gives a result.
#[derive(Clone, Copy)]
pub enum Control<'a> {
    /// An expression is asked for.
    Ask(Asked<'a>),
    /// A part of a statement is done, behind which the run goes on with the bound.
    Do { what: Doing<'a>, bound: u64 },
    /// The arguments of a call that are left, and the call's token.
    Arguments(&'a [TExpr], usize),
    /// An expression has given this result, or none.
    Gave(Option<Value>),
    /// This came of a part of a statement.
    Flowed(Flow),
    /// All arguments of a call have their values.
    Listed,
    /// A byte is read or written.
    Outside(Transfer),
}
