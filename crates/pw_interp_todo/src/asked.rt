//! What is asked of expressions, and what follows behind their operands (ISO C90 6.3).

use pw_typed::{Symbol, TExpr};
use pw_types::CType;
use pw_value::Value;

/// An expression, of which the result is asked, or the place that it denotes.
#[derive(Clone, Copy)]
pub enum Asked<'a> {
    /// The expression's result is asked for.
    Answer(&'a TExpr),
    /// The place that the expression denotes is asked for.
    Place(&'a TExpr),
}

/// An operand that is evaluated, by what it is for.
#[derive(Clone, Copy)]
pub enum Operand<'a> {
    /// What is evaluated first for what is asked.
    First(Asked<'a>),
    /// The right operand of a binary operator, whose left one has this value.
    Right(&'a TExpr, Value),
    /// The second operand of `&&` or `||`, where the first did not decide.
    Second(&'a TExpr),
    /// The right operand of an assignment to this place; of what is asked of it.
    Assigned(Asked<'a>, Value),
    /// The right operand of an operator with `=`, to this place, whose old value is the second.
    Updated(&'a TExpr, Value, Value),
}

/// What is called with arguments: the function of a name; or what a value points to, at the token of the call, by the
/// value's type.
#[derive(Clone, Copy)]
pub enum Callee<'a> {
    /// The function of this symbol.
    Named(&'a Symbol),
    /// What the value points to: the call's token, the type of the value, and the value.
    Through(usize, &'a CType, Value),
}

/// What is left of an expression: its result; what is asked in its place; an operand, and what follows behind that; or the
/// arguments of a call, which has the token, and the call.
#[derive(Clone, Copy)]
pub enum Next<'a> {
    /// The expression's result, or none.
    Gave(Option<Value>),
    /// What is asked in its place.
    Ask(Asked<'a>),
    /// An operand, and what follows behind it.
    Behind(Asked<'a>, Operand<'a>),
    /// The arguments of a call, the call's token, and what is called.
    Arguments(&'a [TExpr], usize, Callee<'a>),
}
