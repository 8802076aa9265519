//! The operators of typed trees (ISO C90 6.3).

ghost use Rattle.std.specs.Prelude.{◌≡◌};
ghost use Rattle.pw_types.specs.StepOperators as spec;

/// The unary operators that work on a value alone (C90 6.3.3.3).
#[derive(Clone, Copy)]
pub enum UnaryOperator {
    /// `+`
    Plus,
    /// `-`
    Minus,
    /// `~`
    Complement,
    /// `!`
    Not,
}

/// The binary operators that evaluate both operands and give a value (C90 6.3.5 to 6.3.12).
#[derive(Clone, Copy)]
pub enum BinaryOperator {
    /// `+`
    Add,
    /// `-`
    Subtract,
    /// `*`
    Multiply,
    /// `/`
    Divide,
    /// `%`
    Remainder,
    /// `<<`
    ShiftLeft,
    /// `>>`
    ShiftRight,
    /// `<`
    Less,
    /// `>`
    Greater,
    /// `<=`
    LessEqual,
    /// `>=`
    GreaterEqual,
    /// `==`
    Equal,
    /// `!=`
    NotEqual,
    /// `&`
    And,
    /// `^`
    ExclusiveOr,
    /// `|`
    Or,
}

/// The operators that evaluate their second operand only where the first leaves the value open (C90 6.3.13, 6.3.14).
#[derive(Clone, Copy)]
pub enum LogicOperator {
    /// `&&`
    And,
    /// `||`
    Or,
}

/// The operators `++` and `--`, before and behind their operand.
#[derive(Clone, Copy)]
pub enum StepOperator {
    /// `++` before its operand
    IncrementBefore,
    /// `--` before its operand
    DecrementBefore,
    /// `++` behind its operand
    IncrementBehind,
    /// `--` behind its operand
    DecrementBehind,
}

/// The operator of a step: `++` adds 1 and `--` takes it away.
pub fn step_operator(operator: StepOperator) -> BinaryOperator
    ensures { result ≡ spec.step_operator operator }
{
    match operator {
        StepOperator::IncrementBefore | StepOperator::IncrementBehind => BinaryOperator::Add,
        StepOperator::DecrementBefore | StepOperator::DecrementBehind => BinaryOperator::Subtract,
    }
}
