//! The operators of expressions (C90 6.3).

ghost use Rattle.std.specs.Prelude.{◌≡◌};
ghost use Rattle.pw_tree.specs.Symbols as spec;

use pw_token::Mark;

/// What stands before its operand (C90 6.3.3).
#[derive(Clone, Copy)]
pub enum UnaryOperator {
    /// `&`
    Address,
    /// `*`
    Dereference,
    /// `+`
    Plus,
    /// `-`
    Minus,
    /// `~`
    Complement,
    /// `!`
    Not,
    /// `++`
    Increment,
    /// `--`
    Decrement,
    /// `sizeof`
    Sizeof,
}

/// What stands between two operands and groups to the left (C90 6.3.5 to 6.3.14, 6.3.17).
#[derive(Clone, Copy)]
pub enum BinaryOperator {
    /// `*`
    Multiply,
    /// `/`
    Divide,
    /// `%`
    Remainder,
    /// `+`
    Add,
    /// `-`
    Subtract,
    /// `<<`
    LeftShift,
    /// `>>`
    RightShift,
    /// `<`
    Less,
    /// `>`
    Greater,
    /// `<=`
    LessEqual,
    /// `>=`
    GreaterEqual,
    /// `==`
    Equal,
    /// `!=`
    NotEqual,
    /// `&`
    BitAnd,
    /// `^`
    BitXor,
    /// `|`
    BitOr,
    /// `&&`
    And,
    /// `||`
    Or,
    /// `,`
    Comma,
}

/// An assignment operator (C90 6.3.16).
#[derive(Clone, Copy)]
pub enum AssignOperator {
    /// `=`
    Plain,
    /// `*=`
    Multiply,
    /// `/=`
    Divide,
    /// `%=`
    Remainder,
    /// `+=`
    Add,
    /// `-=`
    Subtract,
    /// `<<=`
    LeftShift,
    /// `>>=`
    RightShift,
    /// `&=`
    BitAnd,
    /// `^=`
    BitXor,
    /// `|=`
    BitOr,
}

/// What stands between a record, or a pointer to one, and a member's name (C90 6.3.2.3).
#[derive(Clone, Copy)]
pub enum Access {
    /// `.`
    Dot,
    /// `->`
    Arrow,
}

/// An increment or a decrement behind its operand (C90 6.3.2.4).
#[derive(Clone, Copy)]
pub enum StepOperator {
    /// `++`
    Increment,
    /// `--`
    Decrement,
}

impl BinaryOperator {
    /// The mark that spells it.
    pub fn mark(self) -> Mark
        ensures { result ≡ spec.binary_mark self }
    {
        match self {
            BinaryOperator::Multiply => Mark::Star,
            BinaryOperator::Divide => Mark::Slash,
            BinaryOperator::Remainder => Mark::Percent,
            BinaryOperator::Add => Mark::Plus,
            BinaryOperator::Subtract => Mark::Minus,
            BinaryOperator::LeftShift => Mark::LeftShift,
            BinaryOperator::RightShift => Mark::RightShift,
            BinaryOperator::Less => Mark::Less,
            BinaryOperator::Greater => Mark::Greater,
            BinaryOperator::LessEqual => Mark::LessEqual,
            BinaryOperator::GreaterEqual => Mark::GreaterEqual,
            BinaryOperator::Equal => Mark::EqualEqual,
            BinaryOperator::NotEqual => Mark::NotEqual,
            BinaryOperator::BitAnd => Mark::Ampersand,
            BinaryOperator::BitXor => Mark::Caret,
            BinaryOperator::BitOr => Mark::Bar,
            BinaryOperator::And => Mark::AndAnd,
            BinaryOperator::Or => Mark::BarBar,
            BinaryOperator::Comma => Mark::Comma,
        }
    }
}

impl AssignOperator {
    /// The mark that spells it.
    pub fn mark(self) -> Mark
        ensures { result ≡ spec.assign_mark self }
    {
        match self {
            AssignOperator::Plain => Mark::Equal,
            AssignOperator::Multiply => Mark::StarEqual,
            AssignOperator::Divide => Mark::SlashEqual,
            AssignOperator::Remainder => Mark::PercentEqual,
            AssignOperator::Add => Mark::PlusEqual,
            AssignOperator::Subtract => Mark::MinusEqual,
            AssignOperator::LeftShift => Mark::LeftShiftEqual,
            AssignOperator::RightShift => Mark::RightShiftEqual,
            AssignOperator::BitAnd => Mark::AmpersandEqual,
            AssignOperator::BitXor => Mark::CaretEqual,
            AssignOperator::BitOr => Mark::BarEqual,
        }
    }
}

impl Access {
    /// The mark that spells it.
    pub fn mark(self) -> Mark
        ensures { result ≡ spec.access_mark self }
    {
        match self {
            Access::Dot => Mark::Dot,
            Access::Arrow => Mark::Arrow,
        }
    }
}

impl StepOperator {
    /// The mark that spells it.
    pub fn mark(self) -> Mark
        ensures { result ≡ spec.step_mark self }
    {
        match self {
            StepOperator::Increment => Mark::Increment,
            StepOperator::Decrement => Mark::Decrement,
        }
    }
}
