//! What tokens are in an expression.

ghost use Rattle.std.specs.Prelude.{◌≡◌, option_map, IfOk};
ghost use Rattle.pw_token.specs.Words.{mark_of};
ghost use Rattle.pw_cpp_condition.specs.Words as spec;

use pw_check_literals::NoMemory;
use pw_cpp_values::{Number, operand_of};
use pw_token::{Mark, TokenKind};
use pw_types::{BinaryOperator, LogicOperator, UnaryOperator};
use std::alloc::Global;

/// An operator between two operands.
#[derive(Clone, Copy)]
pub enum Infix {
    /// An operator that evaluates both operands.
    Binary(BinaryOperator),
    /// `&&` or `||`.
    Logic(LogicOperator),
}

/// A token of an expression: an operand with its number, or a mark.
#[derive(Clone, Copy)]
pub enum Item {
    /// An operand, with its number.
    Operand(Number),
    /// A mark.
    Mark(Mark),
}

fn is_mark(kind: TokenKind) -> bool
    ensures { result ≡ spec.is_mark kind }
{
    matches!(kind, TokenKind::Mark)
}

fn mark_item(bytes: &[u8]) -> Option<Item>
    ensures { result ≡ option_map Item.Mark (mark_of bytes.now) }
{
    match Mark::with_text(bytes) {
        Some(mark) => Some(Item::Mark(mark)),
        None => None,
    }
}

fn operand_item(number: Option<Number>) -> Option<Item>
    ensures { result ≡ option_map Item.Operand number }
{
    match number {
        Some(number) => Some(Item::Operand(number)),
        None => None,
    }
}

/// What a token of a kind with these bytes is, or None where no expression has it.
pub fn item_of(alloc: Global, kind: TokenKind, bytes: &[u8]) -> Result<Option<Item>, NoMemory>
    ensures { IfOk result (λ found. found ≡ spec.item_of kind bytes.now) }
{
    if is_mark(kind) {
        return Ok(mark_item(bytes));
    }
    let number = operand_of(alloc, kind, bytes)?;
    Ok(operand_item(number))
}

/// The operator that a mark spells before an operand.
pub fn prefix_of(mark: Mark) -> Option<UnaryOperator>
    ensures { result ≡ spec.prefix_of mark }
{
    match mark {
        Mark::Plus => Some(UnaryOperator::Plus),
        Mark::Minus => Some(UnaryOperator::Minus),
        Mark::Tilde => Some(UnaryOperator::Complement),
        Mark::Exclamation => Some(UnaryOperator::Not),
        _ => None,
    }
}

/// The operator that a mark spells between two operands.
pub fn infix_of(mark: Mark) -> Option<Infix>
    ensures { result ≡ spec.infix_of mark }
{
    match mark {
        Mark::Star => Some(Infix::Binary(BinaryOperator::Multiply)),
        Mark::Slash => Some(Infix::Binary(BinaryOperator::Divide)),
        Mark::Percent => Some(Infix::Binary(BinaryOperator::Remainder)),
        Mark::Plus => Some(Infix::Binary(BinaryOperator::Add)),
        Mark::Minus => Some(Infix::Binary(BinaryOperator::Subtract)),
        Mark::LeftShift => Some(Infix::Binary(BinaryOperator::ShiftLeft)),
        Mark::RightShift => Some(Infix::Binary(BinaryOperator::ShiftRight)),
        Mark::Less => Some(Infix::Binary(BinaryOperator::Less)),
        Mark::Greater => Some(Infix::Binary(BinaryOperator::Greater)),
        Mark::LessEqual => Some(Infix::Binary(BinaryOperator::LessEqual)),
        Mark::GreaterEqual => Some(Infix::Binary(BinaryOperator::GreaterEqual)),
        Mark::EqualEqual => Some(Infix::Binary(BinaryOperator::Equal)),
        Mark::NotEqual => Some(Infix::Binary(BinaryOperator::NotEqual)),
        Mark::Ampersand => Some(Infix::Binary(BinaryOperator::And)),
        Mark::Caret => Some(Infix::Binary(BinaryOperator::ExclusiveOr)),
        Mark::Bar => Some(Infix::Binary(BinaryOperator::Or)),
        Mark::AndAnd => Some(Infix::Logic(LogicOperator::And)),
        Mark::BarBar => Some(Infix::Logic(LogicOperator::Or)),
        _ => None,
    }
}

/// How tightly an operator binds, from 1 for `||` to 10 for `*`.
pub fn level(op: Infix) -> u8
    ensures { result ≡ spec.level op }
{
    match op {
        Infix::Logic(LogicOperator::Or) => 1,
        Infix::Logic(LogicOperator::And) => 2,
        Infix::Binary(op) => binary_level(op),
    }
}

fn binary_level(op: BinaryOperator) -> u8
    ensures { result ≡ spec.level (Infix.Binary op) }
{
    match op {
        BinaryOperator::Or => 3,
        BinaryOperator::ExclusiveOr => 4,
        BinaryOperator::And => 5,
        BinaryOperator::Equal | BinaryOperator::NotEqual => 6,
        BinaryOperator::Less
        | BinaryOperator::Greater
        | BinaryOperator::LessEqual
        | BinaryOperator::GreaterEqual => 7,
        BinaryOperator::ShiftLeft | BinaryOperator::ShiftRight => 8,
        BinaryOperator::Add | BinaryOperator::Subtract => 9,
        BinaryOperator::Multiply | BinaryOperator::Divide | BinaryOperator::Remainder => 10,
    }
}
