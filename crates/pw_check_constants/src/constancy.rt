//! What an expression is as a constant.

/// What an expression is: a constant with its value as a word, no constant expression, or one in which something that
/// is evaluated has no value.
#[derive(Clone, Copy)]
pub enum Constancy {
    /// A constant expression with this value, as a word of its type.
    Known(u32),
    /// No constant expression (C90 6.4).
    NoConstant,
    /// A constant expression of which a part that is evaluated has no value, as a division by 0.
    NoValue,
}
