//! Operands.

use pw_typed::TExpr;

/// An operand: its node, whether it is an lvalue (C90 6.2.2.1), and whether it is one of an object that is
/// declared `register`.
#[derive(Drop)]
pub struct Operand {
    pub node: Box<TExpr>,
    pub lvalue: bool,
    pub register: bool,
}
