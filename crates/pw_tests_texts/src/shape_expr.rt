//! The shapes of expressions.

use crate::shape::Shape;
use pw_tree::{Expr, Operation, PostfixOperation, TypeName, UnaryOperator};

/// How an operator before its operand is spelled.
fn unary_text(operator: UnaryOperator) -> &'static [u8] {
    match operator {
        UnaryOperator::Address => b"&",
        UnaryOperator::Dereference => b"*",
        UnaryOperator::Plus => b"+",
        UnaryOperator::Minus => b"-",
        UnaryOperator::Complement => b"~",
        UnaryOperator::Not => b"!",
        UnaryOperator::Increment => b"++",
        UnaryOperator::Decrement => b"--",
        UnaryOperator::Sizeof => b"sizeof",
    }
}

impl Shape {
    /// The shape of an expression.
    #[cycle(shape)]
    pub fn expr(&mut self, e: &Expr) {
        match e {
            Expr::Identifier(word)
            | Expr::Number(word)
            | Expr::Floating(word)
            | Expr::Character(word)
            | Expr::Wide(word) => return self.word(word),
            Expr::Strings(pieces) => self.open_words(b"strings", pieces),
            Expr::Paren { inner, .. } => self.open_expr(b"paren", inner),
            Expr::Postfix {
                operand,
                operations,
            } => {
                self.open_expr(b"postfix", operand);
                self.postfixes(operations);
            }
            Expr::Unary {
                operator,
                operand,
                ..
            } => self.open_expr(unary_text(*operator), operand),
            Expr::SizeofType { named, .. } => self.open_type(b"sizeof", named),
            Expr::Cast { named, operand, .. } => {
                self.open_type(b"cast", named);
                self.expr(operand);
            }
            Expr::Chain { first, rest } => {
                self.open_expr(b"chain", first);
                self.operations(rest);
            }
            Expr::Conditional {
                condition,
                chosen,
                otherwise,
                ..
            } => {
                self.open_expr(b"?", condition);
                self.expr(chosen);
                self.expr(otherwise);
            }
            Expr::Assign {
                operator,
                left,
                right,
                ..
            } => {
                self.open_expr(operator.mark().text(), left);
                self.expr(right);
            }
        }
        self.close();
    }

    /// The beginning of a node of a kind, and an expression.
    #[cycle(shape)]
    pub fn open_expr(&mut self, kind: &[u8], e: &Expr) {
        self.open(kind);
        self.expr(e)
    }

    /// A node of a kind with one expression in it.
    #[cycle(shape)]
    pub fn expr_of(&mut self, kind: &[u8], e: &Expr) {
        self.open_expr(kind, e);
        self.close();
    }

    /// The beginning of a node of a kind, and a type name.
    #[cycle(shape)]
    fn open_type(&mut self, kind: &[u8], named: &TypeName) {
        self.open(kind);
        self.open(b"type");
        self.specifiers(&named.specifiers);
        self.declarator(&named.declarator);
        self.close();
    }

    #[cycle(shape)]
    fn operations(&mut self, operations: &[Operation]) {
        for operation in operations {
            self.mark(operation.operator.mark());
            self.expr(&operation.operand);
        }
    }

    #[cycle(shape)]
    fn postfixes(&mut self, operations: &[PostfixOperation]) {
        for operation in operations {
            self.postfix(operation);
        }
    }

    #[cycle(shape)]
    fn postfix(&mut self, operation: &PostfixOperation) {
        match operation {
            PostfixOperation::Index { index, .. } => self.expr_of(b"index", index),
            PostfixOperation::Call { arguments, .. } => self.call(arguments),
            PostfixOperation::Member { access, name, .. } => {
                self.word_of(access.mark().text(), name)
            }
            PostfixOperation::Step { operator, .. } => self.mark(operator.mark()),
        }
    }

    #[cycle(shape)]
    fn call(&mut self, arguments: &[Expr]) {
        self.open(b"call");
        for argument in arguments {
            self.expr(argument);
        }
        self.close();
    }
}
