//! The shapes of statements.

use crate::shape::Shape;
use pw_tree::{Block, ElseIf, Expr, Label, Stmt};

impl Shape {
    #[cycle(stmt)]
    fn stmt(&mut self, stmt: &Stmt) {
        match stmt {
            Stmt::Block(block) => return self.block(block),
            Stmt::Expression(value) => self.open_expr(b"expression", value),
            Stmt::Empty { .. } => self.open(b"empty"),
            Stmt::Labeled { labels, statement } => {
                self.open_labels(labels);
                self.stmt(statement);
            }
            Stmt::If {
                condition,
                chosen,
                else_ifs,
                otherwise,
                ..
            } => {
                self.open_expr(b"if", condition);
                self.stmt(chosen);
                self.else_ifs(else_ifs);
                self.otherwise(otherwise);
            }
            Stmt::Switch { value, body, .. } => {
                self.open_expr(b"switch", value);
                self.stmt(body);
            }
            Stmt::While {
                condition,
                body,
                ..
            } => {
                self.open_expr(b"while", condition);
                self.stmt(body);
            }
            Stmt::Do {
                body,
                condition,
                ..
            } => {
                self.open(b"do");
                self.stmt(body);
                self.expr(condition);
            }
            Stmt::For {
                start,
                condition,
                step,
                body,
                ..
            } => {
                self.open_for(start, condition, step);
                self.stmt(body);
            }
            Stmt::Goto { label, .. } => return self.word_of(b"goto", label),
            Stmt::Continue { .. } => self.open(b"continue"),
            Stmt::Break { .. } => self.open(b"break"),
            Stmt::Return { value, .. } => self.open_return(value),
        }
        self.close();
    }

    /// The beginning of a statement with labels, and the labels.
    fn open_labels(&mut self, labels: &[Label]) {
        self.open(b"labeled");
        for label in labels {
            self.label(label);
        }
    }

    fn label(&mut self, label: &Label) {
        match label {
            Label::Case { value, .. } => self.expr_of(b"case", value),
            Label::Default { .. } => self.leaf(b"default"),
            Label::Name(name) => self.word_of(b"label", name),
        }
    }

    #[cycle(stmt)]
    fn else_ifs(&mut self, else_ifs: &[ElseIf]) {
        for else_if in else_ifs {
            self.open_expr(b"else-if", &else_if.condition);
            self.stmt(&else_if.chosen);
            self.close();
        }
    }

    #[cycle(stmt)]
    fn otherwise(&mut self, otherwise: &Option<Box<Stmt>>) {
        match otherwise {
            Some(otherwise) => {
                self.open(b"else");
                self.stmt(otherwise);
                self.close();
            }
            None => {}
        }
    }

    /// The beginning of a `for`, and its three parts.
    fn open_for(&mut self, start: &Option<Expr>, condition: &Option<Expr>, step: &Option<Expr>) {
        self.open(b"for");
        self.optional(start);
        self.optional(condition);
        self.optional(step)
    }

    fn optional(&mut self, e: &Option<Expr>) {
        match e {
            Some(e) => self.expr(e),
            None => self.absent(),
        }
    }

    /// The beginning of a `return`, and its value where it has one.
    fn open_return(&mut self, value: &Option<Expr>) {
        match value {
            Some(value) => self.open_expr(b"return", value),
            None => self.open(b"return"),
        }
    }

    /// The declarations and the statements, which differ by the kinds of their nodes.
    #[cycle(stmt)]
    pub fn block(&mut self, block: &Block) {
        self.open(b"block");
        self.decls(&block.declarations);
        for statement in &block.statements {
            self.stmt(statement);
        }
        self.close();
    }
}
