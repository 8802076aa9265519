//! Statements (C90 6.6).

use crate::decl::Decl;
use crate::expr::{Expr, Word};

/// A statement (C90 6.6). Its token is its first, but that of an expression statement is its expression's first.
#[cycle(stmt)]
pub enum Stmt {
    /// A compound statement (6.6.2).
    Block(Block),
    /// An expression and `;` (6.6.3).
    Expression(Expr),
    /// A `;` alone (6.6.3).
    Empty {
        token: usize,
    },
    /// A statement with the labels before it (6.6.1).
    Labeled {
        labels: Vec<Label>,
        statement: Box<Stmt>,
    },
    /// An `if`, each `else if` directly behind it, and the last `else` where there is one (6.6.4.1).
    If {
        token: usize,
        condition: Expr,
        chosen: Box<Stmt>,
        else_ifs: Vec<ElseIf>,
        otherwise: Option<Box<Stmt>>,
    },
    /// 6.6.4.2
    Switch {
        token: usize,
        value: Expr,
        body: Box<Stmt>,
    },
    /// 6.6.5.1
    While {
        token: usize,
        condition: Expr,
        body: Box<Stmt>,
    },
    /// 6.6.5.2
    Do {
        token: usize,
        body: Box<Stmt>,
        condition: Expr,
    },
    /// 6.6.5.3
    For {
        token: usize,
        start: Option<Expr>,
        condition: Option<Expr>,
        step: Option<Expr>,
        body: Box<Stmt>,
    },
    /// 6.6.6.1
    Goto {
        token: usize,
        label: Word,
    },
    /// 6.6.6.2
    Continue {
        token: usize,
    },
    /// 6.6.6.3
    Break {
        token: usize,
    },
    /// 6.6.6.4
    Return {
        token: usize,
        value: Option<Expr>,
    },
}

/// Declarations and then statements in braces (C90 6.6.2), at the `{`.
#[cycle(stmt)]
pub struct Block {
    pub token: usize,
    pub declarations: Vec<Decl>,
    pub statements: Vec<Stmt>,
}

/// `else if`, its condition and its statement, at the `if`.
#[cycle(stmt)]
pub struct ElseIf {
    pub token: usize,
    pub condition: Expr,
    pub chosen: Stmt,
}

/// A label (C90 6.6.1), at its first token.
pub enum Label {
    /// `case` and its value.
    Case { token: usize, value: Expr },
    /// `default`.
    Default { token: usize },
    /// An identifier, which a `goto` can name.
    Name(Word),
}

impl Drop for Stmt {
    #[cycle(drop_stmt)]
    fn drop(self) {
        match self {
            Stmt::Block(_) => {}
            Stmt::Expression(_) => {}
            Stmt::Empty { token: _ } => {}
            Stmt::Labeled {
                labels: _,
                statement: _,
            } => {}
            Stmt::If {
                token: _,
                condition: _,
                chosen: _,
                else_ifs: _,
                otherwise: _,
            } => {}
            Stmt::Switch {
                token: _,
                value: _,
                body: _,
            } => {}
            Stmt::While {
                token: _,
                condition: _,
                body: _,
            } => {}
            Stmt::Do {
                token: _,
                body: _,
                condition: _,
            } => {}
            Stmt::For {
                token: _,
                start: _,
                condition: _,
                step: _,
                body: _,
            } => {}
            Stmt::Goto { token: _, label: _ } => {}
            Stmt::Continue { token: _ } => {}
            Stmt::Break { token: _ } => {}
            Stmt::Return { token: _, value: _ } => {}
        }
    }
}

impl Drop for Block {
    #[cycle(drop_stmt)]
    fn drop(self) {
        let Block {
            token: _,
            declarations: _,
            statements: _,
        } = self;
    }
}

impl Drop for ElseIf {
    #[cycle(drop_stmt)]
    fn drop(self) {
        let ElseIf {
            token: _,
            condition: _,
            chosen: _,
        } = self;
    }
}

impl Drop for Label {
    fn drop(self) {
        match self {
            Label::Case { token: _, value: _ } => {}
            Label::Default { token: _ } => {}
            Label::Name(_) => {}
        }
    }
}
