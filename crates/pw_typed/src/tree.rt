//! The typed tree of a module: what checking makes of its text, and what its meaning and its code are
//! made of. `docs/TYPED-TREE.md` says of each form what the two read of it.
//!
//! Each implicit conversion is a `Cast` and each implicit address of an array or a function a `Decay`.
//! An index `a[i]` is the `Deref` of an `Add`, `p->x` is a `Member` of a `Deref`, `sizeof` is a
//! `Number`, and parentheses leave no node. A node's token is its operator's, counted from 1: of an
//! index both nodes' is the `[`, of a call the `(`, of a member the `.` or `->`, of a number, string or
//! name the token itself, of an implicit `Cast` or a `Decay` that of its operand. A statement's token
//! is its first.

ghost use Rattle.std.specs.Prelude.{◌≡◌, IfOk};
ghost use Rattle.pw_typed.specs.Views.{view_symbol};

use pw_types::{BinaryOperator, CType, LogicOperator, QType, StepOperator, Types, UnaryOperator};
use pw_value::Name;
use std::alloc::{AllocError, Global};

/// An object or function of static lifetime, as the module `m` speaks of it.
#[derive(Drop)]
pub enum Symbol {
    /// By a name that all modules share.
    External(Name),
    /// By a name `x` of the module's own, `m:x` outside it.
    Internal(Name),
    /// The module's static local, string or local brace initialiser of this number, counted from 0 in
    /// the order of the text: `m:.k` outside it.
    Hidden(u32),
}

impl Symbol {
    /// Another symbol of the same name or number.
    pub fn copy(&self, alloc: Global) -> Result<Symbol, AllocError>
        ensures { IfOk result (λ copy. view_symbol copy ≡ view_symbol self.now) }
    {
        match self {
            Symbol::External(name) => Ok(Symbol::External(name.copy(alloc)?)),
            Symbol::Internal(name) => Ok(Symbol::Internal(name.copy(alloc)?)),
            Symbol::Hidden(number) => Ok(Symbol::Hidden(*number)),
        }
    }
}

/// An expression with its type: of an lvalue that of the object, which no `Cast` wraps before it is
/// read.
#[cycle(texpr)]
#[derive(Drop)]
pub struct TExpr {
    pub token: usize,
    pub ty: QType,
    pub form: TForm,
}

/// What an expression is, with its operands.
#[cycle(texpr)]
pub enum TForm {
    /// A word of an integer type.
    Number(u32),
    /// The hidden object of this number, which holds a string.
    Str(u32),
    /// A parameter or local by its place among the function's locals.
    Local(u32),
    /// The object of the symbol.
    Global(Symbol),
    /// The function of the symbol, as the operand of a `Decay` or an `Address`.
    Function(Symbol),
    /// `+`, `-`, `~` or `!` of an operand.
    Unary(UnaryOperator, Box<TExpr>),
    /// An operator on the values of two operands, from left to right.
    Binary(BinaryOperator, Box<TExpr>, Box<TExpr>),
    /// `&&` or `||`, of which the second operand is evaluated only where the first leaves it open.
    Logic(LogicOperator, Box<TExpr>, Box<TExpr>),
    /// `?:`: the condition, and what is chosen where it is not 0 and where it is.
    Cond(Box<TExpr>, Box<TExpr>, Box<TExpr>),
    /// Two operands, of which the first one's value is dropped.
    Comma(Box<TExpr>, Box<TExpr>),
    /// `=`: the lvalue, and the value in the type of the lvalue.
    Assign(Box<TExpr>, Box<TExpr>),
    /// `a op= b`: the type in which the operator works, to which the old value is converted and from
    /// which the new one is; then the lvalue and the right operand.
    Compound(BinaryOperator, CType, Box<TExpr>, Box<TExpr>),
    /// `++` or `--`, before or behind an lvalue.
    Step(StepOperator, Box<TExpr>),
    /// A conversion to the node's type: of the constant 0 to a pointer type it gives the null pointer,
    /// and to void no value.
    Cast(Box<TExpr>),
    /// A pointer to the first element of an array, or to a function.
    Decay(Box<TExpr>),
    /// A member of a structure or union, by its offset in bytes.
    Member(Box<TExpr>, u32),
    /// The place that a pointer points to.
    Deref(Box<TExpr>),
    /// A pointer to the place of an lvalue, or to a function.
    Address(Box<TExpr>),
    /// A call of a function that is named directly.
    Call(Symbol, Vec<TExpr>),
    /// A call through a value, which is a pointer to a function.
    CallValue(Box<TExpr>, Vec<TExpr>),
}

impl Drop for TForm {
    #[cycle(drop_form)]
    fn drop(mut self) {
        loop {
            match self {
                TForm::Number(_n) | TForm::Str(_n) | TForm::Local(_n) => return,
                TForm::Global(_symbol) | TForm::Function(_symbol) => return,
                TForm::Call(_symbol, _args) => return,
                TForm::Unary(_operator, a) => self = form_in(a),
                TForm::Step(_operator, a) => self = form_in(a),
                TForm::Member(a, _offset) => self = form_in(a),
                TForm::Cast(a) | TForm::Decay(a) => self = form_in(a),
                TForm::Deref(a) | TForm::Address(a) => self = form_in(a),
                TForm::Binary(_operator, a, _b) => self = form_in(a),
                TForm::Logic(_operator, a, _b) => self = form_in(a),
                TForm::Compound(_operator, _ty, a, _b) => self = form_in(a),
                TForm::Comma(a, _b) | TForm::Assign(a, _b) => self = form_in(a),
                TForm::Cond(a, _b, _c) => self = form_in(a),
                TForm::CallValue(a, _args) => self = form_in(a),
            }
        }
    }
}

/// The form of an expression.
fn form_in(e: Box<TExpr>) -> TForm
    ensures { result ≡ e.value.form }
{
    let TExpr {
        token: _,
        ty: _,
        form,
    } = Box::into_inner(e);
    form
}

/// A case of a switch: its value as a word, and its label.
#[derive(Clone, Copy)]
pub struct Case {
    pub value: u32,
    pub label: u32,
}

/// The initialiser of a local, by the local's place. It is a part of a declaration and no statement.
#[derive(Drop)]
pub enum Initialiser {
    /// One expression, whose value is stored as an assignment stores it.
    Value(u32, TExpr),
    /// A list in braces or a string: the hidden object that has its bytes, and the expressions that it
    /// is made of, which are constants and are not evaluated. A string among them that initialises an
    /// array is the `Str` of that hidden object.
    Bytes(u32, u32, Vec<TExpr>),
}

/// A statement, with the token at which it is told.
#[cycle(tstmt)]
pub struct TStmt {
    pub token: usize,
    pub form: TStmtForm,
}

/// An `if` or an `else if`: the token of its `if`, its condition and its statement.
#[cycle(tstmt)]
#[derive(Drop)]
pub struct Arm {
    pub token: usize,
    pub condition: TExpr,
    pub body: TStmt,
}

/// The forms of statements. The labels of a function, those of cases and defaults included, are
/// numbered from 0 in the order of the text.
#[cycle(tstmt)]
pub enum TStmtForm {
    /// A statement that does nothing.
    Empty,
    /// An expression, whose value is dropped.
    Expr(TExpr),
    /// A block: as many locals as `count` from the place `first` on live in it; then its initialisers
    /// in order, and then its statements.
    Block {
        first: u32,
        count: u32,
        initialisers: Vec<Initialiser>,
        items: Vec<TStmt>,
    },
    /// An `if` and the `else if`s behind it, of which each is an arm, and what stands behind a last
    /// `else`.
    If(Vec<Arm>, Option<Box<TStmt>>),
    /// A condition, and the body.
    While(TExpr, Box<TStmt>),
    /// The body, and the condition behind it.
    Do(Box<TStmt>, TExpr),
    /// The three expressions, each where there is one, and the body.
    For(Option<TExpr>, Option<TExpr>, Option<TExpr>, Box<TStmt>),
    /// A switch: its value, its cases in the order of the text, the label of its default, its body.
    Switch(TExpr, Vec<Case>, Option<u32>, Box<TStmt>),
    /// A statement behind its labels: of cases, a default or a `goto`, in the order of the text.
    Label(Vec<u32>, Box<TStmt>),
    /// A jump to the label of this number.
    Goto(u32),
    /// Leaves the loop or switch around it.
    Break,
    /// Goes on with the next turn of the loop around it.
    Continue,
    /// A return, with the value in the function's result type where there is one.
    Return(Option<TExpr>),
}

impl Drop for TStmt {
    #[cycle(drop_statement)]
    fn drop(self) {
        let TStmt { token: _, form: _ } = self;
    }
}

impl Drop for TStmtForm {
    #[cycle(drop_statement)]
    fn drop(self) {
        match self {
            TStmtForm::Empty | TStmtForm::Break | TStmtForm::Continue => {}
            TStmtForm::Expr(_) | TStmtForm::Goto(_) | TStmtForm::Return(_) => {}
            TStmtForm::Block {
                first: _,
                count: _,
                initialisers: _,
                items: _,
            } => {}
            TStmtForm::If(_, _) | TStmtForm::While(_, _) | TStmtForm::Do(_, _) => {}
            TStmtForm::For(_, _, _, _) | TStmtForm::Switch(_, _, _, _) => {}
            TStmtForm::Label(_, _) => {}
        }
    }
}

/// A parameter or a local of automatic lifetime. One that is defined const is not writable.
#[derive(Drop)]
pub struct Local {
    pub name: Name,
    pub ty: QType,
    pub writable: bool,
}

/// A function's definition. `token` is its name's. The first `params` of its locals are its parameters;
/// the others follow in the order of declaration. `labels` is the count of its labels, `named` has in
/// order those of them that a `goto` can name, and the body is a block.
#[derive(Drop)]
pub struct TFunction {
    pub name: Symbol,
    pub token: usize,
    pub ty: QType,
    pub params: u32,
    pub locals: Vec<Local>,
    pub labels: u32,
    pub named: Vec<u32>,
    pub body: TStmt,
}

/// A part of an object's initial bytes.
#[derive(Drop)]
pub enum TItem {
    /// These bytes.
    Bytes(Vec<u8>),
    /// The address of an object or function plus a number.
    Address(Symbol, u32),
}

/// An object of static lifetime with its initial bytes: items at rising offsets, and zero elsewhere.
/// Strings and objects that are defined const are not writable.
#[derive(Drop)]
pub struct TGlobal {
    pub name: Symbol,
    pub ty: QType,
    pub writable: bool,
    pub items: Vec<(u32, TItem)>,
}

/// A name that all modules share and that the module declares or defines, with its type.
#[derive(Drop)]
pub struct Declared {
    pub name: Name,
    pub ty: QType,
}

/// A module: its structure and union types, the objects and the functions that it defines in the order
/// of their first definitions, and what it declares in the order of first declarations.
#[derive(Drop)]
pub struct TModule {
    pub types: Types,
    pub globals: Vec<TGlobal>,
    pub functions: Vec<TFunction>,
    pub declared: Vec<Declared>,
}
