//! Cases of pw_typed: nodes and rooms that were counted by hand, and trees as deep as texts of C make
//! them, which are built, counted and dropped without running out of stack.

use crate::cases::Case;
use pw_rows::Text;
use pw_typed::{
    Arm, BinaryOperator, Initialiser, Local, Symbol, TExpr, TForm, TFunction, TStmt, TStmtForm,
    expr_nodes, first_operand, room, spine, stmt_nodes,
};
use pw_types::{CType, IntKind, QType, Signature, Types};
use pw_value::Name;
use std::alloc::Global;
use std::process::Abort;

/// What is asked of a tree.
pub(crate) enum TreeCase {
    /// The room of a function in a module without records, by its body. With 0 operands the function is
    ///
    ///     int f(int n){char a[5]; int k = n + 1; switch (k) {case 1: return 7;} return 0;}
    ///
    /// and else one with the same locals and `return 1 + 1 + ..` of so many operands in it.
    Room(u32),
    /// The nodes of `1 + 1 + ..` with so many operands, how many of them stand along its left edge, and
    /// whether the last of these has no operand.
    Chain(u32),
    /// The nodes of `if (1) ; else if (1) ; .. else ;` with so many arms.
    Arms(u32),
    /// The nodes of `case ..: case ..: ;` with so many labels.
    Labels(u32),
}

/// Cases and their answers.
///
/// A room has 256; 8 for each of the three locals, whose 4, 5 and 4 bytes and one more are rounded up; 8
/// for the parameter; and 16 for each node. These are in the first function its body; `+`, `n`, `1`; the
/// switch, `k`, its block, the case, a return, `7`; a return, `0`: 12. In the others they are the return
/// and two for each operand but the first. Within the limit on nodes stand 10,000 operands; a constant
/// expression has no such limit. An arm has three nodes, its condition and its statement among them.
pub(crate) static CASES: [(TreeCase, &str); 11] = [
    (TreeCase::Room(0), "480"),
    (TreeCase::Room(1), "320"),
    (TreeCase::Room(100_000), "3200288"),
    (TreeCase::Chain(1), "(1, 1, true)"),
    (TreeCase::Chain(2), "(3, 2, true)"),
    (TreeCase::Chain(10_000), "(19999, 10000, true)"),
    (TreeCase::Chain(100_000), "(199999, 100000, true)"),
    (TreeCase::Arms(1), "4"),
    (TreeCase::Arms(6_600), "19801"),
    (TreeCase::Labels(1), "2"),
    (TreeCase::Labels(19_000), "19001"),
];

impl Case for TreeCase {
    fn answer<R: Abort>(&self, rt: &R, text: &mut Text) {
        match self {
            TreeCase::Room(operands) => push_room(rt, text, *operands),
            TreeCase::Chain(operands) => push_chain(rt, text, *operands),
            TreeCase::Arms(count) => push_nodes(text, arms(rt, text.alloc(), *count)),
            TreeCase::Labels(count) => push_nodes(text, labelled(rt, text.alloc(), *count)),
        }
    }
}

/// Adds how many nodes a statement has.
fn push_nodes(text: &mut Text, form: TStmtForm) {
    text.display(&stmt_nodes(&stmt(form)));
}

/// Adds how many nodes a chain has, how many stand along its left edge, and whether its last has no operand.
fn push_chain(rt: &impl Abort, text: &mut Text, operands: u32) {
    let sum = chain(rt, text.alloc(), operands);
    let edge = spine(text.alloc(), &sum).expect(rt, "memory for an edge");
    let last = *edge.last().expect(rt, "the last of an edge");
    text.debug(&(expr_nodes(&sum), edge.len(), first_operand(last).is_none()));
}

/// The room of a function in a module without records.
fn room_of(alloc: Global, f: &TFunction) -> u64 {
    room(&Types::new(alloc), f)
}

/// Adds the room of a function.
fn push_room(rt: &impl Abort, text: &mut Text, operands: u32) {
    let f = function(rt, text.alloc(), operands);
    text.display(&room_of(text.alloc(), &f));
}

fn plain(ty: CType) -> QType {
    QType {
        ty,
        constant: false,
        volatile: false,
    }
}

fn int() -> QType {
    plain(CType::Int(IntKind::Int))
}

fn expr(form: TForm) -> TExpr {
    TExpr {
        token: 1,
        ty: int(),
        form,
    }
}

fn stmt(form: TStmtForm) -> TStmt {
    TStmt { token: 1, form }
}

fn boxed(rt: &impl Abort, alloc: Global, form: TStmtForm) -> Box<TStmt> {
    Box::new(alloc, stmt(form)).expect(rt, "memory for a statement")
}

/// A list of one thing.
fn list<T>(rt: &impl Abort, alloc: Global, only: T) -> Vec<T> {
    let mut list = Vec::new(alloc);
    list.push(only).expect(rt, "memory for a list");
    list
}

/// An expression plus 1.
fn one_more(rt: &impl Abort, alloc: Global, e: TExpr) -> TExpr {
    let e = Box::new(alloc, e).expect(rt, "memory for an operand");
    let one = Box::new(alloc, expr(TForm::Number(1))).expect(rt, "memory for an operand");
    expr(TForm::Binary(BinaryOperator::Add, e, one))
}

/// `1 + 1 + ..` with so many operands.
fn chain(rt: &impl Abort, alloc: Global, operands: u32) -> TExpr {
    let mut sum = expr(TForm::Number(1));
    for _operand in 1..operands {
        sum = one_more(rt, alloc, sum);
    }
    sum
}

/// An `if` of so many arms.
fn arms(rt: &impl Abort, alloc: Global, count: u32) -> TStmtForm {
    let mut arms = Vec::new(alloc);
    for _arm in 0..count {
        arms.push(arm()).expect(rt, "memory for an arm");
    }
    TStmtForm::If(arms, Some(boxed(rt, alloc, TStmtForm::Empty)))
}

/// `if (1) ;`
fn arm() -> Arm {
    Arm {
        token: 1,
        condition: expr(TForm::Number(1)),
        body: stmt(TStmtForm::Empty),
    }
}

/// A statement behind so many labels.
fn labelled(rt: &impl Abort, alloc: Global, count: u32) -> TStmtForm {
    let labels = Vec::from_iter(alloc, 0..count).expect(rt, "memory for labels");
    TStmtForm::Label(labels, boxed(rt, alloc, TStmtForm::Empty))
}

/// `return` of an expression.
fn answer(e: TExpr) -> TStmtForm {
    TStmtForm::Return(Some(e))
}

/// `case 1: return 7;`
fn labelled_return(rt: &impl Abort, alloc: Global) -> TStmt {
    let seven = boxed(rt, alloc, answer(expr(TForm::Number(7))));
    stmt(TStmtForm::Label(list(rt, alloc, 0), seven))
}

/// `switch (k) {case 1: return 7;}`
fn switch(rt: &impl Abort, alloc: Global) -> TStmt {
    let block = TStmtForm::Block {
        first: 3,
        count: 0,
        initialisers: Vec::new(alloc),
        items: list(rt, alloc, labelled_return(rt, alloc)),
    };
    let cases = list(rt, alloc, pw_typed::Case { value: 1, label: 0 });
    stmt(TStmtForm::Switch(expr(TForm::Local(2)), cases, None, boxed(rt, alloc, block)))
}

/// The body of the function with a switch.
fn body(rt: &impl Abort, alloc: Global) -> TStmtForm {
    let sum = one_more(rt, alloc, expr(TForm::Local(0)));
    let mut items = list(rt, alloc, switch(rt, alloc));
    items
        .push(stmt(answer(expr(TForm::Number(0)))))
        .expect(rt, "memory for a statement");
    TStmtForm::Block {
        first: 1,
        count: 2,
        initialisers: list(rt, alloc, Initialiser::Value(2, sum)),
        items,
    }
}

/// The body of the function, by the operands of its sum.
fn body_of(rt: &impl Abort, alloc: Global, operands: u32) -> TStmtForm {
    if operands == 0 {
        body(rt, alloc)
    } else {
        answer(chain(rt, alloc, operands))
    }
}

/// Five chars, or an int.
fn type_of(rt: &impl Abort, alloc: Global, is_array: bool) -> QType {
    if !is_array {
        return int();
    }
    let element = plain(CType::Int(IntKind::Char));
    plain(CType::Array(
        Box::new(alloc, element).expect(rt, "memory for a type"),
        Some(5),
    ))
}

/// `n`, `a` and `k`, and which is an array.
static LOCALS: [(&[u8], bool); 3] = [(b"n", false), (b"a", true), (b"k", false)];

fn local(rt: &impl Abort, alloc: Global, name: &[u8], is_array: bool) -> Local {
    Local {
        name: Name::new(alloc, name).expect(rt, "a name"),
        ty: type_of(rt, alloc, is_array),
        writable: true,
    }
}

fn locals(rt: &impl Abort, alloc: Global) -> Vec<Local> {
    let mut locals = Vec::new(alloc);
    for (name, is_array) in LOCALS.iter() {
        locals
            .push(local(rt, alloc, *name, *is_array))
            .expect(rt, "memory for a local");
    }
    locals
}

/// The type of a function of an int that returns an int.
fn function_type(rt: &impl Abort, alloc: Global) -> QType {
    let signature = Signature {
        result: int(),
        params: list(rt, alloc, int()),
    };
    plain(CType::Function(Box::new(alloc, signature).expect(rt, "memory for a type")))
}

/// The function, by the operands of its sum.
fn function(rt: &impl Abort, alloc: Global, operands: u32) -> Box<TFunction> {
    let f = TFunction {
        name: Symbol::External(Name::new(alloc, b"f").expect(rt, "a name")),
        token: 2,
        ty: function_type(rt, alloc),
        params: 1,
        locals: locals(rt, alloc),
        labels: 1,
        named: Vec::new(alloc),
        body: stmt(body_of(rt, alloc, operands)),
    };
    Box::new(alloc, f).expect(rt, "memory for a function")
}
