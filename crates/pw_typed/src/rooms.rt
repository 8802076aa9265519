//! The nodes of typed trees, and the room of a function.

ghost use Rattle.std.specs.Prelude.{◌≡◌, ◌+◌, sum_by};
ghost use Rattle.pw_value.specs.Caps.{capped};
ghost use Rattle.pw_types.specs.Rooms as spec;
ghost use Rattle.pw_types.specs.Spines.{others_of};
ghost use Rattle.pw_typed.specs.Views as view;

use crate::spines::first_operand;
use crate::tree::{Arm, Initialiser, Local, TExpr, TForm, TFunction, TStmt, TStmtForm};
use pw_types::{Types, round_up, size};
use pw_value::cap;

/// The room of the function that the program starts with, which calls `main`.
pub const START_ROOM: u64 = 256;

/// What a parameter takes of a function's room beside its local.
pub const PARAMETER_ROOM: u64 = 8;

/// What a node of a function's body takes of its room.
pub const NODE_ROOM: u64 = 16;

/// The numbers of rooms are those that the definitions speak of.
pub fn numbers_of_rooms()
    ensures start { START_ROOM ≡ spec.start_room }
    ensures parameter { PARAMETER_ROOM ≡ spec.parameter_room }
    ensures node { NODE_ROOM ≡ spec.node_room }
{}

/// The count of the nodes of an expression; the greatest u64 where there are more.
#[cycle(nodes)]
#[tactic(auto, using(crate::proofs::NodeLemmas::nodes_split))]
pub fn expr_nodes(e: &TExpr) -> u64
    ensures { result ≡ capped (spec.expr_nodes (view.view_expr e.now)) }
{
    let mut node = e;
    let mut nodes = one_more(other_nodes(e), 0);
    while let Some(first) = first_operand(node) {
        nodes = one_more(nodes, other_nodes(first));
        node = first;
    }
    nodes
}

/// The count of the nodes of the operands behind the first one, as far as 64 bits can tell it.
#[cycle(nodes)]
#[tactic(auto, unfolding(crate::specs::Views::view_form))]
fn other_nodes(e: &TExpr) -> u64
    ensures { result ≡ capped (spec.nodes_of_all (others_of (view.view_expr e.now))) }
{
    match &e.form {
        TForm::Number(_) | TForm::Str(_) | TForm::Local(_) => 0,
        TForm::Global(_) | TForm::Function(_) => 0,
        TForm::Unary(_, _) | TForm::Step(_, _) | TForm::Member(_, _) => 0,
        TForm::Cast(_) | TForm::Decay(_) | TForm::Deref(_) | TForm::Address(_) => 0,
        TForm::Binary(_, _, b) | TForm::Logic(_, _, b) | TForm::Compound(_, _, _, b) => {
            expr_nodes(b)
        }
        TForm::Comma(_, b) | TForm::Assign(_, b) => expr_nodes(b),
        TForm::Cond(_, b, c) => expr_nodes(b).saturating_add(expr_nodes(c)),
        TForm::Call(_, args) => nodes_of_all(args),
        TForm::CallValue(_, args) => nodes_of_all(args),
    }
}

/// The count of the nodes of several expressions, as far as 64 bits can tell it.
#[cycle(nodes)]
fn nodes_of_all(all: &[TExpr]) -> u64
    ensures { result ≡ capped (spec.nodes_of_all (view.view_exprs all.now)) }
{
    let mut nodes: u64 = 0;
    for e in all {
        nodes = nodes.saturating_add(expr_nodes(e));
    }
    nodes
}

/// One node and those of its parts.
fn one_more(a: u64, b: u64) -> u64
    ensures { result ≡ capped (1 + a + b) }
{
    a.saturating_add(b).saturating_add(1)
}

/// The count of the nodes of a statement; the greatest u64 where there are more.
#[cycle(stmt_nodes)]
#[tactic(auto, unfolding(crate::specs::Views::view_stmt_form))]
pub fn stmt_nodes(s: &TStmt) -> u64
    ensures { result ≡ capped (spec.stmt_nodes (view.view_stmt s.now)) }
{
    match &s.form {
        TStmtForm::Empty | TStmtForm::Goto(_) | TStmtForm::Break | TStmtForm::Continue => 1,
        TStmtForm::Expr(e) => one_more(expr_nodes(e), 0),
        TStmtForm::Return(e) => one_more(optional_nodes(e), 0),
        TStmtForm::Block {
            initialisers,
            items,
            ..
        } => one_more(
            nodes_of_initialisers(initialisers),
            nodes_of_statements(items),
        ),
        TStmtForm::If(arms, otherwise) => arm_nodes(arms).saturating_add(else_nodes(otherwise)),
        TStmtForm::While(e, body) | TStmtForm::Do(body, e) | TStmtForm::Switch(e, _, _, body) => {
            one_more(expr_nodes(e), stmt_nodes(body))
        }
        TStmtForm::For(first, test, step, body) => {
            one_more(nodes_of_three(first, test, step), stmt_nodes(body))
        }
        TStmtForm::Label(labels, body) => (labels.len() as u64).saturating_add(stmt_nodes(body)),
    }
}

/// The count of the nodes of the arms of an `if`, as far as 64 bits can tell it.
#[cycle(stmt_nodes)]
fn arm_nodes(arms: &[Arm]) -> u64
    ensures { result ≡ capped (spec.arm_nodes (view.view_arms arms.now)) }
{
    let mut nodes: u64 = 0;
    for arm in arms {
        let more = one_more(expr_nodes(&arm.condition), stmt_nodes(&arm.body));
        nodes = nodes.saturating_add(more);
    }
    nodes
}

/// The count of the nodes of what stands behind a last `else`, as far as 64 bits can tell it.
#[cycle(stmt_nodes)]
fn else_nodes(otherwise: &Option<Box<TStmt>>) -> u64
    ensures { result ≡ capped (spec.else_nodes (view.view_otherwise otherwise.now)) }
{
    match otherwise {
        Some(s) => stmt_nodes(s),
        None => 0,
    }
}

/// The count of the nodes of several statements, as far as 64 bits can tell it.
#[cycle(stmt_nodes)]
fn nodes_of_statements(all: &[TStmt]) -> u64
    ensures { result ≡ capped (spec.nodes_of_statements (view.view_stmts all.now)) }
{
    let mut nodes: u64 = 0;
    for s in all {
        nodes = nodes.saturating_add(stmt_nodes(s));
    }
    nodes
}

/// The count of the nodes of initialisers, as far as 64 bits can tell it.
fn nodes_of_initialisers(all: &[Initialiser]) -> u64
    ensures { result ≡ capped (sum_by spec.initialiser_nodes (view.view_initialisers all.now)) }
{
    let mut nodes: u64 = 0;
    for initialiser in all {
        nodes = nodes.saturating_add(initialiser_nodes(initialiser));
    }
    nodes
}

/// The count of the nodes of an initialiser.
fn initialiser_nodes(initialiser: &Initialiser) -> u64
    ensures { result ≡ capped (spec.initialiser_nodes (view.view_initialiser initialiser.now)) }
{
    match initialiser {
        Initialiser::Value(_, value) => expr_nodes(value),
        Initialiser::Bytes(_, _, parts) => nodes_of_all(parts),
    }
}

/// The count of the nodes of an expression that may be absent.
fn optional_nodes(e: &Option<TExpr>) -> u64
    ensures { result ≡ capped (spec.optional_nodes (view.view_optional e.now)) }
{
    match e {
        Some(e) => expr_nodes(e),
        None => 0,
    }
}

/// The count of the nodes of the head of a `for`.
fn nodes_of_three(a: &Option<TExpr>, b: &Option<TExpr>, c: &Option<TExpr>) -> u64
    ensures { result
        ≡ capped (spec.optional_nodes (view.view_optional a.now) + spec.optional_nodes (view.view_optional b.now) + spec.optional_nodes (view.view_optional c.now)) }
{
    optional_nodes(a)
        .saturating_add(optional_nodes(b))
        .saturating_add(optional_nodes(c))
}

/// The room of a function, which bounds its frame (in bytes): for each local and parameter its size
/// and one byte, rounded up to a multiple of 8; `PARAMETER_ROOM` for each parameter; `NODE_ROOM` for each node of its
/// body; and `START_ROOM`. It is the greatest u64 where it would be more.
pub fn room(types: &Types, f: &TFunction) -> u64
    ensures { result ≡ capped (spec.room_of types.now (view.view_function f.now)) }
{
    let mut room = START_ROOM;
    for local in &f.locals {
        room = room.saturating_add(local_room(types, local));
    }
    room.saturating_add(PARAMETER_ROOM * u64::from(f.params))
        .saturating_add(stmt_nodes(&f.body).saturating_mul(NODE_ROOM))
}

/// What a local or parameter takes, as far as 64 bits can tell it.
fn local_room(types: &Types, local: &Local) -> u64
    ensures { result ≡ capped (spec.local_room types.now (view.view_local local.now)) }
{
    let size = size(types, &local.ty.ty).unwrap_or(0);
    cap(round_up(u128::from(size) + 1, 8))
}
