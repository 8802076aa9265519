//! Lowering of statements.

ghost use Rattle.std.specs.Prelude.{◌≡◌, ◌+◌, ◌<◌, ◌≤◌, ◌^◌, ◌||◌, nat_lt, length, OnErr, OnOk, IfOk};
ghost use Rattle.pw_lexpr.specs.Homes.{view_home};
ghost use Rattle.pw_lower.specs.Codes as codes;
ghost use Rattle.pw_lower.specs.Expressions.{lower as lowered};
ghost use Rattle.pw_lower.specs.Statements as spec;
ghost use Rattle.pw_lstmt.specs.Frames.{view_frame, all_joined, arm_closed, arm_code, arm_opened, arms_code, else_code, for_closed, for_opened, join_from, join_of, joins_of};
ghost use Rattle.pw_typed.specs.Views.{view_expr, view_optional, view_stmt, view_stmts, view_arms, view_cases, view_initialisers, view_otherwise};

use pw_flow::End;
use pw_lexpr::cases::{begin_labels, choose, go_on, labels_of};
use pw_lexpr::initialisers::initialise_all;
use pw_lexpr::{Frame, Home, lower};
use pw_lower::code::further;
use pw_lower::{Code, Ways};
use pw_typed::{Arm, Case, Initialiser, TExpr, TStmt, TStmtForm};
use pw_value::NoMemory;
use pw_value::words::{next_word, word_of};
use std::alloc::Global;

/// An expression, for its side effects.
fn evaluate(alloc: Global, home: Home, e: &TExpr, code: &mut Code) -> Result<(), NoMemory>
    ensures { OnOk result (code.new ≡ (lowered (view_home home.entry) (view_expr e.now) code.old).code) }
{
    let _ = lower(alloc, home, e, code)?;
    Ok(())
}

/// An expression that may be left out, for its side effects.
fn effects(alloc: Global, home: Home, e: &Option<TExpr>, code: &mut Code) -> Result<(), NoMemory>
    ensures { OnOk result (code.new ≡ spec.effects (view_home home.entry) (view_optional e.now) code.old) }
{
    match e {
        Some(e) => evaluate(alloc, home, e, code),
        None => Ok(()),
    }
}

/// Goes to the first of two blocks where a condition is not 0, and else to the second; `next` is filled
/// from here on.
fn test(
    alloc: Global,
    home: Home,
    e: &TExpr,
    ways: (u32, u32),
    next: u32,
    depth: u32,
    code: &mut Code,
) -> Result<(), NoMemory>
    ensures { OnOk result (code.new ≡ spec.test (view_home home.entry) (view_expr e.now) ways.0 ways.1 next depth code.old) }
{
    let value = lower(alloc, home, e, code)?;
    let end = End::Branch(value.unwrap_or(0), ways.0, ways.1);
    code.cut(alloc, end, next, depth)
}

/// The same of the condition of a `for`, which may be left out.
fn test_or_go(
    alloc: Global,
    home: Home,
    e: &Option<TExpr>,
    so: u32,
    other: u32,
    depth: u32,
    code: &mut Code,
) -> Result<(), NoMemory>
    ensures { OnOk result (code.new ≡ spec.test_or_go (view_home home.entry) (view_optional e.now) so other depth code.old) }
{
    match e {
        Some(e) => test(alloc, home, e, (so, other), so, depth, code),
        None => code.cut(alloc, End::Jump(so), so, depth),
    }
}

/// Puts the operations and blocks of a statement behind the code so far (C90 6.6); `ways` says where `break` and
/// `continue` go. Fails only for want of memory.
#[cycle(statement)]
pub fn lower_statement(
    alloc: Global,
    frame: Frame,
    ways: Ways,
    s: &TStmt,
    code: &mut Code,
) -> Result<(), NoMemory>
    ensures { OnOk result (code.new ≡ spec.lower_statement (view_frame frame.entry) ways (view_stmt s.now) code.old) }
{
    match &s.form {
        TStmtForm::Empty => Ok(()),
        TStmtForm::Expr(e) => evaluate(alloc, frame.home, e, code),
        TStmtForm::Block {
            initialisers,
            items,
            ..
        } => lower_block(alloc, frame, ways, initialisers, items, code),
        TStmtForm::If(arms, otherwise) => {
            let joins = lower_arms(alloc, frame, ways, arms, otherwise.is_some(), code)?;
            close_if(alloc, frame, ways, otherwise, joins, code)
        }
        TStmtForm::While(e, body) => lower_while(alloc, frame, body, e, code),
        TStmtForm::Do(body, e) => lower_do(alloc, frame, body, e, code),
        TStmtForm::For(first, test, step, body) => {
            lower_for(alloc, frame, first, test, step, body, code)
        }
        TStmtForm::Switch(e, cases, default, body) => {
            lower_switch(alloc, frame, ways, body, e, cases, *default, code)
        }
        TStmtForm::Label(labels, body) => lower_labelled(alloc, frame, ways, labels, body, code),
        TStmtForm::Goto(label) => lower_goto(alloc, *label, code),
        TStmtForm::Break => code.leave(alloc, End::Jump(ways.out)),
        TStmtForm::Continue => code.leave(alloc, End::Jump(ways.on)),
        TStmtForm::Return(e) => lower_return(alloc, frame.home, e, code),
    }
}

/// Lowers a `return`.
fn lower_return(
    alloc: Global,
    home: Home,
    e: &Option<TExpr>,
    code: &mut Code,
) -> Result<(), NoMemory>
    ensures { OnOk result (code.new ≡ spec.returning (view_home home.entry) (view_optional e.now) code.old) }
{
    let value = match e {
        Some(e) => lower(alloc, home, e, code)?,
        None => None,
    };
    code.leave(alloc, End::Return(value))
}

/// Lowers a `goto`.
fn lower_goto(alloc: Global, label: u32, code: &mut Code) -> Result<(), NoMemory>
    ensures { OnOk result (code.new ≡ codes.leave (End.Jump (codes.block_of_label code.old label)) code.old) }
{
    let block = code.block_of_label(label);
    code.leave(alloc, End::Jump(block))
}

/// Lowers a statement behind its labels.
#[cycle(statement)]
fn lower_labelled(
    alloc: Global,
    frame: Frame,
    ways: Ways,
    labels: &[u32],
    body: &TStmt,
    code: &mut Code,
) -> Result<(), NoMemory>
    ensures { OnOk result (code.new ≡ spec.lower_statement (view_frame frame.entry) ways (view_stmt body.now) (spec.begun labels.now code.old)) }
{
    begin_labels(alloc, labels, code)?;
    lower_statement(alloc, frame, ways, body, code)
}

/// Lowers a block.
#[cycle(statement)]
fn lower_block(
    alloc: Global,
    frame: Frame,
    ways: Ways,
    initialisers: &[Initialiser],
    items: &[TStmt],
    code: &mut Code,
) -> Result<(), NoMemory>
    ensures { OnOk result (code.new
        ≡ spec.lower_statements (view_frame frame.entry) ways (view_stmts items.now) (spec.initialised_all (view_frame frame.entry).home (view_frame frame.entry).locals (view_initialisers initialisers.now) code.old)) }
{
    initialise_all(alloc, frame, initialisers, code)?;
    lower_statements(alloc, frame, ways, items, code)
}

/// Lowers statements in order.
#[cycle(statement)]
fn lower_statements(
    alloc: Global,
    frame: Frame,
    ways: Ways,
    all: &[TStmt],
    code: &mut Code,
) -> Result<(), NoMemory>
    ensures { OnOk result (code.new ≡ spec.lower_statements (view_frame frame.entry) ways (view_stmts all.now) code.old) }
{
    for s in all {
        lower_statement(alloc, frame, ways, s, code)?;
    }
    Ok(())
}

/// The condition of an arm, behind which something stands or nothing: its statement's block is filled from
/// here on, and the number of that block, the first of the arm's own, is answered.
fn open_arm(
    alloc: Global,
    home: Home,
    condition: &TExpr,
    is_more: bool,
    code: &mut Code,
) -> Result<u32, NoMemory>
    ensures so { IfOk result (λ so. so ≡ (lowered (view_home home.entry) (view_expr condition.now) code.old).code.blocks) }
    ensures code { OnOk result (code.new ≡ arm_opened is_more (lowered (view_home home.entry) (view_expr condition.now) code.old)) }
{
    let value = lower(alloc, home, condition, code)?;
    let so = code.reserve(if is_more { 3 } else { 2 })?;
    let other = further(so, 1)?;
    code.cut_here(alloc, End::Branch(value.unwrap_or(0), so, other), so)?;
    Ok(so)
}

/// The end of an arm's statement: what stands behind the arm is filled from here on, where anything does,
/// and the block in which the ways join is answered.
fn close_arm(alloc: Global, so: u32, is_more: bool, code: &mut Code) -> Result<u32, NoMemory>
    ensures join { IfOk result (λ join. join ≡ join_from so is_more) }
    ensures code { OnOk result (code.new ≡ arm_closed so is_more code.old) }
{
    let other = further(so, 1)?;
    if !is_more {
        return Ok(other);
    }
    let join = further(so, 2)?;
    code.cut_here(alloc, End::Jump(join), other)?;
    Ok(join)
}

/// An arm, behind which something stands or nothing: the block in which the ways join is answered.
#[cycle(statement)]
fn lower_arm(
    alloc: Global,
    frame: Frame,
    ways: Ways,
    arm: &Arm,
    is_more: bool,
    code: &mut Code,
) -> Result<u32, NoMemory>
    ensures join { IfOk result (λ join. join ≡ join_of (view_frame frame.entry) is_more (view_expr arm.now.condition) code.old) }
    ensures code { OnOk result (code.new
        ≡ arm_code (view_frame frame.entry) ways is_more (view_expr arm.now.condition) (view_stmt arm.now.body) code.old) }
{
    let so = open_arm(alloc, frame.home, &arm.condition, is_more, code)?;
    lower_statement(alloc, frame, ways, &arm.body, code)?;
    close_arm(alloc, so, is_more, code)
}

/// Whether anything stands behind an arm, behind which so many arms are left.
fn is_followed(is_more: bool, left: usize) -> bool
    ensures { result ≡ (is_more || nat_lt 0 left) }
{
    is_more || left > 0
}

/// The arms of an `if`, behind the last of which something stands or nothing: the blocks in which their ways
/// join are answered.
#[cycle(statement)]
fn lower_arms(
    alloc: Global,
    frame: Frame,
    ways: Ways,
    arms: &[Arm],
    is_more: bool,
    code: &mut Code,
) -> Result<Vec<u32>, NoMemory>
    ensures joins { IfOk result (λ joins. joins.items ≡ joins_of (view_frame frame.entry) ways is_more (view_arms arms.now) code.old) }
    ensures code { OnOk result (code.new ≡ arms_code (view_frame frame.entry) ways is_more (view_arms arms.now) code.old) }
{
    let mut joins = Vec::new(alloc);
    let mut left = arms.len();
    for arm in arms {
        left -= 1;
        let is_behind = is_followed(is_more, left);
        let join = lower_arm(alloc, frame, ways, arm, is_behind, code)?;
        joins.push(join)?;
    }
    Ok(joins)
}

/// What stands behind a last `else`, where there is one.
#[cycle(statement)]
fn lower_otherwise(
    alloc: Global,
    frame: Frame,
    ways: Ways,
    otherwise: &Option<Box<TStmt>>,
    code: &mut Code,
) -> Result<(), NoMemory>
    ensures { OnOk result (code.new ≡ else_code (view_frame frame.entry) ways (view_otherwise otherwise.now) code.old) }
{
    match otherwise {
        Some(s) => lower_statement(alloc, frame, ways, s, code),
        None => Ok(()),
    }
}

/// What stands behind the arms of an `if`: a last `else`, where there is one, and the blocks in which the ways of
/// the arms join.
#[cycle(statement)]
fn close_if(
    alloc: Global,
    frame: Frame,
    ways: Ways,
    otherwise: &Option<Box<TStmt>>,
    joins: Vec<u32>,
    code: &mut Code,
) -> Result<(), NoMemory>
    ensures { OnOk result (code.new ≡ all_joined joins.items (else_code (view_frame frame.entry) ways (view_otherwise otherwise.now) code.old)) }
{
    lower_otherwise(alloc, frame, ways, otherwise, code)?;
    close_joins(alloc, joins, code)
}

/// Closes joins from the last to the first.
#[tactic(auto, using(crate::proofs::StatementLaws::joined_more))]
fn close_joins(alloc: Global, mut joins: Vec<u32>, code: &mut Code) -> Result<(), NoMemory>
    ensures { OnOk result (code.new ≡ all_joined joins.items code.old) }
{
    while let Some(join) = joins.pop() {
        code.cut_here(alloc, End::Jump(join), join)?;
    }
    Ok(())
}

/// Lowers a `while`.
#[cycle(statement)]
fn lower_while(
    alloc: Global,
    frame: Frame,
    body: &TStmt,
    e: &TExpr,
    code: &mut Code,
) -> Result<(), NoMemory>
    ensures { OnOk result (code.new
        ≡ spec.looping (view_home frame.entry.home) (view_expr e.now) (λ own d. spec.lower_statement (view_frame frame.entry) own (view_stmt body.now) d) code.old) }
{
    let outer = code.depth;
    let depth = further(outer, 1)?;
    let head = code.reserve(3)?;
    let (inner, out) = (further(head, 1)?, further(head, 2)?);
    code.cut(alloc, End::Jump(head), head, depth)?;
    test(alloc, frame.home, e, (inner, out), inner, depth, code)?;
    lower_statement(alloc, frame, Ways { out, on: head }, body, code)?;
    code.cut(alloc, End::Jump(head), out, outer)
}

/// Lowers a `do`.
#[cycle(statement)]
fn lower_do(
    alloc: Global,
    frame: Frame,
    body: &TStmt,
    e: &TExpr,
    code: &mut Code,
) -> Result<(), NoMemory>
    ensures { OnOk result (code.new
        ≡ spec.repeating (view_home frame.entry.home) (view_expr e.now) (λ own d. spec.lower_statement (view_frame frame.entry) own (view_stmt body.now) d) code.old) }
{
    let outer = code.depth;
    let depth = further(outer, 1)?;
    let inner = code.reserve(3)?;
    let (on, out) = (further(inner, 1)?, further(inner, 2)?);
    code.cut(alloc, End::Jump(inner), inner, depth)?;
    lower_statement(alloc, frame, Ways { out, on }, body, code)?;
    code.cut(alloc, End::Jump(on), on, depth)?;
    test(alloc, frame.home, e, (inner, out), out, outer, code)
}

/// A `for` up to its body. Its blocks are numbered one after another: the head, which is answered, that of
/// the body, that of the third part, and what stands behind the loop.
fn open_for(
    alloc: Global,
    home: Home,
    first: &Option<TExpr>,
    condition: &Option<TExpr>,
    code: &mut Code,
) -> Result<u32, NoMemory>
    ensures head { IfOk result (λ head. head ≡ code.old.blocks) }
    ensures code { OnOk result (code.new ≡ for_opened (view_home home.entry) (view_optional first.now) (view_optional condition.now) code.old) }
{
    let depth = further(code.depth, 1)?;
    let head = code.reserve(4)?;
    effects(alloc, home, first, code)?;
    code.cut(alloc, End::Jump(head), head, depth)?;
    let (inner, out) = (further(head, 1)?, further(head, 3)?);
    test_or_go(alloc, home, condition, inner, out, depth, code)?;
    Ok(head)
}

/// A `for` behind its body, by its head and the depth around it.
fn close_for(
    alloc: Global,
    home: Home,
    third: &Option<TExpr>,
    head: u32,
    outer: u32,
    code: &mut Code,
) -> Result<(), NoMemory>
    ensures { OnOk result (code.new ≡ for_closed (view_home home.entry) (view_optional third.now) head outer code.old) }
{
    let (on, out) = (further(head, 2)?, further(head, 3)?);
    code.cut(alloc, End::Jump(on), on, further(outer, 1)?)?;
    effects(alloc, home, third, code)?;
    code.cut(alloc, End::Jump(head), out, outer)
}

/// Lowers a `for`.
#[cycle(statement)]
fn lower_for(
    alloc: Global,
    frame: Frame,
    first: &Option<TExpr>,
    condition: &Option<TExpr>,
    third: &Option<TExpr>,
    body: &TStmt,
    code: &mut Code,
) -> Result<(), NoMemory>
    ensures { OnOk result (code.new
        ≡ spec.counting (view_home frame.entry.home) (view_optional first.now) (view_optional condition.now) (view_optional third.now) (λ own d. spec.lower_statement (view_frame frame.entry) own (view_stmt body.now) d) code.old) }
{
    let outer = code.depth;
    let head = open_for(alloc, frame.home, first, condition, code)?;
    let (on, out) = (further(head, 2)?, further(head, 3)?);
    lower_statement(alloc, frame, Ways { out, on }, body, code)?;
    close_for(alloc, frame.home, third, head, outer, code)
}

/// Lowers a `switch`.
#[cycle(statement)]
fn lower_switch(
    alloc: Global,
    frame: Frame,
    ways: Ways,
    body: &TStmt,
    e: &TExpr,
    cases: &[Case],
    default: Option<u32>,
    code: &mut Code,
) -> Result<(), NoMemory>
    ensures { OnOk result (code.new
        ≡ spec.switching (view_home frame.entry.home) (view_expr e.now) (view_cases cases.now) default (λ out d. spec.lower_statement (view_frame frame.entry) (record ways { out = out }) (view_stmt body.now) d) code.old) }
{
    let outer = code.depth;
    let out = open_switch(alloc, cases, default, code)?;
    let value = lower(alloc, frame.home, e, code)?;
    choose(alloc, value.unwrap_or(0), cases, code)?;
    go_on(alloc, default, out, code)?;
    lower_statement(alloc, frame, Ways { out, on: ways.on }, body, code)?;
    code.cut(alloc, End::Jump(out), out, outer)
}

/// Numbers the block behind a `switch`, which is answered, and behind it as many as the `switch` has labels. There is
/// no memory for more blocks than 32 bits can count, and for no fewer.
fn reserve_labels(count: usize, code: &mut Code) -> Result<u32, NoMemory>
    ensures out { IfOk result (λ out. out ≡ code.old.blocks) }
    ensures code { OnOk result (code.new ≡ codes.reserve (1 + count) code.old) }
    ensures fits { OnOk result (code.old.blocks + 1 + count < 2 ^ 32) }
    ensures wants { OnErr result (2 ^ 32 ≤ code.old.blocks + 1 + count) }
{
    let blocks = next_word(word_of(count)?)?;
    code.reserve(blocks)
}

/// Numbers the blocks of a `switch`: the one behind it, which is answered, and those of its labels.
fn open_switch(
    alloc: Global,
    cases: &[Case],
    default: Option<u32>,
    code: &mut Code,
) -> Result<u32, NoMemory>
    ensures out { IfOk result (λ out. out ≡ code.old.blocks) }
    ensures code { OnOk result (code.new
        ≡ codes.named_from (code.old.blocks + 1) (spec.labels_of (view_cases cases.now) default) (codes.reserve (1 + length (spec.labels_of (view_cases cases.now) default)) code.old)) }
{
    let labels = labels_of(alloc, cases, default)?;
    let out = reserve_labels(labels.len(), code)?;
    code.name_blocks(alloc, &labels, out + 1);
    Ok(out)
}
