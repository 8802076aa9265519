//! Loops (ISO C90 6.6.5). What is no loop is left at its top.

ghost use Rattle.std.specs.Prelude.{◌≡◌, option_map, true};
ghost use Rattle.pw_typed.specs.Views.{view_expr, view_optional, view_stmt};
ghost use Rattle.pw_cmean.specs.Acts.{give};
ghost use Rattle.pw_cmean.specs.Evaluation.{Calls, Env};
ghost use Rattle.pw_cmean.specs.Execution as execution;
ghost use Rattle.pw_cmean.specs.SourceRun.{calls};
ghost use Rattle.pw_interp_todo.specs.Flows.{view_entry};
ghost use Rattle.pw_interp_todo.specs.Going.{Leaves};
ghost use Rattle.pw_interp_todo.specs.Loops as loops;
ghost use Rattle.pw_interp_entries.specs.Looping as spec;
ghost use Rattle.pw_interp_entries.specs.Orders.{in_turn};
ghost use Rattle.pw_interp_entries.specs.Looping.{body_act, counting_act, met_act};

use pw_interp_todo::{Asked, Doing, Done, Entry, Flow, Going, Part, Purpose, Remainder, Turn, Use};
use pw_typed::{TExpr, TStmt, TStmtForm};

/// What a loop tests at its top: a condition, nothing, or a condition that may be left out; what is no loop is left there.
#[derive(Clone, Copy)]
enum Ahead<'a> {
    Condition(&'a TExpr),
    Always,
    Optional(&'a Option<TExpr>),
    Never,
}

/// What stands behind the body of a loop: a condition, nothing, or an expression that may be left out.
#[derive(Clone, Copy)]
enum Tail<'a> {
    Condition(&'a TExpr),
    Always,
    Third(&'a Option<TExpr>),
    Never,
}

/// What is tested at the top of a loop.
#[tactic(auto, unfolding(pw_typed::specs::Views::view_stmt_form), using(pw_typed::proofs::Rows::block_view, pw_typed::proofs::Rows::if_view))]
fn ahead_in<'a>(s: &'a TStmt) -> Ahead<'a>
    ensures { (e : Env) (cs : Calls) → spec.ahead_act result e cs ≡ loops.ahead_of (view_stmt s.now) e cs }
{
    match &s.form {
        TStmtForm::While(c, _) => Ahead::Condition(c),
        TStmtForm::Do(_, _) => Ahead::Always,
        TStmtForm::For(_, c, _, _) => Ahead::Optional(c),
        _ => Ahead::Never,
    }
}

/// What stands behind the body of a loop.
#[tactic(auto, unfolding(pw_typed::specs::Views::view_stmt_form), using(pw_typed::proofs::Rows::block_view, pw_typed::proofs::Rows::if_view))]
fn tail_in<'a>(s: &'a TStmt) -> Tail<'a>
    ensures { (e : Env) (cs : Calls) → spec.tail_act result e cs ≡ loops.behind_of (view_stmt s.now) e cs }
{
    match &s.form {
        TStmtForm::While(_, _) => Tail::Always,
        TStmtForm::Do(_, c) => Tail::Condition(c),
        TStmtForm::For(_, _, third, _) => Tail::Third(third),
        _ => Tail::Never,
    }
}

/// The body of a loop; what is no loop has none.
#[tactic(auto, unfolding(pw_typed::specs::Views::view_stmt_form), using(pw_typed::proofs::Rows::block_view, pw_typed::proofs::Rows::if_view))]
fn body_in<'a>(s: &'a TStmt) -> Option<&'a TStmt>
    ensures { option_map (λ b. view_stmt b.now) result ≡ spec.body_in (view_stmt s.now) }
{
    match &s.form {
        TStmtForm::While(_, body) | TStmtForm::Do(body, _) => Some(body),
        TStmtForm::For(_, _, _, body) => Some(body),
        _ => None,
    }
}

/// The body of a loop, met there, behind which the loop goes on.
pub fn turn<'a>(s: &'a TStmt, at: Entry) -> Going<'a>
    ensures { Leaves (λ e n. body_act (view_stmt s.now) e (view_entry at) (calls e.world n)) result }
{
    match body_in(s) {
        Some(body) => {
            let doing = Doing {
                part: Part::Whole,
                of: body,
                at,
            };
            let rest = Remainder {
                done: Done::Body,
                of: s,
            };
            Going::Then(doing, rest)
        }
        None => Going::Left(Flow::Normal),
    }
}

/// A loop from its top, which tests a condition there.
fn test<'a>(s: &'a TStmt, c: &'a TExpr) -> Going<'a>
    ensures { Leaves (λ e n. in_turn (execution.condition (view_expr c.now) (calls e.world n) e) (loops.turn_or_leave (view_stmt s.now) e (calls e.world n))) result }
{
    let given = Use {
        purpose: Purpose::Ahead(c.token),
        of: s,
    };
    Going::Ask(Asked::Answer(c), given)
}

/// A `for` from its top, whose condition may be left out.
fn test_some<'a>(s: &'a TStmt, c: &'a Option<TExpr>) -> Going<'a>
    ensures { Leaves (λ e n. in_turn (execution.for_condition (view_optional c.now) (calls e.world n) e) (loops.turn_or_leave (view_stmt s.now) e (calls e.world n))) result }
{
    match c {
        Some(c) => test(s, c),
        None => turn(s, Entry::Front),
    }
}

/// How a loop goes on at the beginning of a turn (C90 6.6.5): `while` and `for` ask for their condition, where they
/// have one, `do` and a `for` without one enter the body, and what is no loop is left.
pub fn top<'a>(s: &'a TStmt) -> Going<'a>
    ensures { Leaves (λ e n. loops.loop_act (view_stmt s.now) e (calls e.world n)) result }
{
    match ahead_in(s) {
        Ahead::Condition(c) => test(s, c),
        Ahead::Always => turn(s, Entry::Front),
        Ahead::Optional(c) => test_some(s, c),
        Ahead::Never => Going::Left(Flow::Normal),
    }
}

/// A loop that is met at its beginning or at a label in its body.
pub fn met<'a>(s: &'a TStmt, at: Entry) -> Going<'a>
    ensures { Leaves (λ e n. met_act (view_stmt s.now) e (view_entry at) (calls e.world n)) result }
{
    match at {
        Entry::Front => Going::On(
            Turn::Here,
            Doing {
                part: Part::Top,
                of: s,
                at,
            },
        ),
        Entry::AtLabel(_) => turn(s, at),
    }
}

/// A `for` at its beginning: its first part comes, if there is one.
fn counted_front<'a>(s: &'a TStmt, first: &'a Option<TExpr>) -> Going<'a>
    ensures { Leaves (λ e n. counting_act (view_optional first.now) (view_stmt s.now) e execution.Front (calls e.world n)) result }
{
    match first {
        Some(a) => Going::Ask(
            Asked::Answer(a),
            Use {
                purpose: Purpose::First,
                of: s,
            },
        ),
        None => met(s, Entry::Front),
    }
}

/// A `for`, met at its beginning or at a label in its body.
pub fn counted<'a>(s: &'a TStmt, first: &'a Option<TExpr>, at: Entry) -> Going<'a>
    ensures { Leaves (λ e n. counting_act (view_optional first.now) (view_stmt s.now) e (view_entry at) (calls e.world n)) result }
{
    match at {
        Entry::Front => counted_front(s, first),
        Entry::AtLabel(_) => met(s, at),
    }
}

/// Back at the top of a loop, with a bound that is one smaller.
pub fn back<'a>(s: &'a TStmt) -> Going<'a>
    ensures { Leaves (λ e n. loops.top_act (view_stmt s.now) e (calls e.world n)) result }
{
    let doing = Doing {
        part: Part::Top,
        of: s,
        at: Entry::Front,
    };
    Going::On(Turn::Back, doing)
}

/// Behind the body of a loop that tests a condition there.
fn tail_test<'a>(s: &'a TStmt, c: &'a TExpr) -> Going<'a>
    ensures { Leaves (λ e n. in_turn (execution.condition (view_expr c.now) (calls e.world n) e) (loops.top_or_leave (view_stmt s.now) e (calls e.world n))) result }
{
    let given = Use {
        purpose: Purpose::Tail(c.token),
        of: s,
    };
    Going::Ask(Asked::Answer(c), given)
}

/// Behind the body of a `for`, whose third part may be left out.
fn tail_third<'a>(s: &'a TStmt, third: &'a Option<TExpr>) -> Going<'a>
    ensures { Leaves (λ e n. in_turn (in_turn (execution.drop_value (view_optional third.now) (calls e.world n) e) (λ dropped. give true)) (loops.top_or_leave (view_stmt s.now) e (calls e.world n))) result }
{
    match third {
        Some(a) => Going::Ask(
            Asked::Answer(a),
            Use {
                purpose: Purpose::Third,
                of: s,
            },
        ),
        None => back(s),
    }
}

/// Behind the body of a loop.
pub fn tail_of<'a>(s: &'a TStmt) -> Going<'a>
    ensures { Leaves (λ e n. in_turn (loops.behind_of (view_stmt s.now) e (calls e.world n)) (loops.top_or_leave (view_stmt s.now) e (calls e.world n))) result }
{
    match tail_in(s) {
        Tail::Condition(c) => tail_test(s, c),
        Tail::Always => back(s),
        Tail::Third(third) => tail_third(s, third),
        Tail::Never => Going::Left(Flow::Normal),
    }
}
