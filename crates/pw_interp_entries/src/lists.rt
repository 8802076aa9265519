//! Lists of statements (ISO C90 6.6.2), arms of an `if` (6.6.4.1), and what takes up gotos (6.6.6.1).

ghost use Rattle.std.specs.Prelude.{◌≡◌, ℕ, true};
ghost use Rattle.pw_types.specs.Labels.{labels_in};
ghost use Rattle.pw_types.specs.TypedTrees.{Arm as AnyArm, OneStatement};
ghost use Rattle.pw_typed.specs.Views.{view_expr, view_stmt};
ghost use Rattle.pw_cmean.specs.Acts.{State};
ghost use Rattle.pw_cmean.specs.Evaluation.{Env};
ghost use Rattle.pw_cmean.specs.Execution as execution;
ghost use Rattle.pw_cmean.specs.SourceRun.{calls};
ghost use Rattle.pw_interp_todo.specs.Flows.{view_entry};
ghost use Rattle.pw_interp_todo.specs.Going.{Leaves};
ghost use Rattle.pw_interp_todo.specs.Members.{arms_from, arms_in as any_arms, members_from, members_in as any_members, otherwise_in as any_otherwise};
ghost use Rattle.pw_interp_todo.specs.Parts.{doing_act, met_arms, once_of, taking_act};
ghost use Rattle.pw_interp_entries.specs.Entering as entering;
ghost use Rattle.pw_interp_entries.specs.Entering.{arm_or_later, is_met};

use crate::contents::{arms_in, members_in, otherwise_in};
use crate::labels::{has_label, holds};
use pw_interp_todo::{Asked, Doing, Done, Entry, Flow, Going, Part, Purpose, Remainder, Turn, Use};
use pw_typed::{Arm, TStmt, TStmtForm};

/// Whether a statement is met: at its beginning, or at a label that stands in it.
fn enters(s: &TStmt, at: Entry) -> bool
    ensures { result ≡ is_met (labels_in (view_stmt s.now)) (view_entry at) }
{
    match at {
        Entry::Front => true,
        Entry::AtLabel(label) => has_label(s, label),
    }
}

/// A member of a statement's list, behind which those from a place on follow; it is met at its beginning, or at a label in it.
fn member<'a>(s: &'a TStmt, first: &'a TStmt, rest: usize, at: Entry) -> Going<'a>
    ensures { Leaves (λ e n. execution.items (OneStatement (view_stmt first.now) (members_from rest (any_members (view_stmt s.now)))) (view_entry at) (calls e.world n) e) result }
{
    if enters(first, at) {
        let doing = Doing {
            part: Part::Whole,
            of: first,
            at,
        };
        let rest = Remainder {
            done: Done::Member(rest),
            of: s,
        };
        Going::Then(doing, rest)
    } else {
        let doing = Doing {
            part: Part::Members(rest),
            of: s,
            at,
        };
        Going::On(Turn::Here, doing)
    }
}

/// The members of a statement's list from a place on; entered at a label, the list starts at the member that holds it.
pub fn members<'a>(s: &'a TStmt, i: usize, at: Entry) -> Going<'a>
    ensures { Leaves (λ e n. execution.items (members_from i (any_members (view_stmt s.now))) (view_entry at) (calls e.world n) e) result }
{
    match members_in(s).get(i) {
        Some(first) => member(s, first, i + 1, at),
        None => Going::Left(Flow::Normal),
    }
}

/// What stands behind the last `else` of an `if`.
fn behind_arms<'a>(s: &'a TStmt, at: Entry) -> Going<'a>
    ensures { Leaves (λ e n. execution.behind_arms (any_otherwise (view_stmt s.now)) (view_entry at) (calls e.world n) e) result }
{
    match otherwise_in(s) {
        Some(last) => {
            let doing = Doing {
                part: Part::Whole,
                of: last,
                at,
            };
            Going::On(Turn::Here, doing)
        }
        None => Going::Left(Flow::Normal),
    }
}

/// An arm of an `if` that is met at a label, behind which those of a place follow: it is met where the label stands in it.
fn arm_at<'a>(s: &'a TStmt, arm: &'a Arm, rest: usize, label: u32) -> Going<'a>
    ensures { Leaves (λ e n. arm_or_later (view_stmt arm.now.body) (arms_from rest (any_arms (view_stmt s.now))) (any_otherwise (view_stmt s.now)) label e (calls e.world n)) result }
{
    let at = Entry::AtLabel(label);
    if has_label(&arm.body, label) {
        let doing = Doing {
            part: Part::Whole,
            of: &arm.body,
            at,
        };
        let rest = Remainder {
            done: Done::Arm(rest),
            of: s,
        };
        Going::Then(doing, rest)
    } else {
        let doing = Doing {
            part: Part::Arms(rest),
            of: s,
            at,
        };
        Going::On(Turn::Here, doing)
    }
}

/// The arm of a place, behind which the others follow; it is met by its condition, or at a label in it.
fn arm<'a>(s: &'a TStmt, first: &'a Arm, i: usize, rest: usize, at: Entry) -> Going<'a>
    ensures { arms_from i (any_arms (view_stmt s.now)) ≡ AnyArm first.now.token (view_expr first.now.condition) (view_stmt first.now.body) (arms_from rest (any_arms (view_stmt s.now)))
        → Leaves (λ e n. met_arms (arms_from i (any_arms (view_stmt s.now))) (any_otherwise (view_stmt s.now)) e (view_entry at) (calls e.world n)) result }
{
    match at {
        Entry::Front => {
            let given = Use {
                purpose: Purpose::Arm(i),
                of: s,
            };
            Going::Ask(Asked::Answer(&first.condition), given)
        }
        Entry::AtLabel(label) => arm_at(s, first, rest, label),
    }
}

/// The arms of an `if` from a place on and what stands behind its last `else`.
pub fn arms<'a>(s: &'a TStmt, i: usize, at: Entry) -> Going<'a>
    ensures { Leaves (λ e n. met_arms (arms_from i (any_arms (view_stmt s.now))) (any_otherwise (view_stmt s.now)) e (view_entry at) (calls e.world n)) result }
{
    match arms_in(s).get(i) {
        Some(first) => arm(s, first, i, i + 1, at),
        None => behind_arms(s, at),
    }
}

/// Behind a label of its own a statement is met at its beginning.
fn behind_labels(labels: &[u32], at: Entry) -> Entry
    ensures { view_entry result ≡ execution.behind_labels labels.now (view_entry at) }
{
    match at {
        Entry::AtLabel(label) if holds(labels, label) => Entry::Front,
        _ => at,
    }
}

/// Whether a statement takes up gotos to labels in it.
#[tactic(auto, unfolding(pw_typed::specs::Views::view_stmt_form), using(pw_typed::proofs::Rows::block_view, pw_typed::proofs::Rows::if_view))]
fn takes_up(s: &TStmt) -> bool
    ensures { result ≡ entering.takes_up (view_stmt s.now) }
{
    matches!(
        &s.form,
        TStmtForm::Block { .. } | TStmtForm::If(_, _) | TStmtForm::Label(_, _)
    )
}

/// What takes up gotos, once.
#[tactic(auto, unfolding(pw_typed::specs::Views::view_stmt_form), using(pw_typed::proofs::Rows::block_view, pw_typed::proofs::Rows::if_view))]
fn once<'a>(s: &'a TStmt, at: Entry) -> Doing<'a>
    requires { entering.takes_up (view_stmt s.now) ≡ true }
    ensures { (e : Env) (n : ℕ) (state : State) → once_of (view_stmt s.now) e (view_entry at) (calls e.world n) state ≡ doing_act result e n state }
{
    match &s.form {
        TStmtForm::Block { .. } => Doing {
            part: Part::Members(0),
            of: s,
            at,
        },
        TStmtForm::If(_, _) => Doing {
            part: Part::Arms(0),
            of: s,
            at,
        },
        TStmtForm::Label(labels, body) => Doing {
            part: Part::Whole,
            at: behind_labels(labels, at),
            of: body,
        },
        _ => unreachable!(),
    }
}

/// What takes up gotos: it is done once, and behind that come those to its labels.
pub fn taking<'a>(s: &'a TStmt, at: Entry) -> Going<'a>
    ensures { Leaves (λ e n. taking_act (view_stmt s.now) e (view_entry at) (calls e.world n)) result }
{
    if takes_up(s) {
        let rest = Remainder {
            done: Done::Taking,
            of: s,
        };
        Going::Then(once(s, at), rest)
    } else {
        Going::Left(Flow::Normal)
    }
}
