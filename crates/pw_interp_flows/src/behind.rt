//! What is left of a statement behind a part of it.

ghost use Rattle.std.specs.Prelude.{◌≡◌, ◌++◌, drop, option_map};
ghost use Rattle.pw_types.specs.Labels.{labels_among, labels_behind, labels_of_arms};
ghost use Rattle.pw_typed.specs.Views.{view_arms, view_stmt, view_stmts};
ghost use Rattle.pw_cmean.specs.Execution as execution;
ghost use Rattle.pw_cmean.specs.SourceRun.{calls};
ghost use Rattle.pw_interp_todo.specs.Flows.{view_flow};
ghost use Rattle.pw_interp_todo.specs.Going as spec;
ghost use Rattle.pw_interp_todo.specs.Going.{Leaves};
ghost use Rattle.pw_interp_todo.specs.Loops.{body_behind};
ghost use Rattle.pw_interp_todo.specs.Members as any;
ghost use Rattle.pw_interp_todo.specs.Parts.{again_act};
ghost use Rattle.pw_interp_flows.specs.Behind as behind;
ghost use Rattle.pw_interp_flows.specs.Behind.{view_onward};
ghost use Rattle.pw_interp_entries.specs.Last.{view_last};

use pw_interp_entries::{
    arms_in, holds, is_among, is_in_if, is_in_rest, members_in, otherwise_in, tail_of,
};
use pw_interp_todo::{Doing, Done, Entry, Flow, Going, Part, Remainder, Turn};
use pw_typed::{Arm, TStmt, TStmtForm};

/// What stands of a list from a place on.
fn from_on<T>(list: &[T], i: usize) -> &[T]
    ensures { result.now ≡ drop i list.now }
{
    if i <= list.len() { &list[i..] } else { &[] }
}

/// Behind a member of a list or an arm of an `if`: where the rest is met, or with what the whole is left.
#[derive(Clone, Copy)]
enum Onward {
    Met(Entry),
    Left(Flow),
}

/// Behind a member of a list: where the rest is met, or with what the list is left.
fn behind_member(rest: &[TStmt], flow: Flow) -> Onward
    ensures { view_onward result ≡ behind.onward (labels_among (view_stmts rest.now)) (view_flow flow) }
{
    match flow {
        Flow::Normal => Onward::Met(Entry::Front),
        Flow::Goes(label) if is_among(rest, label) => Onward::Met(Entry::AtLabel(label)),
        Flow::Breaks | Flow::Continues | Flow::Returns(_) | Flow::Goes(_) => Onward::Left(flow),
    }
}

/// Behind an arm, behind which others stand and what is behind the last `else`: where that is met, or with what the `if` is
/// left.
fn behind_arm(rest: &[Arm], last: Option<&TStmt>, flow: Flow) -> Onward
    ensures { view_onward result ≡ behind.behind_arm (labels_of_arms (view_arms rest.now) ++ labels_behind (view_last last.entry)) (view_flow flow) }
{
    match flow {
        Flow::Goes(label) if is_in_rest(rest, last, label) => Onward::Met(Entry::AtLabel(label)),
        _ => Onward::Left(flow),
    }
}

/// Behind a member of a list: the others from a place on, from their beginning or from a label in them.
fn members<'a>(s: &'a TStmt, i: usize, flow: Flow) -> Going<'a>
    ensures { Leaves (λ e n. spec.members_behind (any.members_from i (any.members_in (view_stmt s.now))) e (calls e.world n) (view_flow flow)) result }
{
    match behind_member(from_on(members_in(s), i), flow) {
        Onward::Met(at) => {
            let doing = Doing {
                part: Part::Members(i),
                of: s,
                at,
            };
            Going::On(Turn::Here, doing)
        }
        Onward::Left(flow) => Going::Left(flow),
    }
}

/// Behind an arm that was met: those behind it from a place on, from a label in them.
fn later_arms<'a>(s: &'a TStmt, i: usize, flow: Flow) -> Going<'a>
    ensures { Leaves (λ e n. spec.arm_behind (any.arms_from i (any.arms_in (view_stmt s.now))) (any.otherwise_in (view_stmt s.now)) e (calls e.world n) (view_flow flow)) result }
{
    match behind_arm(from_on(arms_in(s), i), otherwise_in(s), flow) {
        Onward::Met(at) => {
            let doing = Doing {
                part: Part::Arms(i),
                of: s,
                at,
            };
            Going::On(Turn::Here, doing)
        }
        Onward::Left(flow) => Going::Left(flow),
    }
}

/// Whether a statement takes up gotos to a label.
#[tactic(auto, unfolding(pw_typed::specs::Views::view_stmt_form), using(pw_typed::proofs::Rows::block_view, pw_typed::proofs::Rows::if_view))]
fn takes(s: &TStmt, label: u32) -> bool
    ensures { result ≡ execution.holds (any.taken_in (view_stmt s.now)) label }
{
    match &s.form {
        TStmtForm::Block { items, .. } => is_among(items, label),
        TStmtForm::If(arms, otherwise) => is_in_if(arms, otherwise, label),
        TStmtForm::Label(labels, _) => holds(labels, label),
        _ => false,
    }
}

/// The label to which a goto goes, where a statement takes it up.
fn taken_by(s: &TStmt, flow: Flow) -> Option<u32>
    ensures { result ≡ behind.taken (any.taken_in (view_stmt s.now)) (view_flow flow) }
{
    match flow {
        Flow::Goes(label) if takes(s, label) => Some(label),
        _ => None,
    }
}

/// Behind what takes up gotos: each goes on at its label, with a bound that is one smaller.
fn taken<'a>(s: &'a TStmt, flow: Flow) -> Going<'a>
    ensures { Leaves (λ e n. execution.caught (any.taken_in (view_stmt s.now)) (again_act (view_stmt s.now) e (calls e.world n)) (view_flow flow)) result }
{
    match taken_by(s, flow) {
        Some(label) => {
            let at = Entry::AtLabel(label);
            let doing = Doing {
                part: Part::Taking,
                of: s,
                at,
            };
            Going::On(Turn::Back, doing)
        }
        None => Going::Left(flow),
    }
}

/// With what the body of a loop leaves it; None where what stands behind the body follows.
fn left_by(flow: Flow) -> Option<Flow>
    ensures { option_map view_flow result ≡ behind.left_by (view_flow flow) }
{
    match flow {
        Flow::Normal | Flow::Continues => None,
        Flow::Breaks => Some(Flow::Normal),
        Flow::Returns(_) | Flow::Goes(_) => Some(flow),
    }
}

/// Behind the body of a loop.
fn behind_body<'a>(s: &'a TStmt, flow: Flow) -> Going<'a>
    ensures { Leaves (λ e n. body_behind (view_stmt s.now) e (calls e.world n) (view_flow flow)) result }
{
    match left_by(flow) {
        Some(left) => Going::Left(left),
        None => tail_of(s),
    }
}

/// A `break` in the body of a switch leaves the switch.
fn behind_switch(flow: Flow) -> Flow
    ensures { view_flow result ≡ behind.behind_switch (view_flow flow) }
{
    match flow {
        Flow::Breaks => Flow::Normal,
        _ => flow,
    }
}

/// What is left of a statement behind a part of it, of which this comes.
pub fn remainder<'a>(what: Remainder<'a>, flow: Flow) -> Going<'a>
    ensures { Leaves (λ e n. spec.remainder_act what.entry e n (view_flow flow)) result }
{
    match what.done {
        Done::Member(i) => members(what.of, i, flow),
        Done::Arm(i) => later_arms(what.of, i, flow),
        Done::Taking => taken(what.of, flow),
        Done::Body => behind_body(what.of, flow),
        Done::Switch => Going::Left(behind_switch(flow)),
    }
}
