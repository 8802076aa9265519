//! Statements by their forms, and the parts of statements that are done.

ghost use Rattle.std.specs.Prelude.{◌≡◌, ℕ, true, List, Option};
ghost use Rattle.pw_types.specs.TypedTrees as tree;
ghost use Rattle.pw_types.specs.TypedTrees.{CaseValue};
ghost use Rattle.pw_typed.specs.Views.{view_expr, view_optional, view_stmt};
ghost use Rattle.pw_cmean.specs.Execution as execution;
ghost use Rattle.pw_cmean.specs.SourceRun.{calls};
ghost use Rattle.pw_interp_state.specs.Shown.{view_state};
ghost use Rattle.pw_interp_calls.specs.Views.{view_env};
ghost use Rattle.pw_interp_todo.specs.Flows.{view_entry};
ghost use Rattle.pw_interp_todo.specs.Going.{Leaves};
ghost use Rattle.pw_interp_todo.specs.Parts.{doing_act};
ghost use Rattle.pw_interp_todo.specs.Steps.{StepsStatement};
ghost use Rattle.pw_interp_flows.specs.Entering.{has_objects};
ghost use Rattle.pw_interp_flows.specs.Forms.{return_act};

use crate::initialisers::initialisers;
use pw_interp_calls::{Env, Stop};
use pw_interp_entries::{arms, counted, members, met, taking, top};
use pw_interp_state::State;
use pw_interp_todo::{Asked, Doing, Done, Entry, Flow, Going, Part, Purpose, Remainder, Turn, Use};
use pw_typed::{TExpr, TStmt, TStmtForm};
use std::alloc::Global;

/// A switch (ISO C90 6.6.4.2): its value comes, or its body from a label.
fn switch<'a>(s: &'a TStmt, e: &'a TExpr, body: &'a TStmt, at: Entry) -> Going<'a>
    ensures { (t : ℕ) (cases : List CaseValue) (default : Option ℕ) → view_stmt s.now ≡ tree.Switch t (view_expr e.now) cases default (view_stmt body.now)
        → Leaves (λ env n. execution.meaning (view_stmt s.now) (view_entry at) (calls env.world n) env) result }
{
    match at {
        Entry::Front => Going::Ask(
            Asked::Answer(e),
            Use {
                purpose: Purpose::Switch(e.token),
                of: s,
            },
        ),
        Entry::AtLabel(_) => {
            let doing = Doing {
                part: Part::Whole,
                of: body,
                at,
            };
            let rest = Remainder {
                done: Done::Switch,
                of: s,
            };
            Going::Then(doing, rest)
        }
    }
}

/// A `return` (ISO C90 6.6.6.4).
fn returning<'a>(s: &'a TStmt, e: &'a Option<TExpr>) -> Going<'a>
    ensures { Leaves (λ env n. return_act (view_optional e.now) (calls env.world n) env) result }
{
    match e {
        Some(e) => Going::Ask(
            Asked::Answer(e),
            Use {
                purpose: Purpose::Return(e.token),
                of: s,
            },
        ),
        None => Going::Left(Flow::Returns(None)),
    }
}

/// A statement that is met at its beginning or at a label in it (ISO C90 6.6).
fn statement<'a>(s: &'a TStmt, at: Entry) -> Going<'a>
    ensures { Leaves (λ e n. execution.meaning (view_stmt s.now) (view_entry at) (calls e.world n) e) result }
{
    match &s.form {
        TStmtForm::Empty => Going::Left(Flow::Normal),
        TStmtForm::Expr(e) => {
            let purpose = Purpose::Dropped;
            Going::Ask(Asked::Answer(e), Use { purpose, of: s })
        }
        TStmtForm::Block { .. } => {
            let part = Part::Locals(0);
            Going::On(Turn::Here, Doing { part, of: s, at })
        }
        TStmtForm::If(_, _) => {
            let part = Part::Taking;
            Going::On(Turn::Here, Doing { part, of: s, at })
        }
        TStmtForm::Label(_, _) => {
            let part = Part::Taking;
            Going::On(Turn::Here, Doing { part, of: s, at })
        }
        TStmtForm::While(_, _) => met(s, at),
        TStmtForm::Do(_, _) => met(s, at),
        TStmtForm::For(first, _, _, _) => counted(s, first, at),
        TStmtForm::Switch(e, _, _, body) => switch(s, e, body, at),
        TStmtForm::Goto(label) => Going::Left(Flow::Goes(*label)),
        TStmtForm::Break => Going::Left(Flow::Breaks),
        TStmtForm::Continue => Going::Left(Flow::Continues),
        TStmtForm::Return(e) => returning(s, e),
    }
}

/// What is left of a part of a statement that is done. Locals without objects are opened by who knows where the function
/// stands.
pub fn begin<'a>(
    alloc: Global,
    env: &Env<'a>,
    state: &mut State,
    what: Doing<'a>,
) -> Result<Going<'a>, Stop<'a>>
    requires { has_objects what.part ≡ true }
    ensures { StepsStatement (view_env env.now) (doing_act what.entry) (view_state state.old) result (view_state state.new) }
{
    match what.part {
        Part::Whole => Ok(statement(what.of, what.at)),
        Part::Locals(_) => unreachable!(),
        Part::Initialisers(i) => initialisers(alloc, env, state, what.of, i, what.at),
        Part::Taking => Ok(taking(what.of, what.at)),
        Part::Members(i) => Ok(members(what.of, i, what.at)),
        Part::Arms(i) => Ok(arms(what.of, i, what.at)),
        Part::Top => Ok(top(what.of)),
    }
}
