//! What statements do with the values of expressions.

ghost use Rattle.std.specs.Prelude.{◌≡◌, ◌∷◌, Some, drop, option_map};
ghost use Rattle.pw_value.specs.declared.value.Value.TheVariants.{Num};
ghost use Rattle.pw_typed.specs.Views.{view_cases, view_initialiser, view_stmt};
ghost use Rattle.pw_cmean.specs.Acts.{give};
ghost use Rattle.pw_cmean.specs.Evaluation as meaning;
ghost use Rattle.pw_cmean.specs.Execution as execution;
ghost use Rattle.pw_cmean.specs.SourceRun.{calls};
ghost use Rattle.pw_interp_state.specs.Shown.{view_state};
ghost use Rattle.pw_interp_calls.specs.Views.{view_env};
ghost use Rattle.pw_interp_todo.specs.Going as spec;
ghost use Rattle.pw_interp_todo.specs.Going.{Leaves};
ghost use Rattle.pw_interp_todo.specs.Loops as loops;
ghost use Rattle.pw_interp_todo.specs.Members as any;
ghost use Rattle.pw_interp_todo.specs.Operands as operands;
ghost use Rattle.pw_interp_todo.specs.Steps.{StepsStatement};
ghost use Rattle.pw_interp_flows.specs.Numbers as numbers;
ghost use Rattle.pw_interp_entries.specs.Orders.{in_turn};
ghost use Rattle.pw_interp_flows.specs.Switches as switches;

use pw_interp_acts::used;
use pw_interp_calls::{Env, Stop};
use pw_interp_entries::{arms_in, back, initialisers_in, top, turn};
use pw_interp_functions::set_local;
use pw_interp_state::State;
use pw_interp_todo::{
    Doing, Done, Entry, Flow, Going, Part, Purpose, Remainder, Turn, Use, tested,
};
use pw_typed::{Arm, Case, Initialiser, TStmt, TStmtForm};
use pw_value::Value;
use std::alloc::Global;

/// An arm behind its condition, which holds or not; behind it follow those from a place on.
fn arm_or_rest<'a>(s: &'a TStmt, arm: &'a Arm, rest: usize, met: bool) -> Going<'a>
    ensures { Leaves (λ e n. spec.arm_or_rest (view_stmt arm.now.body) (any.arms_from rest (any.arms_in (view_stmt s.now))) (any.otherwise_in (view_stmt s.now)) e (calls e.world n) met) result }
{
    let at = Entry::Front;
    if met {
        let doing = Doing {
            part: Part::Whole,
            of: &arm.body,
            at,
        };
        let rest = Remainder {
            done: Done::Arm(rest),
            of: s,
        };
        Going::Then(doing, rest)
    } else {
        let doing = Doing {
            part: Part::Arms(rest),
            of: s,
            at,
        };
        Going::On(Turn::Here, doing)
    }
}

/// The condition of the arm of a place gave this.
fn use_in_arm<'a>(
    env: &Env<'a>,
    state: &State,
    s: &'a TStmt,
    i: usize,
    given: Option<Value>,
) -> Result<Going<'a>, Stop<'a>>
    ensures { StepsStatement (view_env env.now) (λ e n. spec.arm_tested (any.arms_from i (any.arms_in (view_stmt s.now))) (any.otherwise_in (view_stmt s.now)) e (calls e.world n) given) (view_state state.now) result (view_state state.now) }
{
    match arms_in(s).get(i) {
        Some(arm) => {
            let met = tested(env, state, arm.condition.token, given)?;
            Ok(arm_or_rest(s, arm, i + 1, met))
        }
        None => Ok(Going::Left(Flow::Normal)),
    }
}

/// A loop behind what is tested at its top, which holds or not.
fn turn_or_leave<'a>(s: &'a TStmt, more: bool) -> Going<'a>
    ensures { Leaves (λ e n. loops.turn_or_leave (view_stmt s.now) e (calls e.world n) more) result }
{
    if more {
        turn(s, Entry::Front)
    } else {
        Going::Left(Flow::Normal)
    }
}

/// A loop behind what stands behind its body: it goes back to its top or not.
fn top_or_leave<'a>(s: &'a TStmt, more: bool) -> Going<'a>
    ensures { Leaves (λ e n. loops.top_or_leave (view_stmt s.now) e (calls e.world n) more) result }
{
    if more {
        back(s)
    } else {
        Going::Left(Flow::Normal)
    }
}

/// The condition at the top of a loop gave this.
fn use_ahead<'a>(
    env: &Env<'a>,
    state: &State,
    token: usize,
    s: &'a TStmt,
    given: Option<Value>,
) -> Result<Going<'a>, Stop<'a>>
    ensures { StepsStatement (view_env env.now) (λ e n. in_turn (operands.tested e token given) (loops.turn_or_leave (view_stmt s.now) e (calls e.world n))) (view_state state.now) result (view_state state.now) }
{
    let more = tested(env, state, token, given)?;
    Ok(turn_or_leave(s, more))
}

/// The condition behind the body of a loop gave this.
fn use_behind<'a>(
    env: &Env<'a>,
    state: &State,
    token: usize,
    s: &'a TStmt,
    given: Option<Value>,
) -> Result<Going<'a>, Stop<'a>>
    ensures { StepsStatement (view_env env.now) (λ e n. in_turn (operands.tested e token given) (loops.top_or_leave (view_stmt s.now) e (calls e.world n))) (view_state state.now) result (view_state state.now) }
{
    let more = tested(env, state, token, given)?;
    Ok(top_or_leave(s, more))
}

/// The number that a value is; None where it is a pointer, or has no value.
fn number_in(value: Value) -> Option<u32>
    ensures { result ≡ numbers.number_in value }
{
    match value {
        Value::Num(n) => Some(n),
        _ => None,
    }
}

/// The label of the first case of a number, else that of the default.
fn label_of(cases: &[Case], default: Option<u32>, n: u32) -> Option<u32>
    ensures { result ≡ execution.label_for (view_cases cases.now) default (Num n) }
{
    for case in cases {
        if case.value == n {
            return Some(case.label);
        }
    }
    default
}

/// The label of the first case that has the value, else that of the default.
fn label_for(cases: &[Case], default: Option<u32>, value: Value) -> Option<u32>
    ensures { result ≡ execution.label_for (view_cases cases.now) default value }
{
    match number_in(value) {
        Some(n) => label_of(cases, default, n),
        None => default,
    }
}

/// A switch behind its value: its body from a label, if there is one.
fn switch_to<'a>(s: &'a TStmt, label: Option<u32>, body: &'a TStmt) -> Going<'a>
    ensures { Leaves (λ e n. execution.switch_to label (λ l. execution.meaning (view_stmt body.now) (execution.At_label l) (calls e.world n) e)) result }
{
    match label {
        Some(label) => {
            let at = Entry::AtLabel(label);
            let doing = Doing {
                part: Part::Whole,
                of: body,
                at,
            };
            let rest = Remainder {
                done: Done::Switch,
                of: s,
            };
            Going::Then(doing, rest)
        }
        None => Going::Left(Flow::Normal),
    }
}

/// The cases of a switch, the label of its default, and its body.
#[tactic(auto, unfolding(pw_typed::specs::Views::view_stmt_form), using(pw_typed::proofs::Rows::block_view, pw_typed::proofs::Rows::if_view))]
fn switch_in<'a>(s: &'a TStmt) -> Option<(&'a [Case], Option<u32>, &'a TStmt)>
    ensures { option_map (λ p. (view_cases p.0.now, p.1, view_stmt p.2.now)) result ≡ switches.switch_in (view_stmt s.now) }
{
    match &s.form {
        TStmtForm::Switch(_, cases, default, body) => {
            let body: &TStmt = body;
            Some((cases.as_slice(), *default, body))
        }
        _ => None,
    }
}

/// A switch, which has this value.
fn switched<'a>(s: &'a TStmt, value: Value) -> Going<'a>
    ensures { Leaves (λ e n. spec.switched (view_stmt s.now) e (calls e.world n) value) result }
{
    match switch_in(s) {
        Some((cases, default, body)) => switch_to(s, label_for(cases, default, value), body),
        None => Going::Left(Flow::Normal),
    }
}

/// The value of a switch.
fn use_in_switch<'a>(
    env: &Env<'a>,
    state: &State,
    token: usize,
    s: &'a TStmt,
    given: Option<Value>,
) -> Result<Going<'a>, Stop<'a>>
    ensures { StepsStatement (view_env env.now) (λ e n. in_turn (meaning.used (meaning.site e token) given) (spec.switched (view_stmt s.now) e (calls e.world n))) (view_state state.now) result (view_state state.now) }
{
    let value = used(env, token, given)?;
    Ok(switched(s, value))
}

/// The value of a `return`.
fn use_in_return<'a>(
    env: &Env<'a>,
    state: &State,
    token: usize,
    given: Option<Value>,
) -> Result<Going<'a>, Stop<'a>>
    ensures { StepsStatement (view_env env.now) (λ e n. in_turn (meaning.used (meaning.site e token) given) (λ v. give (execution.Returns (Some v)))) (view_state state.now) result (view_state state.now) }
{
    let value = used(env, token, given)?;
    Ok(Going::Left(Flow::Returns(Some(value))))
}

/// An initialiser gave this: it is put into the local, and those from a place on follow.
fn initialise_with<'a>(
    alloc: Global,
    env: &Env<'a>,
    state: &mut State,
    s: &'a TStmt,
    rest: usize,
    first: &'a Initialiser,
    given: Option<Value>,
) -> Result<Going<'a>, Stop<'a>>
    ensures { StepsStatement (view_env env.now) (λ e n. spec.initialised (view_initialiser first.now ∷ drop rest (any.initialisers_in (view_stmt s.now))) (any.members_in (view_stmt s.now)) e (calls e.world n) given) (view_state state.old) result (view_state state.new) }
{
    match first {
        Initialiser::Value(local, e) => {
            let value = used(env, e.token, given)?;
            set_local(alloc, env, state, e.token, *local, value)?;
            let part = Part::Initialisers(rest);
            let at = Entry::Front;
            Ok(Going::On(Turn::Here, Doing { part, of: s, at }))
        }
        Initialiser::Bytes(_, _, _) => Ok(Going::Left(Flow::Normal)),
    }
}

/// The initialiser of a place gave this.
fn use_in_local<'a>(
    alloc: Global,
    env: &Env<'a>,
    state: &mut State,
    s: &'a TStmt,
    i: usize,
    given: Option<Value>,
) -> Result<Going<'a>, Stop<'a>>
    ensures { StepsStatement (view_env env.now) (λ e n. spec.initialised (drop i (any.initialisers_in (view_stmt s.now))) (any.members_in (view_stmt s.now)) e (calls e.world n) given) (view_state state.old) result (view_state state.new) }
{
    match initialisers_in(s).get(i) {
        Some(first) => initialise_with(alloc, env, state, s, i + 1, first, given),
        None => Ok(Going::Left(Flow::Normal)),
    }
}

/// What a statement does with the value that an expression gave.
pub fn use_value<'a>(
    alloc: Global,
    env: &Env<'a>,
    state: &mut State,
    what: Use<'a>,
    given: Option<Value>,
) -> Result<Going<'a>, Stop<'a>>
    ensures { StepsStatement (view_env env.now) (λ e n. spec.use_act what.entry e n given) (view_state state.old) result (view_state state.new) }
{
    match what.purpose {
        Purpose::Dropped => Ok(Going::Left(Flow::Normal)),
        Purpose::Arm(i) => use_in_arm(env, state, what.of, i, given),
        Purpose::First => Ok(top(what.of)),
        Purpose::Ahead(token) => use_ahead(env, state, token, what.of, given),
        Purpose::Tail(token) => use_behind(env, state, token, what.of, given),
        Purpose::Third => Ok(back(what.of)),
        Purpose::Switch(token) => use_in_switch(env, state, token, what.of, given),
        Purpose::Return(token) => use_in_return(env, state, token, given),
        Purpose::Initialise(i) => use_in_local(alloc, env, state, what.of, i, given),
    }
}
