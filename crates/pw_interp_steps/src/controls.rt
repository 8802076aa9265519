//! Steps that stay in the call of the function that runs.

ghost use Rattle.std.specs.Prelude.{◌≡◌, MatchOption, true};
ghost use Rattle.pw_typed.specs.Views.{view_expr, view_exprs};
ghost use Rattle.pw_cmean.specs.Evaluation as meaning;
ghost use Rattle.pw_cmean.specs.SourceRun as runs;
ghost use Rattle.pw_cmean.specs.Worlds as worlds;
ghost use Rattle.pw_interp_state.specs.Shown.{Shown, view_state};
ghost use Rattle.pw_interp_calls.specs.Answers.{Answers};
ghost use Rattle.pw_interp_calls.specs.Views.{view_env};
ghost use Rattle.pw_interp_todo.specs.Asking.{answered, asked_act};
ghost use Rattle.pw_interp_todo.specs.Flows.{view_flow};
ghost use Rattle.pw_interp_todo.specs.Going.{going_act, remainder_act, use_act};
ghost use Rattle.pw_interp_todo.specs.Operands as operands;
ghost use Rattle.pw_interp_todo.specs.Parts.{doing_act};
ghost use Rattle.pw_interp_todo.specs.Resuming as spec;
ghost use Rattle.pw_interp_flows.specs.Entering.{has_objects};
ghost use Rattle.pw_interp_pushes.specs.Staying.{StepsCall};
ghost use Rattle.pw_interp_pushes.specs.Orders.{then_gave, then_flowed, then_listed, then_argued};

use pw_interp_acts::used;
use pw_interp_asks::ask;
use pw_interp_calls::{Ending, Stop};
use pw_interp_direct::{answer_of, is_direct};
use pw_interp_flows::{begin, remainder, use_value};
use pw_interp_functions::end_parameters;
use pw_interp_operands::behind;
use pw_interp_pushes::{Call, end_local, given, open_block, push_arguments, push_going, push_next};
use pw_interp_state::State;
use pw_interp_todo::{Asked, Control, Doing, Flow, Going, Operand, Part, Remainder, Todo, Use};
use pw_typed::TExpr;
use pw_value::Value;
use std::alloc::Global;

/// How deep the nodes of an expression may stand that is evaluated in one step.
const DIRECT_DEPTH: u32 = 12;

/// One step where a value or a place is asked: that of a small expression is there at once; else what is left of it goes onto
/// the call's list of what is to be done. A stop tells why the run ends.
pub fn ask_step<'a>(
    alloc: Global,
    call: &mut Call<'a>,
    state: &mut State,
    asked: Asked<'a>,
) -> Result<Control<'a>, Stop<'a>>
    ensures { StepsCall call.old (λ rest. then_gave (asked_act asked.entry (view_env call.old.env) call.old.bound) rest (view_env call.old.env) call.old.bound) (view_state state.old) result call.new (view_state state.new) }
{
    match asked {
        Asked::Answer(e) => answer_step(alloc, call, state, e),
        Asked::Place(_) => lead_step(alloc, call, state, asked),
    }
}

/// The result of an expression is asked: that of a small one is evaluated at once.
fn answer_step<'a>(
    alloc: Global,
    call: &mut Call<'a>,
    state: &mut State,
    e: &'a TExpr,
) -> Result<Control<'a>, Stop<'a>>
    ensures { StepsCall call.old (λ rest. then_gave (answered (view_expr e.now) (view_env call.old.env) call.old.bound) rest (view_env call.old.env) call.old.bound) (view_state state.old) result call.new (view_state state.new) }
{
    if is_direct(e, DIRECT_DEPTH) {
        given(answer_of(alloc, &call.env, state, e))
    } else {
        lead_step(alloc, call, state, Asked::Answer(e))
    }
}

/// What is asked, of which what is evaluated first comes first.
#[inline(never)]
fn lead_step<'a>(
    alloc: Global,
    call: &mut Call<'a>,
    state: &State,
    asked: Asked<'a>,
) -> Result<Control<'a>, Stop<'a>>
    ensures { StepsCall call.old (λ rest. then_gave (asked_act asked.entry (view_env call.old.env) call.old.bound) rest (view_env call.old.env) call.old.bound) (view_state state.now) result call.new (view_state state.now) }
{
    let next = ask(alloc, &call.env, state, asked)?;
    let control = push_next(&mut call.todo, next)?;
    Ok(control)
}

/// How many locals of a block have their objects, where a part is a block before its inside.
fn locals_of(part: Part) -> Option<u32>
    ensures { MatchOption result (has_objects part ≡ true) (λ made. part ≡ Part.Locals made) }
{
    match part {
        Part::Locals(made) => Some(made),
        _ => None,
    }
}

/// A part of a statement whose locals have their objects.
#[inline(always)]
fn begin_step<'a>(
    alloc: Global,
    call: &mut Call<'a>,
    state: &mut State,
    what: Doing<'a>,
    bound: u64,
) -> Result<Control<'a>, Stop<'a>>
    requires { has_objects what.part ≡ true }
    ensures { StepsCall call.old (λ rest. then_flowed (doing_act what.entry (view_env call.old.env) call.old.bound) rest (view_env call.old.env) bound) (view_state state.old) result call.new (view_state state.new) }
{
    let going = begin(alloc, &call.env, state, what)?;
    go_on(alloc, call, state, going, bound)
}

/// A step that begins a part of a statement: a block makes its locals' objects first.
pub fn do_step<'a>(
    alloc: Global,
    call: &mut Call<'a>,
    state: &mut State,
    what: Doing<'a>,
    bound: u64,
) -> Result<Control<'a>, Stop<'a>>
    ensures { StepsCall call.old (λ rest. then_flowed (doing_act what.entry (view_env call.old.env) call.old.bound) rest (view_env call.old.env) bound) (view_state state.old) result call.new (view_state state.new) }
{
    match locals_of(what.part) {
        Some(made) => open_block(alloc, call, state, what.of, made, what.at, bound),
        None => begin_step(alloc, call, state, what, bound),
    }
}

/// An operand gave this.
#[inline(never)]
fn operand_step<'a>(
    alloc: Global,
    call: &mut Call<'a>,
    state: &mut State,
    operand: Operand<'a>,
    given: Option<Value>,
) -> Result<Control<'a>, Stop<'a>>
    ensures { StepsCall call.old (λ rest. then_gave (operands.behind operand.entry given (view_env call.old.env) call.old.bound) rest (view_env call.old.env) call.old.bound) (view_state state.old) result call.new (view_state state.new) }
{
    let next = behind(alloc, &call.env, state, operand, given)?;
    let control = push_next(&mut call.todo, next)?;
    Ok(control)
}

/// An argument gave this: it is held, and those behind it follow.
#[inline(never)]
fn argument_step<'a>(
    call: &mut Call<'a>,
    args: &'a [TExpr],
    token: usize,
    given: Option<Value>,
) -> Result<Control<'a>, Stop<'a>>
    ensures { (w : Shown) → StepsCall call.old (λ rest. then_argued given (view_exprs args.now) token rest (view_env call.old.env) call.old.bound) w result call.new w }
{
    let value = used(&call.env, token, given)?;
    call.todo.push(Todo::Held(value))?;
    Ok(Control::Arguments(args, token))
}

/// The value of an expression of a statement.
#[inline(always)]
fn value_step<'a>(
    alloc: Global,
    call: &mut Call<'a>,
    state: &mut State,
    what: Use<'a>,
    bound: u64,
    given: Option<Value>,
) -> Result<Control<'a>, Stop<'a>>
    ensures { StepsCall call.old (λ rest. then_flowed (use_act what.entry (view_env call.old.env) call.old.bound given) rest (view_env call.old.env) bound) (view_state state.old) result call.new (view_state state.new) }
{
    let going = use_value(alloc, &call.env, state, what, given)?;
    push_going(&mut call.todo, &mut call.bound, going, bound)
}

/// A statement asks for the value of an expression: that of a small one is evaluated at once, and the statement goes on with it.
#[inline(always)]
fn use_answer<'a>(
    alloc: Global,
    call: &mut Call<'a>,
    state: &mut State,
    e: &'a TExpr,
    what: Use<'a>,
    bound: u64,
) -> Result<Control<'a>, Stop<'a>>
    ensures { StepsCall call.old (λ rest. then_flowed (going_act (Going.Ask (Asked.Answer e.entry) what.entry) (view_env call.old.env) call.old.bound) rest (view_env call.old.env) bound) (view_state state.old) result call.new (view_state state.new) }
{
    if is_direct(e, DIRECT_DEPTH) {
        let given = answer_of(alloc, &call.env, state, e)?;
        value_step(alloc, call, state, what, bound, given)
    } else {
        let going = Going::Ask(Asked::Answer(e), what);
        push_going(&mut call.todo, &mut call.bound, going, bound)
    }
}

/// A statement asks for something of an expression.
#[inline(always)]
fn use_asked<'a>(
    alloc: Global,
    call: &mut Call<'a>,
    state: &mut State,
    asked: Asked<'a>,
    what: Use<'a>,
    bound: u64,
) -> Result<Control<'a>, Stop<'a>>
    ensures { StepsCall call.old (λ rest. then_flowed (going_act (Going.Ask asked.entry what.entry) (view_env call.old.env) call.old.bound) rest (view_env call.old.env) bound) (view_state state.old) result call.new (view_state state.new) }
{
    match asked {
        Asked::Answer(e) => use_answer(alloc, call, state, e, what, bound),
        Asked::Place(_) => {
            let going = Going::Ask(asked, what);
            push_going(&mut call.todo, &mut call.bound, going, bound)
        }
    }
}

/// What is left of a statement, behind which the run goes on with a bound.
#[inline(always)]
fn go_on<'a>(
    alloc: Global,
    call: &mut Call<'a>,
    state: &mut State,
    going: Going<'a>,
    bound: u64,
) -> Result<Control<'a>, Stop<'a>>
    ensures { StepsCall call.old (λ rest. then_flowed (going_act going.entry (view_env call.old.env) call.old.bound) rest (view_env call.old.env) bound) (view_state state.old) result call.new (view_state state.new) }
{
    match going {
        Going::Ask(asked, what) => use_asked(alloc, call, state, asked, what, bound),
        _ => push_going(&mut call.todo, &mut call.bound, going, bound),
    }
}

/// A part of a statement left this.
#[inline(always)]
fn flow_step<'a>(
    alloc: Global,
    call: &mut Call<'a>,
    state: &mut State,
    what: Remainder<'a>,
    bound: u64,
    flow: Flow,
) -> Result<Control<'a>, Stop<'a>>
    ensures { StepsCall call.old (λ rest. then_flowed (remainder_act what.entry (view_env call.old.env) call.old.bound (view_flow flow)) rest (view_env call.old.env) bound) (view_state state.old) result call.new (view_state state.new) }
{
    let going = remainder(what, flow);
    go_on(alloc, call, state, going, bound)
}

/// What a function's body leaves is its result: its end returns none (ISO C90 6.6.6.4).
fn result_of<'a>(flow: Flow) -> Result<Option<Value>, Stop<'a>>
    ensures { (world : worlds.World) (w : Shown) → Answers (λ v. v) world (runs.result_of (view_flow flow)) w result w }
{
    match flow {
        Flow::Normal => Ok(None),
        Flow::Returns(value) => Ok(value),
        Flow::Breaks => Err(Stop::Ended(Ending::Wrong)),
        Flow::Continues => Err(Stop::Ended(Ending::Wrong)),
        Flow::Goes(_) => Err(Stop::Ended(Ending::Wrong)),
    }
}

/// A result was given, which the last of the list takes.
pub fn gave_step<'a>(
    alloc: Global,
    call: &mut Call<'a>,
    state: &mut State,
    first: Todo<'a>,
    given: Option<Value>,
) -> Result<Control<'a>, Stop<'a>>
    ensures { StepsCall call.old (λ rest. spec.after first.entry rest (view_env call.old.env) call.old.bound (spec.Gave given)) (view_state state.old) result call.new (view_state state.new) }
{
    match first {
        Todo::Operand(operand) => operand_step(alloc, call, state, operand, given),
        Todo::Argument(args, token) => argument_step(call, args, token, given),
        Todo::Value { what, bound } => value_step(alloc, call, state, what, bound, given),
        Todo::EndLocal {
            local,
            number,
            before,
        } => {
            end_local(call, &mut state.objects, local, number, before);
            Ok(Control::Gave(given))
        }
        Todo::EndParameters { count, number } => {
            end_parameters(&mut state.objects, count, number);
            Ok(Control::Gave(given))
        }
        Todo::Held(_) => Err(Stop::Ended(Ending::Wrong)),
        Todo::Call(_) => Err(Stop::Ended(Ending::Wrong)),
        Todo::Flow { .. } => Err(Stop::Ended(Ending::Wrong)),
        Todo::Returned => Err(Stop::Ended(Ending::Wrong)),
    }
}

/// A part of a statement left something, which the last of the list takes.
pub fn flowed_step<'a>(
    alloc: Global,
    call: &mut Call<'a>,
    state: &mut State,
    first: Todo<'a>,
    flow: Flow,
) -> Result<Control<'a>, Stop<'a>>
    ensures { StepsCall call.old (λ rest. spec.after first.entry rest (view_env call.old.env) call.old.bound (spec.Flowed (view_flow flow))) (view_state state.old) result call.new (view_state state.new) }
{
    match first {
        Todo::Flow { what, bound } => flow_step(alloc, call, state, what, bound, flow),
        Todo::EndLocal {
            local,
            number,
            before,
        } => {
            end_local(call, &mut state.objects, local, number, before);
            Ok(Control::Flowed(flow))
        }
        Todo::Returned => given(result_of(flow)),
        Todo::EndParameters { count, number } => {
            end_parameters(&mut state.objects, count, number);
            Ok(Control::Flowed(flow))
        }
        Todo::Operand(_) => Err(Stop::Ended(Ending::Wrong)),
        Todo::Argument(_, _) => Err(Stop::Ended(Ending::Wrong)),
        Todo::Held(_) => Err(Stop::Ended(Ending::Wrong)),
        Todo::Call(_) => Err(Stop::Ended(Ending::Wrong)),
        Todo::Value { .. } => Err(Stop::Ended(Ending::Wrong)),
    }
}

/// A step that asks for the next argument of a call, or finds that all have their values.
#[inline(never)]
pub fn arguments_step<'a>(
    call: &mut Call<'a>,
    args: &'a [TExpr],
    token: usize,
) -> Result<Control<'a>, Stop<'a>>
    ensures { (w : Shown) → StepsCall call.old (λ rest. then_listed (meaning.values_of (view_exprs args.now) token (runs.calls (view_env call.old.env).world call.old.bound) (view_env call.old.env)) rest (view_env call.old.env) call.old.bound) w result call.new w }
{
    let control = push_arguments(&mut call.todo, args, token)?;
    Ok(control)
}
