//! Calls of functions and returns from them (ISO C90 6.3.2.2, 6.6.6.4).

ghost use Rattle.std.specs.Prelude.{◌≡◌, ◌+◌, ◌∷◌, [], ℕ, IfOk};
ghost use Rattle.pw_typed.specs.Views.{view_function};
ghost use Rattle.pw_cmean.specs.Evaluation as meaning;
ghost use Rattle.pw_cmean.specs.Execution.{with_locals};
ghost use Rattle.pw_cmean.specs.SourceRun as runs;
ghost use Rattle.pw_cmean.specs.Worlds as worlds;
ghost use Rattle.pw_interp_calls.specs.Functions.{callable_of};
ghost use Rattle.pw_interp_calls.specs.Views.{view_env};
ghost use Rattle.pw_interp_calls.specs.WorldViews.{view_world};
ghost use Rattle.pw_interp_state.specs.Shown.{Shown, view_state};
ghost use Rattle.pw_interp_todo.specs.Operands.{call_behind};
ghost use Rattle.pw_interp_todo.specs.Resuming as spec;
ghost use Rattle.pw_interp_machine.specs.Bodies.{with_arguments};
ghost use Rattle.pw_interp_machine.specs.Stepping.{Begins, Opens, StepsAt};
ghost use Rattle.pw_interp_pushes.specs.Orders.{then_gave};

use crate::machine::Machine;
use crate::results::finish;
use crate::settling::settle;
use pw_interp_calls::{Ending, Env, Stop, World};
use pw_interp_functions::{call_library, callee_of, make_locals, outermost, set_parameters};
use pw_interp_pushes::{Call, lower, take_arguments, transferred};
use pw_interp_state::{State, has_room};
use pw_interp_todo::{Callee, Control, Doing, Entry, Part, Todo};
use pw_interp_world::{Body, Part as Module};
use pw_lower_forms::full_name;
use pw_typed::TFunction;
use pw_value::Value;
use std::alloc::{AllocError, Global};

/// A call whose function begins: behind its body comes its result, and its parameters end.
fn begun<'a>(
    alloc: Global,
    env: Env<'a>,
    bound: u64,
    before: u32,
    count: u32,
    number: u128,
) -> Result<Call<'a>, AllocError>
    ensures env { IfOk result (λ call. view_env call.env ≡ view_env env.entry) }
    ensures bound { IfOk result (λ call. call.bound ≡ bound) }
    ensures before { IfOk result (λ call. call.before ≡ before) }
    ensures todo { IfOk result (λ call. call.todo.items ≡ Todo.EndParameters count number ∷ Todo.Returned ∷ []) }
{
    let mut todo = Vec::new(alloc);
    todo.push(Todo::EndParameters { count, number })?;
    todo.push(Todo::Returned)?;
    Ok(Call {
        env,
        bound,
        todo,
        before,
    })
}

/// The call of a function that is active, where its parameters have objects and their arguments, and the functions before it
/// take so much of the stack.
fn open_call<'a>(
    alloc: Global,
    outer: Env<'a>,
    state: &mut State,
    bound: u64,
    before: u32,
    f: &'a TFunction,
    args: &[Value],
) -> Result<Call<'a>, Stop<'a>>
    ensures { Opens (view_env outer.entry).world (with_locals f.now.params 0 (with_arguments (view_function f.now) (runs.calls (view_env outer.entry).world bound) args.now) (view_env outer.entry)) (view_function f.now).body before (view_state state.old) result (view_state state.new) }
{
    let count = state.objects.count();
    let inner = make_locals(alloc, outer, &mut state.objects, f.params)?;
    match inner {
        Some(env) => {
            set_parameters(alloc, &env, state, f.token, args)?;
            let call = begun(alloc, env, bound, before, f.params, count as u128)?;
            Ok(call)
        }
        None => Err(Stop::Ended(Ending::Wrong)),
    }
}

/// The call of a function that is to be active: its frame takes its room on the stack.
fn open_framed<'a>(
    alloc: Global,
    outer: Env<'a>,
    state: &mut State,
    bound: u64,
    used: u32,
    f: &'a TFunction,
    args: &[Value],
) -> Result<Call<'a>, Stop<'a>>
    ensures { Opens (view_env outer.entry).world (with_locals f.now.params 0 (with_arguments (view_function f.now) (runs.calls (view_env outer.entry).world bound) args.now) (view_env outer.entry)) (view_function f.now).body state.old.used (record (view_state state.old) { used = used }) result (view_state state.new) }
{
    let before = state.used;
    state.used = used;
    open_call(alloc, outer, state, bound, before, f, args)
}

/// The call of a function that the program defines, where calls have a lower bound.
#[tactic(auto, using(crate::proofs::Rooms::room_fits))]
fn begin_call<'a>(
    alloc: Global,
    world: &'a World<'a>,
    state: &mut State,
    bound: u64,
    home: Module<'a>,
    f: &'a TFunction,
    args: &[Value],
) -> Result<Call<'a>, Stop<'a>>
    ensures { (n : ℕ) → n ≡ bound + 1 → Begins (view_world world.now) (meaning.bounded_call (runs.calls (view_world world.now) n) (callable_of (Body.Defined home.entry f.entry)) args.now) (view_function f.now).body (view_state state.old) result (view_state state.new) }
{
    let full = full_name(alloc, home.name, &f.name)?;
    let name = full.as_bytes();
    let outer = outermost(alloc, world, home, f)?;
    let frame = world.frame(name);
    if has_room(state, frame, world.stack) {
        let used = frame + state.used;
        open_framed(alloc, outer, state, bound, used, f, args)
    } else {
        Err(Stop::Ended(Ending::StackFull))
    }
}

/// The call of a function within a bound: its body comes with one that is one smaller.
pub fn begin_bounded<'a>(
    alloc: Global,
    world: &'a World<'a>,
    state: &mut State,
    bound: u64,
    home: Module<'a>,
    f: &'a TFunction,
    args: &[Value],
) -> Result<Call<'a>, Stop<'a>>
    ensures { Begins (view_world world.now) (meaning.bounded_call (runs.calls (view_world world.now) bound) (callable_of (Body.Defined home.entry f.entry)) args.now) (view_function f.now).body (view_state state.old) result (view_state state.new) }
{
    let bound = lower(bound)?;
    begin_call(alloc, world, state, bound, home, f, args)
}

/// Enters a function that begins: its caller waits, and its body comes.
fn enter<'a>(
    machine: &mut Machine<'a>,
    begun: Result<Call<'a>, Stop<'a>>,
    f: &'a TFunction,
) -> Result<(), Stop<'a>>
    ensures { (main : worlds.Body) (world : worlds.World) (act : _) (before behind : Shown) → Begins world act (view_function f.now).body before begun.entry behind
        → StepsAt main world machine.old.call machine.old.callers.items (λ rest. then_gave act rest (view_env machine.old.call.env) machine.old.call.bound) before result machine.new behind }
{
    let call = begun?;
    let caller = std::mem::replace(&mut machine.call, call);
    machine.callers.push(caller)?;
    let bound = machine.call.bound;
    let (part, at) = (Part::Whole, Entry::Front);
    let what = Doing {
        part,
        of: &f.body,
        at,
    };
    machine.control = Control::Do { what, bound };
    Ok(())
}

/// A call of a function with its arguments.
fn call_function<'a>(
    alloc: Global,
    machine: &mut Machine<'a>,
    state: &mut State,
    function: Body<'a>,
    args: &[Value],
) -> Result<(), Stop<'a>>
    ensures { (main : worlds.Body) → StepsAt main (view_env machine.old.call.env).world machine.old.call machine.old.callers.items
        (λ rest. then_gave (meaning.call (view_env machine.old.call.env).world (runs.calls (view_env machine.old.call.env).world machine.old.call.bound) (callable_of function.entry) args.now) rest (view_env machine.old.call.env) machine.old.call.bound)
        (view_state state.old) result machine.new (view_state state.new) }
{
    let world = machine.call.env.world;
    match function {
        Body::Library(function) => {
            let answer = call_library(world, state, function, args);
            settle(machine, transferred(answer))
        }
        Body::Defined(home, f) => {
            let begun = begin_bounded(alloc, world, state, machine.call.bound, home, f, args);
            enter(machine, begun, f)
        }
    }
}

/// A call of what is called with its arguments.
fn call_with<'a>(
    alloc: Global,
    machine: &mut Machine<'a>,
    state: &mut State,
    callee: Callee<'a>,
    args: &[Value],
) -> Result<(), Stop<'a>>
    ensures { (main : worlds.Body) → StepsAt main (view_env machine.old.call.env).world machine.old.call machine.old.callers.items
        (λ rest. then_gave (call_behind callee.entry args.now (view_env machine.old.call.env) machine.old.call.bound) rest (view_env machine.old.call.env) machine.old.call.bound)
        (view_state state.old) result machine.new (view_state state.new) }
{
    let function = callee_of(alloc, &machine.call.env, callee)?;
    call_function(alloc, machine, state, function, args)
}

/// All arguments of a call have their values: the function is called.
#[inline(never)]
pub fn call_listed<'a>(
    alloc: Global,
    machine: &mut Machine<'a>,
    state: &mut State,
) -> Result<(), Stop<'a>>
    ensures { (main : worlds.Body) → StepsAt main (view_env machine.old.call.env).world machine.old.call machine.old.callers.items
        (λ rest. rest (view_env machine.old.call.env) machine.old.call.bound (spec.Listed [])) (view_state state.old) result machine.new (view_state state.new) }
{
    let (args, callee) = take_arguments(alloc, &mut machine.call.todo)?;
    call_with(alloc, machine, state, callee, &args)
}

/// A call whose function has nothing left to do: its result goes to its caller, or ends the run.
#[inline(never)]
pub fn give_back<'a>(
    machine: &mut Machine<'a>,
    state: &mut State,
    main: Body<'a>,
    given: Option<Value>,
) -> Result<(), Stop<'a>>
    requires { machine.old.call.todo.items ≡ [] }
    ensures { StepsAt (callable_of main.entry).body (view_env machine.old.call.env).world machine.old.call machine.old.callers.items
        (λ rest. rest (view_env machine.old.call.env) machine.old.call.bound (spec.Gave given)) (view_state state.old) result machine.new (view_state state.new) }
{
    state.used = machine.call.before;
    match machine.callers.pop() {
        Some(caller) => {
            machine.call = caller;
            machine.control = Control::Gave(given);
            Ok(())
        }
        None => Err(Stop::Ended(finish(main, given))),
    }
}
