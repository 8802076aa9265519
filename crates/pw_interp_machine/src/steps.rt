//! One step of a run.

ghost use Rattle.std.specs.Prelude.{◌≡◌, true};
ghost use Rattle.pw_interp_calls.specs.Functions.{callable_of};
ghost use Rattle.pw_interp_calls.specs.Views.{view_env};
ghost use Rattle.pw_interp_state.specs.Shown.{view_state};
ghost use Rattle.pw_cmean.specs.Worlds as worlds;
ghost use Rattle.pw_interp_todo.specs.Flows.{view_flow};
ghost use Rattle.pw_interp_todo.specs.Resuming as spec;
ghost use Rattle.pw_interp_machine.specs.Stepping.{Steps, StepsAt};
ghost use Rattle.pw_interp_machine.specs.Streaming.{is_inside};

use crate::calls::{call_listed, give_back};
use crate::machine::Machine;
use crate::settling::settle;
use pw_interp_calls::{Ending, Stop};
use pw_interp_state::State;
use pw_interp_steps::{arguments_step, ask_step, do_step, flowed_step, gave_step};
use pw_interp_todo::{Control, Flow};
use pw_interp_world::Body;
use pw_value::Value;
use std::alloc::Global;

/// A result was given: the last that the call has left to do takes it, or else who waits for the call's result.
fn take_value<'a>(
    alloc: Global,
    machine: &mut Machine<'a>,
    state: &mut State,
    main: Body<'a>,
    given: Option<Value>,
) -> Result<(), Stop<'a>>
    ensures { StepsAt (callable_of main.entry).body (view_env machine.old.call.env).world machine.old.call machine.old.callers.items
        (λ rest. rest (view_env machine.old.call.env) machine.old.call.bound (spec.Gave given)) (view_state state.old) result machine.new (view_state state.new) }
{
    match machine.call.todo.pop() {
        Some(first) => {
            let answer = gave_step(alloc, &mut machine.call, state, first, given);
            settle(machine, answer)
        }
        None => give_back(machine, state, main, given),
    }
}

/// A part of a statement left something: the last that the call has left to do takes it.
fn take_flow<'a>(
    alloc: Global,
    machine: &mut Machine<'a>,
    state: &mut State,
    flow: Flow,
) -> Result<(), Stop<'a>>
    ensures { (main : worlds.Body) → StepsAt main (view_env machine.old.call.env).world machine.old.call machine.old.callers.items
        (λ rest. rest (view_env machine.old.call.env) machine.old.call.bound (spec.Flowed (view_flow flow))) (view_state state.old) result machine.new (view_state state.new) }
{
    match machine.call.todo.pop() {
        Some(first) => {
            let answer = flowed_step(alloc, &mut machine.call, state, first, flow);
            settle(machine, answer)
        }
        None => Err(Stop::Ended(Ending::Wrong)),
    }
}

/// One step of a run of a program with this main function, where nothing is to be read or written first.
pub fn step<'a>(
    alloc: Global,
    machine: &mut Machine<'a>,
    state: &mut State,
    main: Body<'a>,
) -> Result<(), Stop<'a>>
    requires { is_inside machine.old.control ≡ true }
    ensures { Steps (callable_of main.entry).body (view_env machine.old.call.env).world machine.old (view_state state.old) result machine.new (view_state state.new) }
{
    match machine.control {
        Control::Ask(asked) => {
            let answer = ask_step(alloc, &mut machine.call, state, asked);
            settle(machine, answer)
        }
        Control::Do { what, bound } => {
            let answer = do_step(alloc, &mut machine.call, state, what, bound);
            settle(machine, answer)
        }
        Control::Arguments(args, token) => {
            let answer = arguments_step(&mut machine.call, args, token);
            settle(machine, answer)
        }
        Control::Gave(given) => take_value(alloc, machine, state, main, given),
        Control::Flowed(flow) => take_flow(alloc, machine, state, flow),
        Control::Listed => call_listed(alloc, machine, state),
        Control::Outside(_) => unreachable!(),
    }
}
