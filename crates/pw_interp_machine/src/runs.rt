//! The machine at the start of a run, which is the call of main (ISO C90 5.1.2.2).

ghost use Rattle.std.specs.Prelude.{[]};
ghost use Rattle.pw_typed.specs.Views.{view_function};
ghost use Rattle.pw_cmean.specs.Evaluation as meaning;
ghost use Rattle.pw_cmean.specs.SourceRun as runs;
ghost use Rattle.pw_cmean.specs.Worlds as worlds;
ghost use Rattle.pw_interp_calls.specs.Functions.{callable_of};
ghost use Rattle.pw_interp_calls.specs.WorldViews.{view_world};
ghost use Rattle.pw_interp_state.specs.Shown.{Shown, view_state};
ghost use Rattle.pw_interp_machine.specs.Stepping.{Begins, Starts};
ghost use Rattle.pw_interp_machine.specs.Orders.{then_finished};

use crate::calls::begin_bounded;
use crate::machine::Machine;
use pw_interp_calls::{Stop, World};
use pw_interp_pushes::Call;
use pw_interp_state::State;
use pw_interp_todo::{Control, Doing, Entry, Part};
use pw_interp_world::{Body, Part as Module};
use pw_typed::TFunction;
use std::alloc::Global;

/// The machine whose call begins that of main.
fn started<'a>(
    alloc: Global,
    begun: Result<Call<'a>, Stop<'a>>,
    f: &'a TFunction,
) -> Result<Machine<'a>, Stop<'a>>
    ensures { (main : worlds.Body) (world : worlds.World) (act : _) (before behind : Shown) → Begins world act (view_function f.now).body before begun.entry behind
        → Starts main world (then_finished act main) before result behind }
{
    let call = begun?;
    let bound = call.bound;
    let (part, at) = (Part::Whole, Entry::Front);
    let what = Doing {
        part,
        of: &f.body,
        at,
    };
    let callers = Vec::new(alloc);
    let control = Control::Do { what, bound };
    Ok(Machine {
        call,
        callers,
        control,
    })
}

/// The machine in which main, a function of this module, is called within a bound, with no arguments; or how the run ends.
pub fn start<'a>(
    alloc: Global,
    world: &'a World<'a>,
    state: &mut State,
    bound: u64,
    home: Module<'a>,
    f: &'a TFunction,
) -> Result<Machine<'a>, Stop<'a>>
    ensures { Starts (callable_of (Body.Defined home.entry f.entry)).body (view_world world.now) (then_finished (meaning.call (view_world world.now) (runs.calls (view_world world.now) bound) (callable_of (Body.Defined home.entry f.entry)) []) (callable_of (Body.Defined home.entry f.entry)).body) (view_state state.old) result (view_state state.new) }
{
    let begun = begin_bounded(alloc, world, state, bound, home, f, &[]);
    started(alloc, begun, f)
}
