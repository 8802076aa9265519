//! The run of a program (ISO C90 5.1.2.2).

ghost use Rattle.std.specs.Prelude.{◌≡◌, [], IfOk, map, option_map};
ghost use Rattle.pw_cmean.specs.Evaluation as meaning;
ghost use Rattle.pw_cmean.specs.SourceRun as runs;
ghost use Rattle.pw_cmean.specs.Worlds as worlds;
ghost use Rattle.pw_interp_state.specs.Shown.{shown, view_state};
ghost use Rattle.pw_interp_world.specs.Views.{view_callables, view_part, view_program};
ghost use Rattle.pw_interp_calls.specs.Frames.{frame_among};
ghost use Rattle.pw_interp_calls.specs.Functions.{callable_of};
ghost use Rattle.pw_interp_calls.specs.WorldViews.{view_world};
ghost use Rattle.pw_value.specs.ProgramNames.{main_name};
ghost use Rattle.pw_interp_machine.specs.Orders.{then_finished};
ghost use Rattle.pw_interp.specs.Programs.{module_of, program_of};
ghost use Rattle.pw_interp.specs.Streaming.{Interprets, ReadCount, RunsOver, WriteCount};

use crate::ends::{CEnd, InterpFault, ending_of, owned};
use crate::turns::run;
use pw_interp_calls::{Ending, World};
use pw_interp_lasting::runs_go_on;
use pw_interp_machine::start;
use pw_interp_start::start_objects;
use pw_interp_state::State;
use pw_interp_world::{Body, Callable, Part, World as Names, callables, global_names};
use pw_io::{Sink, Source};
use pw_typed::{TFunction, TModule};
use pw_value::Name;
use pw_value::program_names::{MAIN, START};
use std::alloc::{AllocError, Global};

/// The function main of a program, in its module. No function of the library has its name.
fn main_of<'a>(world: &World<'a>) -> Option<(Part<'a>, &'a TFunction)>
    ensures { option_map (λ d. callable_of (Body.Defined d.0 d.1)) result ≡ worlds.function_named (view_world world.now).program main_name }
{
    let body = world.function_named(MAIN)?;
    match body {
        Body::Defined(home, f) => Some((home, f)),
        Body::Library(_) => None,
    }
}

/// The call of main, within a bound.
fn call_main<'a, I: Source, O: Sink>(
    alloc: Global,
    world: &'a World<'a>,
    state: &mut State,
    bound: u64,
    home: Part<'a>,
    f: &'a TFunction,
    input: &mut I,
    out: &mut O,
) -> Result<Ending<'a>, InterpFault>
    ensures over { RunsOver (view_world world.now) (then_finished (meaning.call (view_world world.now) (runs.calls (view_world world.now) bound) (callable_of (Body.Defined home.entry f.entry)) []) (callable_of (Body.Defined home.entry f.entry)).body) (view_state state.old) (I.rest input.old) (O.taken out.old) result (view_state state.new) (I.rest input.new) (O.taken out.new) }
    ensures read { ReadCount (I.faults input.old) (I.faults input.new) result }
    ensures write { WriteCount (O.faults out.old) (O.faults out.new) result }
{
    runs_go_on();
    match start(alloc, world, state, bound, home, f) {
        Ok(machine) => run(alloc, machine, state, Body::Defined(home, f), input, out),
        Err(stop) => ending_of(stop),
    }
}

/// The run from the call of main, within a bound; without main no accepted program comes.
fn run_main<'a, I: Source, O: Sink>(
    alloc: Global,
    world: &'a World<'a>,
    state: &mut State,
    bound: u64,
    input: &mut I,
    out: &mut O,
) -> Result<Ending<'a>, InterpFault>
    ensures over { RunsOver (view_world world.now) (runs.run_main (view_world world.now) bound) (view_state state.old) (I.rest input.old) (O.taken out.old) result (view_state state.new) (I.rest input.new) (O.taken out.new) }
    ensures read { ReadCount (I.faults input.old) (I.faults input.new) result }
    ensures write { WriteCount (O.faults out.old) (O.faults out.new) result }
{
    match main_of(world) {
        Some((home, f)) => call_main(alloc, world, state, bound, home, f, input, out),
        None => Ok(Ending::Wrong),
    }
}

/// The state in which a run starts: main is called while `$start` is active.
fn first_state<'a>(alloc: Global, world: &World<'a>) -> Result<State, AllocError>
    ensures { IfOk result (λ state. view_state state ≡ shown (view_world world.now) (runs.start_state (view_world world.now).program [])) }
{
    let objects = start_objects(alloc, world.names)?;
    Ok(State {
        objects,
        used: world.frame(START),
    })
}

/// The run of a world's program.
fn run_world<'a, I: Source, O: Sink>(
    alloc: Global,
    world: &'a World<'a>,
    bound: u64,
    input: &mut I,
    out: &mut O,
) -> Result<CEnd, InterpFault>
    ensures over { Interprets (λ bytes. runs.seen (runs.run_main (view_world world.now) bound (runs.start_state (view_world world.now).program bytes))) (I.rest input.old) (O.taken out.old) result (I.rest input.new) (O.taken out.new) }
    ensures read { ReadCount (I.faults input.old) (I.faults input.new) result }
    ensures write { WriteCount (O.faults out.old) (O.faults out.new) result }
{
    let mut state = first_state(alloc, world)?;
    let ending = run_main(alloc, world, &mut state, bound, input, out)?;
    owned(alloc, ending)
}

/// The run of a program by the tables of its names.
fn run_named<'a, I: Source, O: Sink>(
    alloc: Global,
    names: &'a Names<'a>,
    frames: &'a [(Name, u32)],
    stack: u32,
    bound: u64,
    input: &mut I,
    out: &mut O,
) -> Result<CEnd, InterpFault>
    ensures over { Interprets (λ bytes. runs.source_run (view_program names.now.parts.now) (frame_among frames.now) stack bytes bound) (I.rest input.old) (O.taken out.old) result (I.rest input.new) (O.taken out.new) }
    ensures read { ReadCount (I.faults input.old) (I.faults input.new) result }
    ensures write { WriteCount (O.faults out.old) (O.faults out.new) result }
{
    let world = World::new(alloc, names, frames, stack)?;
    run_world(alloc, &world, bound, input, out)
}

/// The run of a program by the tables of its names, which are given up.
fn run_owned<'a, I: Source, O: Sink>(
    alloc: Global,
    names: Names<'a>,
    frames: &'a [(Name, u32)],
    stack: u32,
    bound: u64,
    input: &mut I,
    out: &mut O,
) -> Result<CEnd, InterpFault>
    ensures over { Interprets (λ bytes. runs.source_run (view_program names.entry.parts.now) (frame_among frames.now) stack bytes bound) (I.rest input.old) (O.taken out.old) result (I.rest input.new) (O.taken out.new) }
    ensures read { ReadCount (I.faults input.old) (I.faults input.new) result }
    ensures write { WriteCount (O.faults out.old) (O.faults out.new) result }
{
    run_named(alloc, &names, frames, stack, bound, input, out)
}

/// The run of a program by its functions and the names of its objects.
fn run_listed<'a, I: Source, O: Sink>(
    alloc: Global,
    parts: &'a [Part<'a>],
    callables: &'a [Callable<'a>],
    globals: &'a [Name],
    frames: &'a [(Name, u32)],
    stack: u32,
    bound: u64,
    input: &mut I,
    out: &mut O,
) -> Result<CEnd, InterpFault>
    requires functions { view_callables callables.now ≡ worlds.functions_of (view_program parts.now) }
    requires objects { globals.now ≡ worlds.global_names (view_program parts.now) }
    ensures over { Interprets (λ bytes. runs.source_run (view_program parts.now) (frame_among frames.now) stack bytes bound) (I.rest input.old) (O.taken out.old) result (I.rest input.new) (O.taken out.new) }
    ensures read { ReadCount (I.faults input.old) (I.faults input.new) result }
    ensures write { WriteCount (O.faults out.old) (O.faults out.new) result }
{
    let names = Names::new(alloc, parts, callables, globals)?;
    run_owned(alloc, names, frames, stack, bound, input, out)
}

/// The run of a program by its parts, as [`interpret`] does it.
///
/// # Errors
///
/// As [`interpret`].
pub fn interpret_parts<'a, I: Source, O: Sink>(
    alloc: Global,
    parts: &'a [Part<'a>],
    frames: &'a [(Name, u32)],
    stack: u32,
    bound: u64,
    input: &mut I,
    out: &mut O,
) -> Result<CEnd, InterpFault>
    ensures over { Interprets (λ bytes. runs.source_run (view_program parts.now) (frame_among frames.now) stack bytes bound) (I.rest input.old) (O.taken out.old) result (I.rest input.new) (O.taken out.new) }
    ensures read { ReadCount (I.faults input.old) (I.faults input.new) result }
    ensures write { WriteCount (O.faults out.old) (O.faults out.new) result }
{
    let callables = callables(alloc, parts)?;
    let globals = global_names(alloc, parts)?;
    run_listed(
        alloc, parts, &callables, &globals, frames, stack, bound, input, out,
    )
}

/// The modules of a program, as its run takes them.
fn parts_of<'a>(alloc: Global, modules: &'a [(Name, TModule)]) -> Result<Vec<Part<'a>>, AllocError>
    ensures { IfOk result (λ parts. map view_part parts.items ≡ map module_of modules.now) }
{
    let mut parts = Vec::new(alloc);
    for named in modules {
        parts.push(Part {
            name: &named.0,
            tree: &named.1,
        })?;
    }
    Ok(parts)
}

/// Runs a program within a bound by the meaning of C, with the frames by their functions' full names (of a function that is not
/// named 0 bytes), and the room of the stack. A byte of the input is read when the program reads it, and a byte of the output
/// put when the program writes it.
///
/// # Errors
///
/// `ReadFault` and `WriteFault` where the input or the output had a fault in this call. `NoMemory` where there is no memory, after
/// 2^64 steps, and where no accepted program comes: at a layout that 32 bits cannot tell, a function whose type is volatile, or
/// what the meaning has no word for. After an error what was written is a front of the program's output, and what was read a
/// front of what it reads.
pub fn interpret<I: Source, O: Sink>(
    alloc: Global,
    modules: &[(Name, TModule)],
    frames: &[(Name, u32)],
    stack: u32,
    bound: u64,
    input: &mut I,
    out: &mut O,
) -> Result<CEnd, InterpFault>
    ensures over { Interprets (λ bytes. runs.source_run (program_of modules.now) (frame_among frames.now) stack bytes bound) (I.rest input.old) (O.taken out.old) result (I.rest input.new) (O.taken out.new) }
    ensures read { ReadCount (I.faults input.old) (I.faults input.new) result }
    ensures write { WriteCount (O.faults out.old) (O.faults out.new) result }
{
    let parts = parts_of(alloc, modules)?;
    interpret_parts(alloc, &parts, frames, stack, bound, input, out)
}
