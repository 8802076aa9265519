//! The functions of the library (ISO C90 7.9.7.6, 7.9.7.9, 7.10.4.3).

ghost use Rattle.std.specs.Prelude.{◌≡◌, ℕ};
ghost use Rattle.pw_cmean.specs.Evaluation as meaning;
ghost use Rattle.pw_cmean.specs.SourceRun as runs;
ghost use Rattle.pw_cmean.specs.Worlds as worlds;
ghost use Rattle.pw_interp_world.specs.Views.{view_library};
ghost use Rattle.pw_interp_state.specs.Shown.{Shown, view_state};
ghost use Rattle.pw_interp_calls.specs.Functions.{callable_of};
ghost use Rattle.pw_interp_calls.specs.WorldViews.{view_world};
ghost use Rattle.pw_interp_todo.specs.Leading.{Continues};
ghost use Rattle.pw_interp_todo.specs.Transfers.{transfer_act};
ghost use Rattle.pw_interp_functions.specs.Library as spec;

use pw_interp_acts::take_room;
use pw_interp_calls::{Ending, Stop, World};
use pw_interp_state::State;
use pw_interp_todo::Transfer;
use pw_interp_world::{Body, LibraryFunction};
use pw_value::Value;
use pw_value::program_names::{EXIT, GETCHAR, PUTCHAR};

/// The only argument, where it is a number.
fn only_number(args: &[Value]) -> Option<u32>
    ensures { result ≡ spec.only_number args.now }
{
    match args {
        [Value::Num(n)] => Some(*n),
        _ => None,
    }
}

/// Whether there is no argument.
fn are_none(args: &[Value]) -> bool
    ensures { result ≡ spec.are_none args.now }
{
    matches!(args, [])
}

/// A byte of the input.
fn reading<'a>(args: &[Value]) -> Result<Transfer, Stop<'a>>
    ensures { (world : worlds.World) (w : Shown) → Continues transfer_act world (meaning.library_call worlds.GetChar args.now) w result w }
{
    if are_none(args) {
        Ok(Transfer::Read)
    } else {
        Err(Stop::Ended(Ending::Wrong))
    }
}

/// The low byte of a word, for the output.
fn writing<'a>(args: &[Value]) -> Result<Transfer, Stop<'a>>
    ensures { (world : worlds.World) (w : Shown) → Continues transfer_act world (meaning.library_call worlds.PutChar args.now) w result w }
{
    match only_number(args) {
        Some(n) => Ok(Transfer::Write((n % 256) as u8)),
        None => Err(Stop::Ended(Ending::Wrong)),
    }
}

/// The end of the run, with the low byte of a word.
fn exiting<'a>(args: &[Value]) -> Result<Transfer, Stop<'a>>
    ensures { (world : worlds.World) (w : Shown) → Continues transfer_act world (meaning.library_call worlds.ExitRun args.now) w result w }
{
    match only_number(args) {
        Some(n) => Err(Stop::Ended(Ending::Exit((n % 256) as u8))),
        None => Err(Stop::Ended(Ending::Wrong)),
    }
}

/// What a function of the library does with its arguments: it reads or writes a byte, which gives its result, or it ends the run.
fn library_call<'a>(function: LibraryFunction, args: &[Value]) -> Result<Transfer, Stop<'a>>
    ensures { (world : worlds.World) (w : Shown) → Continues transfer_act world (meaning.library_call (view_library function) args.now) w result w }
{
    match function {
        LibraryFunction::GetChar => reading(args),
        LibraryFunction::PutChar => writing(args),
        LibraryFunction::ExitRun => exiting(args),
    }
}

/// The full name of a function of the library.
fn library_name(function: LibraryFunction) -> &'static [u8]
    ensures { result.now ≡ (callable_of (Body.Library function)).name }
{
    match function {
        LibraryFunction::ExitRun => EXIT,
        LibraryFunction::GetChar => GETCHAR,
        LibraryFunction::PutChar => PUTCHAR,
    }
}

/// A call of a function of the library, which costs no bound.
pub fn call_library<'a>(
    world: &'a World<'a>,
    state: &State,
    function: LibraryFunction,
    args: &[Value],
) -> Result<Transfer, Stop<'a>>
    ensures { (n : ℕ) → Continues transfer_act (view_world world.now) (meaning.call (view_world world.now) (runs.calls (view_world world.now) n) (callable_of (Body.Library function)) args.now) (view_state state.now) result (view_state state.now) }
{
    take_room(world, state, library_name(function))?;
    library_call(function, args)
}
