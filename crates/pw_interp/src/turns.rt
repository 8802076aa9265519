//! The turns of a run: each takes a step of the machine, or reads or writes a byte.

ghost use Rattle.std.specs.Prelude.{◌≡◌, true, List, Option, ℕ};
ghost use Rattle.pw_cmean.specs.Acts as acts;
ghost use Rattle.pw_cmean.specs.Worlds as worlds;
ghost use Rattle.pw_interp_calls.specs.Functions.{callable_of};
ghost use Rattle.pw_interp_state.specs.Shown.{Shown, view_state};
ghost use Rattle.pw_interp_machine.specs.Streaming.{is_inside};
ghost use Rattle.pw_interp.specs.Streaming.{GoesOver, ReadCount, Stopped, Turns, WriteCount};

use crate::ends::{InterpFault, ending_of};
use pw_interp_calls::Ending;
use pw_interp_lasting::runs_go_on;
use pw_interp_machine::{Machine, receive, sent, step, transfer_of};
use pw_interp_state::State;
use pw_interp_todo::{Control, Transfer};
use pw_interp_world::Body;
use pw_io::{Failed, Sink, Source};
use std::alloc::Global;

/// A step of the machine.
fn take_step<'a>(
    alloc: Global,
    machine: &mut Machine<'a>,
    state: &mut State,
    main: Body<'a>,
) -> Result<Option<Ending<'a>>, InterpFault>
    requires { is_inside machine.old.control ≡ true }
    ensures turns { (rest taken : Option (List ℕ)) → Turns (callable_of main.entry).body machine.old (view_state state.old) rest taken result machine.new (view_state state.new) rest taken }
    ensures read { (before : ℕ) → ReadCount before before result }
    ensures write { (before : ℕ) → WriteCount before before result }
{
    runs_go_on();
    match step(alloc, machine, state, main) {
        Ok(()) => Ok(None),
        Err(stop) => {
            let ending = ending_of(stop)?;
            Ok(Some(ending))
        }
    }
}

/// Reads a byte for the machine.
fn read_byte<'a, I: Source>(
    machine: &mut Machine<'a>,
    input: &mut I,
) -> Result<Option<Ending<'a>>, InterpFault>
    requires { machine.old.control ≡ Control.Outside Transfer.Read }
    ensures turns { (main : worlds.Body) (now : Shown) (taken : Option (List ℕ)) → Turns main machine.old now (I.rest input.old) taken result machine.new now (I.rest input.new) taken }
    ensures read { ReadCount (I.faults input.old) (I.faults input.new) result }
    ensures write { (before : ℕ) → WriteCount before before result }
{
    runs_go_on();
    match input.next() {
        Ok(byte) => {
            receive(machine, byte);
            Ok(None)
        }
        Err(Failed) => Err(InterpFault::ReadFault),
    }
}

/// Writes a byte of the machine.
fn write_byte<'a, O: Sink>(
    machine: &mut Machine<'a>,
    byte: u8,
    out: &mut O,
) -> Result<Option<Ending<'a>>, InterpFault>
    requires { machine.old.control ≡ Control.Outside (Transfer.Write byte) }
    ensures turns { (main : worlds.Body) (now : Shown) (rest : Option (List ℕ)) → Turns main machine.old now rest (O.taken out.old) result machine.new now rest (O.taken out.new) }
    ensures read { (before : ℕ) → ReadCount before before result }
    ensures write { WriteCount (O.faults out.old) (O.faults out.new) result }
{
    runs_go_on();
    match out.put(&[byte]) {
        Ok(()) => {
            sent(machine, byte);
            Ok(None)
        }
        Err(Failed) => Err(InterpFault::WriteFault),
    }
}

/// Reads or writes a byte for the machine.
fn exchange<'a, I: Source, O: Sink>(
    machine: &mut Machine<'a>,
    transfer: Transfer,
    input: &mut I,
    out: &mut O,
) -> Result<Option<Ending<'a>>, InterpFault>
    requires { machine.old.control ≡ Control.Outside transfer }
    ensures turns { (main : worlds.Body) (now : Shown) → Turns main machine.old now (I.rest input.old) (O.taken out.old) result machine.new now (I.rest input.new) (O.taken out.new) }
    ensures read { ReadCount (I.faults input.old) (I.faults input.new) result }
    ensures write { WriteCount (O.faults out.old) (O.faults out.new) result }
{
    match transfer {
        Transfer::Read => read_byte(machine, input),
        Transfer::Write(byte) => write_byte(machine, byte, out),
    }
}

/// A turn of a run: how it has ended, or `None` where it goes on.
fn turn<'a, I: Source, O: Sink>(
    alloc: Global,
    machine: &mut Machine<'a>,
    state: &mut State,
    main: Body<'a>,
    input: &mut I,
    out: &mut O,
) -> Result<Option<Ending<'a>>, InterpFault>
    ensures turns { Turns (callable_of main.entry).body machine.old (view_state state.old) (I.rest input.old) (O.taken out.old) result machine.new (view_state state.new) (I.rest input.new) (O.taken out.new) }
    ensures read { ReadCount (I.faults input.old) (I.faults input.new) result }
    ensures write { WriteCount (O.faults out.old) (O.faults out.new) result }
{
    match transfer_of(machine.control) {
        None => take_step(alloc, machine, state, main),
        Some(transfer) => exchange(machine, transfer, input, out),
    }
}

/// Runs a machine of a program with this main function to its end, and answers how it ended. A run of 2^64 turns is want of
/// memory.
pub(crate) fn run<'a, I: Source, O: Sink>(
    alloc: Global,
    machine: Machine<'a>,
    state: &mut State,
    main: Body<'a>,
    input: &mut I,
    out: &mut O,
) -> Result<Ending<'a>, InterpFault>
    ensures stops { (world : worlds.World) (end : acts.Outcome (Unit {0})) (bytes : List ℕ) (taken : Option (List ℕ))
        → GoesOver (callable_of main.entry).body machine.entry (view_state state.old) world end bytes taken (I.rest input.old) (O.taken out.old)
        → Stopped result (view_state state.new) world end bytes taken (I.rest input.new) (O.taken out.new) }
    ensures read { ReadCount (I.faults input.old) (I.faults input.new) result }
    ensures write { WriteCount (O.faults out.old) (O.faults out.new) result }
{
    runs_go_on();
    let mut machine = machine;
    for _ in 0..u64::MAX {
        let ended = turn(alloc, &mut machine, state, main, input, out)?;
        if let Some(ending) = ended {
            return Ok(ending);
        }
    }
    Err(InterpFault::NoMemory)
}
