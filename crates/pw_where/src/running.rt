//! Runs up to a call.

ghost use Rattle.std.specs.Prelude.{◌≡◌, ◌-◌, ◌<◌, ℕ, List, None, IfSome, false, slice_index_or};
ghost use Rattle.pw_machine.specs.Run.{start_state};
ghost use Rattle.pw_where.specs.Calls.{is_at, one_if, Tells, Reaches, FaultCount, IsUnwritten};

use pw_io::{DropSink, Source};
use pw_machine::{Machine, Stop, runs_add_up};

/// Where a run came to: it stands before the call that is sought, or it stopped before.
#[derive(Clone, Copy)]
pub enum Reached {
    /// It stands before the call that is sought.
    AtCall,
    /// It stopped before that call, so.
    StoppedBefore(Stop),
}

/// Whether the table has a mark at an address.
fn has_mark(table: &[bool], address: u32) -> bool
    ensures { result ≡ slice_index_or table.now address false }
{
    match table.get(address as usize) {
        Some(mark) => *mark,
        None => false,
    }
}

/// Whether the next step of a machine is a call, by a table that tells where functions begin.
fn is_at(machine: &Machine, table: &[bool]) -> bool
    ensures { (entries : List ℕ) → Tells table.now entries → result ≡ is_at entries machine.now.core }
{
    !machine.is_nullified() && has_mark(table, machine.front())
}

/// How many of so many calls are left behind the next step.
fn left_behind(machine: &Machine, table: &[bool], left: u64) -> u64
    ensures { (entries : List ℕ) → Tells table.now entries → result ≡ left - one_if (is_at entries machine.now.core) }
{
    if is_at(machine, table) {
        left.saturating_sub(1)
    } else {
        left
    }
}

/// Runs a machine that has not stopped up to the call of a number, counted from 1, for at most so many steps; a table
/// tells where functions begin. The machine then stands before the call. Nothing of its output is kept. Takes no memory.
pub(crate) fn run_to_call<I: Source>(
    machine: &mut Machine,
    input: &mut I,
    table: &[bool],
    call: u64,
    budget: u64,
) -> Reached
    requires first { 0 < call }
    requires going { machine.old.core.stopped ≡ None }
    ensures reaches { (entries : List ℕ) → Tells table.now entries → IfSome (I.rest input.old) (λ rest. Reaches entries (start_state machine.old.core rest) call budget result machine.new.core (I.rest input.new)) }
    ensures read { FaultCount (I.faults input.old) (I.faults input.new) result }
    ensures unwritten { IsUnwritten result }
{
    runs_add_up();
    let mut left = call;
    for _step in 0..budget {
        let behind = left_behind(machine, table, left);
        if behind == 0 {
            return Reached::AtCall;
        }
        match machine.run(input, &mut DropSink::new(), 1) {
            Stop::Spent => left = behind,
            stop => return Reached::StoppedBefore(stop),
        }
    }
    Reached::StoppedBefore(Stop::Spent)
}
