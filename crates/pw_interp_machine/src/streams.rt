//! Bytes that are read and written between two steps of a run (ISO C90 7.9.7.6, 7.9.7.9).

ghost use Rattle.std.specs.Prelude.{◌≡◌, true, MatchOption};
ghost use Rattle.pw_cmean.specs.Acts as acts;
ghost use Rattle.pw_cmean.specs.Worlds as worlds;
ghost use Rattle.pw_interp_state.specs.Shown.{Shown, Streams};
ghost use Rattle.pw_interp_machine.specs.Standing.{Stands};
ghost use Rattle.pw_interp_machine.specs.Streaming as spec;
ghost use Rattle.pw_interp_machine.specs.Streaming.{IsRead, is_inside, with_byte};

use crate::machine::Machine;
use pw_interp_todo::{Control, Transfer};
use pw_value::Value;
use pw_value::words::END_OF_INPUT;

/// What is to be read or written before a step; `None` where a step follows.
pub fn transfer_of<'a>(control: Control<'a>) -> Option<Transfer>
    ensures { MatchOption result (is_inside control.entry ≡ true) (λ transfer. control.entry ≡ Control.Outside transfer) }
{
    match control {
        Control::Outside(transfer) => Some(transfer),
        _ => None,
    }
}

/// The word of a byte that is read, or -1 at the end of the input.
fn word_read(byte: Option<u8>) -> u32
    ensures { result ≡ spec.word_read byte }
{
    match byte {
        Some(byte) => byte.into(),
        None => END_OF_INPUT,
    }
}

/// A machine that reads gets the next byte of its input, or `None` at the end.
pub fn receive<'a>(machine: &mut Machine<'a>, byte: Option<u8>)
    requires { machine.old.control ≡ Control.Outside Transfer.Read }
    ensures { (main : worlds.Body) (world : worlds.World) (w : Shown) (st new : Streams) (end : acts.Outcome (Unit {0})) → IsRead st byte new
        → Stands main world machine.old (w, st) end → Stands main world machine.new (w, new) end }
{
    let word = word_read(byte);
    machine.control = Control::Gave(Some(Value::Num(word)));
}

/// The byte that a machine writes was put.
pub fn sent<'a>(machine: &mut Machine<'a>, byte: u8)
    requires { machine.old.control ≡ Control.Outside (Transfer.Write byte) }
    ensures { (main : worlds.Body) (world : worlds.World) (w : Shown) (st : Streams) (end : acts.Outcome (Unit {0}))
        → Stands main world machine.old (w, st) end → Stands main world machine.new (w, with_byte byte st) end }
{
    machine.control = Control::Gave(Some(Value::Num(u32::from(byte))));
}
