//! The value of a global while functions are active.

ghost use Rattle.std.specs.Prelude.{◌≡◌, ◌<◌};
ghost use Rattle.std.specs.List.{AllByRecursion};
ghost use Rattle.pw_debug.specs.Knowing.{IsFrame};
ghost use Rattle.pw_debug.specs.Walk.{registers_of, seen, start_of, told, WalksTo};

use crate::info::{FrameInfo, Lost};
use crate::turning::{At, Finding, turn};
use pw_image::{Function, GlobalObject};
use pw_inst::{RETURN_ADDRESS, STACK_POINTER};
use pw_machine::Machine;
use pw_value::Kind;

/// The registers of a machine.
fn registers(machine: &Machine) -> [u32; 32]
    ensures { result ≡ registers_of machine.now.core }
{
    let mut registers = [0; 32];
    for r in 0..32 {
        registers[usize::from(r)] = machine.reg(r);
    }
    registers
}

/// Where the walk of a machine starts.
fn start_of(machine: &Machine) -> At
    ensures { result ≡ start_of machine.now.core }
{
    At {
        stack: machine.reg(STACK_POINTER),
        link: machine.reg(RETURN_ADDRESS),
        registers: registers(machine),
    }
}

/// The value of a global object of a kind, as a word, while a machine stands at the start of a function. The walk goes from the
/// function that called outward, by the map of the program's functions and what is known of their frames: the value is in
/// the register of the first function that has a web of the global, as it is when all that were called later have given
/// back what they saved; or else in memory. Takes no memory.
///
/// It is lost exactly where an address to which a call returns lies in no known function's words, or a frame is larger than
/// the stack pointer, or a word that is needed is not there.
pub fn global_at(
    machine: &Machine,
    functions: &[Function],
    frames: &[FrameInfo],
    object: &GlobalObject,
    kind: Kind,
) -> Result<u32, Lost>
    requires { AllByRecursion IsFrame frames.now }
    ensures { WalksTo (seen machine.now.core.memory functions.now frames.now object.now kind) (start_of machine.now.core) (told result) }
{
    let mut at = start_of(machine);
    loop {
        match turn(machine, functions, frames, object, kind, &at) {
            Finding::Found(value) => return Ok(value),
            Finding::Nothing => return Err(Lost(at.link)),
            Finding::On(next) => at = next,
        }
    }
}
