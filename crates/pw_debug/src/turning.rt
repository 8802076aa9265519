//! One function after another of those that are active.

ghost use Rattle.std.specs.Prelude.{◌≡◌, ◌<◌, IfSome};
ghost use Rattle.std.specs.List.{AllByRecursion};
ghost use Rattle.std.specs.Option.{option_copied};
ghost use Rattle.pw_debug.specs.Knowing.{IsFrame, IsKept};
ghost use Rattle.pw_webflow.specs.Direction.{register_of};
ghost use Rattle.pw_debug.specs.Walk.{given_back, outward, found_or_nothing, on_or_nothing, turn, turn_in_memory, seen, GoesLower};

use crate::holding::frame_at;
use crate::info::FrameInfo;
use crate::words::{in_memory, of_kind, word_beside};
use pw_alloc::{LINK_PLACE, below, numbers_of_frames};
use pw_db::{Role, Web};
use pw_image::{Function, GlobalObject};
use pw_machine::Machine;
use pw_value::program_names::START;
use pw_value::{Kind, Name};

/// Where a walk stands: the stack pointer at a call, the address that it returns to, and the registers as they are when
/// what was called later has given back what it saved.
#[derive(Clone, Copy)]
pub struct At {
    pub stack: u32,
    pub link: u32,
    pub registers: [u32; 32],
}

/// What a turn of a walk comes to at a function.
pub enum Finding {
    /// The value is found.
    Found(u32),
    /// No value can be found.
    Nothing,
    /// The walk goes on at this call.
    On(At),
}

/// The registers when a function has given back what it saved, if no word is missing.
fn given_back(
    machine: &Machine,
    stack: u32,
    saved: &[(u8, i32)],
    registers: [u32; 32],
) -> Option<[u32; 32]>
    requires { AllByRecursion (λ s. IsKept s.0) saved.now }
    ensures { result ≡ given_back machine.now.core.memory stack saved.now registers }
{
    let mut registers = registers;
    let mut rest = saved;
    while let [(r, offset), after @ ..] = rest {
        registers[usize::from(*r)] = word_beside(machine, stack, *offset)?;
        rest = after;
    }
    Some(registers)
}

/// The call of the function that called, if its frame is there and no word of it is missing.
fn outward(machine: &Machine, frame: &FrameInfo, at: &At) -> Option<At>
    requires { IsFrame frame.now }
    ensures value { result ≡ outward machine.now.core.memory frame.now at.now }
    ensures lower { IfSome result (λ a. a.stack < at.now.stack) }
{
    numbers_of_frames();
    if at.stack < frame.frame {
        return None;
    }
    let stack = at.stack - frame.frame;
    let registers = given_back(machine, at.stack, frame.saved.as_slice(), at.registers)?;
    let link = word_beside(machine, stack, below(LINK_PLACE))?;
    Some(At {
        stack,
        link,
        registers,
    })
}

/// The register of a global among a function's webs.
fn register_of(webs: &[(Web, Role)], global: &Name) -> Option<u8>
    ensures { result ≡ register_of webs.now global.now }
{
    let mut rest = webs;
    while let [(web, _), after @ ..] = rest {
        if web.global == *global {
            return Some(web.reg);
        }
        rest = after;
    }
    None
}

/// The same of a function that has its webs in registers that a callee keeps.
#[tactic(auto, using(crate::proofs::Finding::lawful_register))]
fn kept_register(webs: &[(Web, Role)], global: &Name) -> Option<u8>
    requires { AllByRecursion (λ w. IsKept w.0.reg) webs.now }
    ensures value { result ≡ register_of webs.now global.now }
    ensures kept { IfSome result IsKept }
{
    let register = register_of(webs, global);
    register
}

/// What comes of the word that memory holds.
fn found(value: Option<u32>) -> Finding
    ensures { result ≡ found_or_nothing value }
{
    match value {
        Some(value) => Finding::Found(value),
        None => Finding::Nothing,
    }
}

/// What comes of the call behind a frame.
fn on(at: Option<At>) -> Finding
    ensures { result ≡ on_or_nothing at }
{
    match at {
        Some(at) => Finding::On(at),
        None => Finding::Nothing,
    }
}

/// What comes of a function that has no web of the global: `$start` leaves it in memory.
fn turn_in_memory(
    machine: &Machine,
    object: &GlobalObject,
    kind: Kind,
    frame: &FrameInfo,
    at: &At,
) -> Finding
    requires { IsFrame frame.now }
    ensures value { result ≡ turn_in_memory machine.now.core.memory kind object.now.address at.now frame.now }
    ensures lower { GoesLower at.now result }
{
    if frame.function.as_bytes() == START {
        found(in_memory(machine, kind, object.address))
    } else {
        on(outward(machine, frame, at))
    }
}

/// What comes of the function in whose words the address lies to which a call returns.
pub fn turn(
    machine: &Machine,
    functions: &[Function],
    frames: &[FrameInfo],
    object: &GlobalObject,
    kind: Kind,
    at: &At,
) -> Finding
    requires { AllByRecursion IsFrame frames.now }
    ensures value { result ≡ turn (seen machine.now.core.memory functions.now frames.now object.now kind) at.now }
    ensures lower { GoesLower at.now result }
{
    let Some(frame) = frame_at(functions, frames, at.link) else {
        return Finding::Nothing;
    };
    match kept_register(frame.webs.as_slice(), &object.name) {
        Some(r) => Finding::Found(of_kind(kind, at.registers[usize::from(r)])),
        None => turn_in_memory(machine, object, kind, frame, at),
    }
}
