//! The general registers of the calling convention (PA-RISC 1.1) by their parts.

ghost use Rattle.std.specs.Prelude.{◌≡◌};
ghost use Rattle.pw_inst.specs.Registers as registers;

/// For addresses and small things on the way.
pub const HELP: u8 = 1;

/// The return address.
pub const RETURN_ADDRESS: u8 = 2;

/// The second operand.
pub const SECOND: u8 = 21;

/// The first operand.
pub const FIRST: u8 = 22;

/// The first argument; the others follow downward.
pub const ARGUMENT: u8 = 26;

/// What a called function answers.
pub const ANSWER: u8 = 28;

/// What a routine or an operation gives.
pub const RESULT: u8 = 29;

/// The stack pointer.
pub const STACK_POINTER: u8 = 30;

/// The address behind a routine's call.
pub const ROUTINE_LINK: u8 = 31;

/// The registers are those that the definitions speak of.
pub fn registers_of_the_convention()
    ensures help { HELP ≡ registers.help }
    ensures return_address { RETURN_ADDRESS ≡ registers.return_address }
    ensures second { SECOND ≡ registers.second }
    ensures first { FIRST ≡ registers.first }
    ensures argument { ARGUMENT ≡ registers.argument_register 0 }
    ensures answer { ANSWER ≡ registers.answer }
    ensures routine_result { RESULT ≡ registers.result }
    ensures stack_pointer { STACK_POINTER ≡ registers.stack_pointer }
    ensures routine_link { ROUTINE_LINK ≡ registers.routine_link }
{}
