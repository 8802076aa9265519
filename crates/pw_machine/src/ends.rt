// How a run ends, and what a call of `run` answers.

ghost use Rattle.std.specs.Prelude.{◌≡◌, Some};
ghost use Rattle.pw_machine.specs.Stops.{end_of};

/// Why an instruction halts the run.
#[derive(Clone, Copy, Debug)]
pub enum Halt {
    /// The word is no instruction.
    Illegal,
    /// An address is no multiple of the size of its access.
    Unaligned,
    /// An access is not wholly in the memory from the start of the text on.
    OutOfMemoryRange,
    /// A store lies below the start of data.
    TextWrite,
    /// The next instruction is not in the text, or its address is no multiple of 4.
    BadBranch,
    /// A BREAK that asks for nothing that the machine knows.
    BadBreak,
}

/// How a run ends.
#[derive(Clone, Copy)]
pub enum End {
    /// The program ended with this status.
    Ended(u8),
    /// The program stopped for want of stack.
    StackStop,
    /// The instruction at this address halted the run.
    Halted(Halt, u32),
}

/// What a call of `run` answers.
#[derive(Clone, Copy, Debug)]
pub enum Stop {
    /// The program ended with this status.
    Ended(u8),
    /// The program stopped for want of stack.
    StackStop,
    /// The budget was spent, and the run has not stopped.
    Spent,
    /// The instruction at this address halted the run.
    Halted(Halt, u32),
    /// The input had a fault.
    ReadFault,
    /// The output had a fault.
    WriteFault,
}

/// The answer that tells an end.
pub(crate) fn stop_of(end: End) -> Stop
    ensures { end_of result ≡ Some end }
{
    match end {
        End::Ended(status) => Stop::Ended(status),
        End::StackStop => Stop::StackStop,
        End::Halted(halt, at) => Stop::Halted(halt, at),
    }
}
