//! What a call of the program answers.

ghost use Rattle.std.specs.Prelude.{◌≡◌};
ghost use Rattle.std.specs.Process.{exit_status};
ghost use Rattle.pw_top_answer.specs.Answers.{is_untold, status_of};

use pw_cmean::Undef;
use pw_cpp::CppFault;
use pw_front_end::Refusal;
use pw_io::StoreError;
use pw_machine::Halt;
use pw_store_modules::ModulesFault;
use pw_value::{LinkFault, Name, What, Word};
use std::alloc::AllocError;
use std::process::ExitCode;

/// What a call of the program answers.
#[derive(Drop)]
pub enum Answer {
    /// The command did what it is for.
    Done,
    /// The program ran and ended with this status.
    Ended(u8),
    /// The words are no command line.
    Usage,
    /// The module of this name is refused.
    Refused(Name, Refusal),
    /// The output that the preprocessor makes of the C source of the module of this name is refused.
    RefusedSource(Name, Refusal),
    /// The preprocessor refuses a file.
    Cpp(CppFault),
    /// The modules are refused together.
    LinkRefused(LinkFault),
    /// The program stopped for want of stack.
    StackStop,
    /// The budget of instructions was spent.
    Spent,
    /// The instruction at this address halted the program.
    Halted(Halt, Word),
    /// The input had a fault.
    ReadFault,
    /// The output had a fault.
    WriteFault,
    /// The store had a fault.
    StoreFault,
    /// Memory ran out.
    NoMemory,
    /// The file of this name, which the command needs, is absent, or is refused at this offset.
    BadFile(Name, Option<usize>),
    /// The script has no lawful line at this offset.
    BadScript(u64),
    /// A walk over the frames of the functions that are active is lost at this address.
    NoFrames(Word),
    /// The program met an operation that has no meaning in C, in the module of this name, at this token.
    Undefined(Undef, Name, usize),
    /// The same, in the module of this name that has a C source, at this token of the output that the preprocessor makes of it.
    UndefinedSource(Undef, Name, usize),
}

/// What came of a command. Where a module is refused, or an undefined operation is met in it, `line` is the line of its text on
/// which that is, counted from 1.
#[derive(Drop)]
pub struct Reply {
    pub answer: Answer,
    pub line: Option<usize>,
}

impl From<AllocError> for Answer {
    ghost use Rattle.std.specs.Prelude.{◌≡◌};
    ghost use Rattle.pw_top_answer.specs.declared.answer.Answer.TheVariants.{NoMemory};

    ghost from_gives = { λ _ answer. answer ≡ NoMemory };

    fn from(_none: AllocError) -> Answer {
        Answer::NoMemory
    }
}

impl From<StoreError> for Answer {
    ghost use Rattle.std.specs.Prelude.{◌≡◌};
    ghost use Rattle.pw_top_answer.specs.Outcomes.{store_answer};

    ghost from_gives = { λ error answer. answer ≡ store_answer error };

    fn from(error: StoreError) -> Answer {
        match error {
            StoreError::Failed => Answer::StoreFault,
            StoreError::NoMemory => Answer::NoMemory,
        }
    }
}

impl From<ModulesFault> for Answer {
    ghost use Rattle.std.specs.Prelude.{◌≡◌};
    ghost use Rattle.pw_top_answer.specs.Outcomes.{modules_answer};

    ghost from_gives = { λ fault answer. answer ≡ modules_answer fault };

    fn from(fault: ModulesFault) -> Answer {
        match fault {
            ModulesFault::TooMany(count) => Answer::LinkRefused(LinkFault::TooMany(
                What::Modules,
                count,
            )),
            ModulesFault::Store(error) => Answer::from(error),
        }
    }
}

/// The status with which the process ends: 0 where the command did what it is for, that of the run where it ended, else
/// one from 112 on.
pub fn status(answer: &Answer) -> u8
    ensures { result ≡ status_of answer.now }
{
    match answer {
        Answer::Done => 0,
        Answer::Ended(status) => *status,
        Answer::Usage => 112,
        Answer::Refused(_, _) | Answer::RefusedSource(_, _) | Answer::Cpp(_) => 113,
        Answer::LinkRefused(_) => 114,
        Answer::StackStop => 115,
        Answer::Spent => 116,
        Answer::Halted(_, _) => 117,
        Answer::ReadFault => 118,
        Answer::WriteFault => 119,
        Answer::StoreFault => 120,
        Answer::NoMemory => 121,
        Answer::BadFile(_, _) => 122,
        Answer::BadScript(_) => 123,
        Answer::Undefined(_, _, _) | Answer::UndefinedSource(_, _, _) => 124,
        Answer::NoFrames(_) => 125,
    }
}

/// What the process ends with, by the answer.
pub fn exit_of(answer: &Answer) -> ExitCode
    ensures { exit_status result ≡ status_of answer.now }
{
    ExitCode::from(status(answer))
}

/// Whether no line tells the answer: the command did what it is for, or the program ended.
pub fn is_untold(answer: &Answer) -> bool
    ensures { result ≡ is_untold answer.now }
{
    matches!(answer, Answer::Done | Answer::Ended(_))
}
