//! The run of a machine, as an answer.

ghost use Rattle.std.specs.Prelude.{◌≡◌, IfSome};
ghost use Rattle.pw_machine.specs.Run.{run_of};
ghost use Rattle.pw_top_answer.specs.Outcomes.{Answers, InputCount, LeavesInput, OutputCount, PutsOut};
ghost use Rattle.pw_commands.specs.MachineRun.{IsRunAnswer, run_answer, run_output, run_rest, start_state, stop_answer};

use pw_io::{Sink, Source};
use pw_machine::{Machine, Stop};
use pw_top_answer::Answer;

/// The answer to how a run stopped.
pub fn answer_of_stop(stop: Stop) -> Answer
    ensures { result ≡ stop_answer stop }
{
    match stop {
        Stop::Ended(status) => Answer::Ended(status),
        Stop::StackStop => Answer::StackStop,
        Stop::Spent => Answer::Spent,
        Stop::Halted(halt, at) => Answer::Halted(halt, at),
        Stop::ReadFault => Answer::ReadFault,
        Stop::WriteFault => Answer::WriteFault,
    }
}

/// Runs a machine for at most `budget` instructions, reading from `input` and writing to `out`. The answer and what is
/// put out are those of the machine's run; a fault of the input or the output may come in place of the answer, and then
/// a prefix of the run's output was put out.
pub fn run_machine<I: Source, O: Sink>(
    machine: &mut Machine,
    input: &mut I,
    out: &mut O,
    budget: u64,
) -> Answer
    ensures answer { IfSome (I.rest input.old) (λ rest. Answers (run_answer (run_of budget (start_state machine.old.core rest))) result) }
    ensures output { IfSome (I.rest input.old) (λ rest. PutsOut (run_output (run_of budget (start_state machine.old.core rest))) result (O.taken out.old) (O.taken out.new)) }
    ensures rest { IfSome (I.rest input.old) (λ rest. LeavesInput (run_rest (run_of budget (start_state machine.old.core rest))) rest result (I.rest input.new)) }
    ensures read { InputCount (I.faults input.old) (I.faults input.new) result }
    ensures write { OutputCount (O.faults out.old) (O.faults out.new) result }
    ensures run { IsRunAnswer result }
{
    answer_of_stop(machine.run(input, out, budget))
}
