//! What a run of the machine within a budget tells of the source with which it agrees, without code.
#![tactic(auto)]

ghost use Rattle.std.specs.Prelude.{ℕ, ◌<◌, List};
ghost use Rattle.pw_machine.specs.Core.{Core};
ghost use Rattle.pw_machine.specs.Run.{run_of, start_state};
ghost use Rattle.pw_run_agreement.specs.Agreement.{SourceRun, Agree, IsMeaningful};
ghost use Rattle.pw_law_stops.specs.Stops.{Tells};

use pw_machine::runs_add_up;

/// Where source and machine agree over an input, each run of the source with a bound above the machine's budget either meets
/// an undefined operation or is told by the machine's run: an end is the source's, with its output and its count of bytes read,
/// and so is a stop for want of stack; the machine does not halt; and where the budget is spent, its output is a prefix of the
/// source's.
pub fn stops_are_those_of_the_source()
    ensures { (run : ℕ → SourceRun) (core : Core) (input : List ℕ) → Agree run core input →
        (budget bound : ℕ) → budget < bound → IsMeaningful (run bound).end → Tells input (run_of budget (start_state core input)) (run bound) }
{
    runs_add_up();
}
