//! The laws. A function here does nothing: its clauses are facts about all values.

ghost use Rattle.std.specs.Prelude.{◌≡◌, suc, ℕ, List};
ghost use Rattle.pw_machine.specs.Run.{Running, State, run_of};
ghost use Rattle.pw_run_languages.specs.MachineRun.{Map, noted};
ghost use Rattle.pw_where.specs.Calls.{IsCall, calls_in};
ghost use Rattle.pw_law_where.specs.Counting.{AreEntriesOf, NotesCall, source_calls};

/// Where a run of the machine goes on, its trace has noted as many calls of functions of the source as the debugger counts in
/// the steps that were taken and in the next one.
pub fn traces_count_calls()
    ensures { (entries : List ℕ) (m : Map) (start s : State) (n : ℕ) → AreEntriesOf entries m → run_of n start ≡ Running s → source_calls (noted m start n).log ≡ calls_in entries start (suc n) }
{}

/// At the k-th call that the debugger counts, the latest event of the trace is the k-th call of a function of the source, with
/// where each global object stands directly before the call's first step; and the call is active from there on.
pub fn a_call_is_noted()
    ensures { (entries : List ℕ) (m : Map) (start s : State) (k n : ℕ) → AreEntriesOf entries m → IsCall entries start k n s → NotesCall m k s.core (noted m start n) }
{}
