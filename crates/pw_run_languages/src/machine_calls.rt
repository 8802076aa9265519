//! The machine's run of a linked program in definitions, with what it notes.

ghost use Rattle.std.specs.Prelude.{ℕ, ◌≡◌, List};
ghost use Rattle.pw_db.specs.declared.database.Directives.{Directives};
ghost use Rattle.pw_db_sound.specs.CallGraphs.{Graph};
ghost use Rattle.pw_machine.specs.Core.{Core};
ghost use Rattle.pw_machine.specs.Run.{State};
ghost use Rattle.pw_run.specs.Runs.{AreAlike};
ghost use Rattle.pw_run_languages.specs.Traces.{Notes, SameKind};
ghost use Rattle.pw_run_languages.specs.Traffic.{ObeysTraffic};
ghost use Rattle.pw_run_languages.specs.ImageTrace.{start_state, traced};
ghost use Rattle.pw_run_languages.specs.MachineRun.{Map, noted, own_active, symbols_in, told_active, traced_run};

/// The calls that are active by what the machine has noted are those that it has itself: each since the step that
/// stood at its function, until one stands at its return address with the stack pointer as it was.
#[tactic(auto, using(crate::proofs::OwnCalls::calls_are_own))]
pub fn noted_calls_are_its_own()
    ensures { (m : Map) (s : State) (n : ℕ) → told_active (noted m s n).log ≡ own_active (noted m s n).calls }
{}

/// The trace of an image tells what the machine notes, without where globals stand and what registers hold: the same
/// calls, returns, loads and stores in the same order. So where what is noted obeys the law of traffic at each stage, the
/// trace does after any number of steps.
pub fn traces_tell_what_is_noted()
    ensures tells { (m : Map) (s : State) (n : ℕ) → AreAlike SameKind (noted m s n).log (traced (symbols_in m) s n).told }
    ensures traffic { (g : Graph) (d : List (List ℕ × Directives)) (m : Map) (c : Core) (input : List ℕ) →
        ((n : ℕ) → Notes (ObeysTraffic g d) (traced_run m c input n)) → (n : ℕ) → ObeysTraffic g d (traced (symbols_in m) (start_state c input) n).told }
{}
