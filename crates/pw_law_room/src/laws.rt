//! The law. The function here does nothing: its clause is a fact about all values.

ghost use Rattle.std.specs.Prelude.{ℕ, List};
ghost use Rattle.pw_alloc.specs.declared.located.Located.{Located};
ghost use Rattle.pw_run_languages.specs.Traces.{Notes};
ghost use Rattle.pw_run_languages.specs.Programs.{NoneForLibrary, Program};
ghost use Rattle.pw_run_languages.specs.LawfulPrograms.{StartFits};
ghost use Rattle.pw_run_languages.specs.PlacedRun.{placed_run};
ghost use Rattle.pw_run_languages.specs.Direction.{with_functions};
ghost use Rattle.pw_law_room.specs.Room.{HadRoom};

use pw_law_select_known::active_calls_are_noted;

/// Before each event that a placed run notes, the functions whose calls are active have room on the stack.
pub fn active_calls_have_room()
    ensures { (p : Program) (functions : List Located) (input : List ℕ) → StartFits p → NoneForLibrary p.frame_of → (n : ℕ) → Notes (HadRoom p) (placed_run (with_functions p functions) input n) }
{
    active_calls_are_noted();
}
