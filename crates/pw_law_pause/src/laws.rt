//! The laws. A function here does nothing: its clause is a fact about all values.

ghost use Rattle.std.specs.Prelude.{[], ◌∷◌, ◌≡◌, ◌≤◌, ℕ, Contains, List};
ghost use Rattle.pw_cmean.specs.Acts.{Called, Ends, StackFull, State};
ghost use Rattle.pw_cmean.specs.SourceRun.{run_main, start_state};
ghost use Rattle.pw_cmean.specs.Worlds.{World};
ghost use Rattle.pw_law_pause.specs.Moments.{IsOlder, HasRoom, noted_within, with_stack};
ghost use Rattle.pw_value.specs.ProgramNames.{library_functions, start_name};

/// What a run notes within a bound it notes first within every greater bound, however either ends.
pub fn longer_runs_note_more()
    ensures { (world : World) (input : List ℕ) (n m : ℕ) → n ≤ m → IsOlder (noted_within world input n) (noted_within world input m) }
{}

/// What a run notes it notes first where there is room on the stack for as many functions, and maybe for more: the two part
/// only where the one has no room.
pub fn roomier_runs_note_more()
    ensures { (world : World) (frame_of : List ℕ → ℕ) (stack : ℕ) (input : List ℕ) (n : ℕ) → ((active : List (List ℕ)) → HasRoom world active → HasRoom (with_stack frame_of stack world) active) →
        IsOlder (noted_within world input n) (noted_within (with_stack frame_of stack world) input n) }
{}

/// Where a run ends for want of stack, the run where no function takes room notes a call next, with the objects as they are then:
/// the call that was refused. The functions of the library take no room, and `$start` has some.
pub fn refused_calls_come_next()
    ensures { (world : World) (input : List ℕ) (n : ℕ) (t : State) → ((name : List ℕ) → Contains library_functions name → world.frame_of name ≡ 0) → HasRoom world (start_name ∷ []) →
        run_main world n (start_state world.program input) ≡ Ends StackFull t →
        (name : List ℕ) × IsOlder (Called name t.objects ∷ t.moments) (noted_within (with_stack (λ f. 0) 0 world) input n) }
{}
