//! The laws. A function here does nothing: its clause is a fact about all values.

ghost use Rattle.std.specs.Prelude.{◌≡◌, ◌<◌, ℕ, List, length};
ghost use Rattle.pw_db.specs.declared.database.Directives.{Directives};
ghost use Rattle.pw_alloc.specs.declared.located.Located.{Located};
ghost use Rattle.pw_run.specs.Runs.{Over, StackFull, View};
ghost use Rattle.pw_run_languages.specs.Programs.{NoneForLibrary, Program};
ghost use Rattle.pw_run_languages.specs.Addresses.{Addresses};
ghost use Rattle.pw_run_languages.specs.FlowRun as flow;
ghost use Rattle.pw_run_languages.specs.FlowRun.{flow_run};
ghost use Rattle.pw_run_languages.specs.PlacedRun as placed;
ghost use Rattle.pw_run_languages.specs.PlacementLaws.{DirectionKeeps, PlacesKeep};
ghost use Rattle.pw_run_languages.specs.Direction.{with_functions};
ghost use Rattle.pw_law_selection.specs.Following.{IsGiven};
ghost use Rattle.pw_law_layers.specs.Whole.{roomless};
ghost use Rattle.pw_law_refused.specs.Refused.{HasShown, IsRefused, IsRefusedAlike, NotesRefused, behind};

use pw_law_direction::start_is_not_called;
use pw_law_room::laws::active_calls_have_room;
use pw_law_select_calls::functions_go_in;
use pw_law_select_frames::{
    calls_are_noted_alike, calls_are_reached, frames_are_laid_out, functions_are_entered,
    functions_come_back, states_amid_go_on, waiting_functions_stay, whole_states_go_on,
};
use pw_law_select_kept::{
    functions_enter_as_found, functions_return_as_found, kept_registers_are_saved,
    operations_leave_as_found,
};
use pw_law_select_known::{
    active_calls_are_noted, calls_alone_stop, entered_frames_are_known, functions_stand_in_blocks,
    pointers_are_known, webs_keep_shape,
};
use pw_law_selection::{passages_come, starts_are_followed, steps_are_followed};

/// Where the placed run stops for want of stack, it is at an operation that calls a function of a module, with which the stack
/// would be exceeded.
pub fn stops_are_refusals()
    ensures { (p : Program) (d : List (List ℕ × Directives)) (functions : List Located) (w : Addresses) (input : List ℕ) (n : ℕ) (m u : placed.Machine) → IsGiven p d functions w input → NoneForLibrary p.frame_of →
        placed.steps (with_functions p functions) n (placed.start (with_functions p functions) input) ≡ placed.On m → placed.step (with_functions p functions) m ≡ placed.Stopped StackFull u →
        IsRefused p functions m u }
{
    active_calls_have_room();
    active_calls_are_noted();
    calls_alone_stop();
    functions_stand_in_blocks();
}

/// Where the run of flow graphs stops for want of stack, and the run of the same graphs where no function takes room comes to more
/// calls and returns, the placed run is refused a call; and what it noted with that call is alike to the first of those, one more than
/// the run that stopped has noted.
pub fn graphs_are_refused_alike()
    ensures { (p : Program) (d : List (List ℕ × Directives)) (functions : List Located) (w : Addresses) (input : List ℕ) (n k : ℕ) (v u : View flow.Moment) → IsGiven p d functions w input →
        DirectionKeeps p d input → PlacesKeep p d functions input → DirectionKeeps (roomless p) d input → PlacesKeep (roomless p) d functions input →
        flow_run p input n ≡ Over StackFull v → HasShown (flow_run (roomless p) input k) u → length v.log < length u.log → IsRefusedAlike p functions input (length v.log) u.log }
{
    active_calls_are_noted();
    calls_alone_stop();
    start_is_not_called();
    stops_are_refusals();
    webs_keep_shape();
}

/// Where the placed run is refused a call, the run of lines comes to a state in which it has noted the call, with the globals in the
/// like places with like contents.
pub fn refused_calls_are_noted()
    ensures { (p : Program) (d : List (List ℕ × Directives)) (functions : List Located) (w : Addresses) (scratch : ℕ → (ℕ → ℕ) → ℕ → ℕ) (input : List ℕ) (n : ℕ) (m u : placed.Machine) → IsGiven p d functions w input →
        placed.steps (with_functions p functions) n (placed.start (with_functions p functions) input) ≡ placed.On m → (refused : IsRefused p functions m u) →
        NotesRefused p functions w scratch input (behind refused.ops m) refused.function.body.name }
{
    active_calls_are_noted();
    calls_alone_stop();
    calls_are_noted_alike();
    calls_are_reached();
    entered_frames_are_known();
    frames_are_laid_out();
    functions_are_entered();
    functions_come_back();
    functions_enter_as_found();
    functions_go_in();
    functions_return_as_found();
    functions_stand_in_blocks();
    kept_registers_are_saved();
    operations_leave_as_found();
    passages_come();
    pointers_are_known();
    starts_are_followed();
    states_amid_go_on();
    steps_are_followed();
    waiting_functions_stay();
    whole_states_go_on();
}
