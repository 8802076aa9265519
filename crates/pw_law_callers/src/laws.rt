//! The laws. A function here does nothing: its clause is a fact about all values.

ghost use Rattle.std.specs.Prelude.{◌≡◌, ◌≤◌, ◌+◌, ◌%◌, ℕ, List, Some, ◌∷◌, map, Contains};
ghost use Rattle.std.specs.List.{AllByRecursion, flat_map, sum_by};
ghost use Rattle.pw_value.specs.Limits.{memory_size, text_start};
ghost use Rattle.pw_value.specs.ProgramNames.{start_name};
ghost use Rattle.pw_db_sound.specs.CallGraphs.{Graph, Calls};
ghost use Rattle.pw_alloc.specs.ValidPlaces.{IsLocated};
ghost use Rattle.pw_run_languages.specs.Traces.{Event};
ghost use Rattle.pw_run_languages.specs.Calls.{FollowsCalls};
ghost use Rattle.pw_run_languages.specs.Links.{LinksStand};
ghost use Rattle.pw_run_languages.specs.LineRun.{LineFn, Frame, Machine, function_named, name_of, return_address};
ghost use Rattle.pw_run_languages.specs.MachineRun.{active_as, told_active};
ghost use Rattle.pw_debug.specs.Holding.{frame_at};
ghost use Rattle.pw_debug.specs.Walk.{Seen, start_of};
ghost use Rattle.pw_debug_frames.specs.Frames.{frame_info};
ghost use Rattle.pw_law_walk.specs.Chains.{Callers, StandsInMemory};
ghost use Rattle.pw_law_link_run.specs.Steps.{Setting, map_in};
ghost use Rattle.pw_law_link_run.specs.Simulating.{IsCaller, IsLinked, Simulates, calls_behind};
ghost use Rattle.pw_law_link_run.specs.Leveled.{AreFramed, ChainFrom, IsInLevel};
ghost use Rattle.pw_law_entered.specs.Entered.{HasEntered, first_active, first_call};
ghost use Rattle.pw_law_callers.specs.Others.{OthersDiffer};

/// Where a function has just been entered, and the machine shows that, the functions that are active stand one behind another
/// as a walk over the machine's memory meets them, from the caller on: if their return addresses stand in memory in the run of
/// lines, the debugger knows each function in whose words a call returns, and only the first is `$start`.
pub fn active_functions_are_callers()
    ensures { (x : Setting) (fr : AreFramed x) (s : Seen) (m : Machine) (f : LineFn) (steps : ℕ) → IsLinked x → text_start ≤ x.addresses.data_start →
        ((g : Frame) → IsCaller x g → frame_at s.functions s.frames (return_address x.addresses g g.left) ≡ Some (frame_info g.function.located)) →
        ((g : LineFn) → Contains x.program.functions g → IsLocated g.located) →
        (h : Simulates x m steps) → s.memory ≡ h.at.core.memory → HasEntered x m → IsInLevel x fr m → LinksStand x.addresses m.core m.callers →
        function_named x.program start_name ≡ Some f → first_active m.frame.function m.callers ≡ f → OthersDiffer (map name_of (m.frame ∷ m.callers)) →
        Callers s (start_of h.at.core).stack (start_of h.at.core).link (flat_map (active_as (map_in x)) (calls_behind x m.callers)) }
{}

/// Where each call of a trace is one of a graph in which nothing calls `$start`, of the functions that are active only the first
/// is `$start`.
pub fn only_the_first_is_start()
    ensures { (g : Graph) (log : List (Event ℕ ℕ)) → ((caller : List ℕ) → ¬ Calls g caller start_name) → FollowsCalls g log → OthersDiffer (told_active log) }
{}

/// Where the stack pointers of the functions that are active are in level, from the beginning of the stack on, and their frames
/// together end in the memory, the frame of each stands in it.
pub fn active_frames_stand()
    ensures { (x : Setting) (f first : LineFn) (stack : ℕ) (callers : List Frame) → IsLinked x → text_start ≤ x.addresses.data_start → x.addresses.base % 8 ≡ 0 →
        ((g : LineFn) → Contains x.program.functions g → g.located.frame % 8 ≡ 0) → AllByRecursion (IsCaller x) callers → ChainFrom x stack callers →
        first_call f stack callers ≡ (first, x.addresses.base) → x.addresses.base + sum_by (λ g. g.function.located.frame) callers ≤ memory_size →
        AllByRecursion StandsInMemory (flat_map (active_as (map_in x)) (calls_behind x callers)) }
{}
