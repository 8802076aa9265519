//! The laws. A function here does nothing: its clause is a fact about all values.

ghost use Rattle.std.specs.Prelude.{◌≡◌, ℕ, List, Ok, Err, map, length, Contains};
ghost use Rattle.std.specs.List.{AllByRecursion, flat_map};
ghost use Rattle.pw_value.specs.Objects.{Object as Thing, object_at};
ghost use Rattle.pw_value.specs.declared.value.Kind.{Kind};
ghost use Rattle.pw_value.specs.declared.value.Value.TheVariants.{Num};
ghost use Rattle.pw_flow.specs.ValidFlow.{kind_size};
ghost use Rattle.pw_flow.specs.declared.flow.FlowGlobal.{FlowGlobal};
ghost use Rattle.pw_db.specs.declared.database.Directives.{Directives};
ghost use Rattle.pw_object.specs.declared.object.Object.{Object};
ghost use Rattle.pw_alloc.specs.ValidPlaces.{IsLocated};
ghost use Rattle.pw_alloc.specs.declared.located.Located.{Located};
ghost use Rattle.pw_image.specs.declared.image.GlobalObject.{GlobalObject};
ghost use Rattle.pw_machine.specs.Run.{State};
ghost use Rattle.pw_cmean.specs.Worlds as source;
ghost use Rattle.pw_cmean.specs.Acts.{Moment};
ghost use Rattle.pw_run_agreement.specs.Agreement.{IsDefined};
ghost use Rattle.pw_run_languages.specs.Traces.{Notes};
ghost use Rattle.pw_run_languages.specs.Calls.{FollowsCalls};
ghost use Rattle.pw_run_languages.specs.Memory.{scalar_of};
ghost use Rattle.pw_run_languages.specs.Programs.{AreBytes, Program, globals_of};
ghost use Rattle.pw_run_languages.specs.MachineRun.{active_as, noted};
ghost use Rattle.pw_run_languages.specs.LawfulPrograms.{graph_of};
ghost use Rattle.pw_run_languages.specs.LinkingLaws.{address_of, frame_in, image_run, map_of};
ghost use Rattle.pw_run_languages.specs.PlacementLaws.{DirectionKeeps, PlacesKeep};
ghost use Rattle.pw_law_source.specs.Source.{source_runs, source_stages};
ghost use Rattle.pw_law_where.specs.Counting.{NotesCall};
ghost use Rattle.pw_law_layers.specs.Whole.{IsBuilt, LayersKeep, image_of, roomless};
ghost use Rattle.pw_debug.specs.Walk.{WalksTo, seen, start_of};
ghost use Rattle.pw_debug_frames.specs.Frames.{frame_info};
ghost use Rattle.pw_where.specs.Calls.{IsCall};
ghost use Rattle.pw_where.specs.Looks.{entries_in, start_over};
ghost use Rattle.pw_law_calls.specs.Calls.{HasNoted, IsCallOfSource, IsSmall, IsSourceCall};
ghost use Rattle.pw_law_told.specs.Told.{ComesToCall, IsPause, IsTold, StandAt};

use pw_law_callers::laws::{
    active_frames_stand, active_functions_are_callers, only_the_first_is_start,
};
use pw_law_calls::laws::{
    calls_are_those_of_the_source, stages_have_the_calls, values_are_those_of_the_source,
};
use pw_law_direction::start_is_not_called;
use pw_law_entered::laws::calls_are_entered;
use pw_law_entries::laws::linked_programs_have_their_entries;
use pw_law_known::laws::return_addresses_are_known;
use pw_law_layers::{
    layers_hold, maps_have_frames, places_fit_their_rooms, refinement_goes_through,
    sound_directives_guard,
};
use pw_law_link_run::laws::{framed_steps_are_met, images_start_as_lines, library_is_there};
use pw_law_linked::{
    given_functions_are_ready, given_programs_are_in_memory, given_programs_are_in_place,
    given_programs_have_lawful_addresses, linked_programs_are_framed, linked_programs_are_linked,
    linking_keeps_runs,
};
use pw_law_pause::laws::{longer_runs_note_more, refused_calls_come_next, roomier_runs_note_more};
use pw_law_refused::laws::{graphs_are_refused_alike, refused_calls_are_noted};
use pw_law_room::laws::active_calls_have_room;
use pw_law_selection::selection_keeps_runs;
use pw_law_slots::placement_keeps_runs;
use pw_law_walk::laws::{frames_are_even, no_walk_is_lost};
use pw_law_where::laws::a_call_is_noted;
use pw_run_languages::noted_calls_are_its_own;

/// Where a program is defined, each call in the run of its image is one of the graph of its calls.
pub fn defined_calls_follow_the_graph()
    ensures { (p : source.Program) (q : Program) (d : List (List ℕ × Directives)) (functions : List Located) (objects : List Object) (input : List ℕ) → LayersKeep p q d functions objects input →
        IsDefined (source_runs p (frame_in (image_of objects q.stack)) q.stack input) → (n : ℕ) → Notes (FollowsCalls (graph_of q)) (image_run q functions (image_of objects q.stack) input n) }
{}

/// Where a program is defined, the functions that are active at a call that the debugger counts in the run of its image, by what
/// the machine's trace notes, stand one behind another as a walk meets them, and the frame of each stands in the memory.
pub fn active_functions_stand()
    ensures { (p : source.Program) (q : Program) (d : List (List ℕ × Directives)) (functions : List Located) (objects : List Object) (input : List ℕ) (k step : ℕ) (s : State) (object : GlobalObject) (kind : Kind) →
        IsBuilt p q d functions objects → AllByRecursion IsLocated functions → AreBytes input → DirectionKeeps q d input → PlacesKeep q d functions input →
        IsDefined (source_runs p (frame_in (image_of objects q.stack)) q.stack input) →
        IsCall (entries_in (image_of objects q.stack) objects) (start_over (image_of objects q.stack) input) k step s →
        (call : NotesCall (map_of q functions (image_of objects q.stack)) k s.core (noted (map_of q functions (image_of objects q.stack)) (start_over (image_of objects q.stack) input) step)) →
        StandAt (seen s.core.memory (image_of objects q.stack).functions (map frame_info functions) object kind) s.core (flat_map (active_as (map_of q functions (image_of objects q.stack))) call.callers) }
{
    active_calls_have_room();
    active_frames_stand();
    active_functions_are_callers();
    only_the_first_is_start();
    frames_are_even();
    start_is_not_called();
    calls_are_entered();
    linked_programs_have_their_entries();
    return_addresses_are_known();
    maps_have_frames();
    places_fit_their_rooms();
    sound_directives_guard();
    framed_steps_are_met();
    images_start_as_lines();
    library_is_there();
    given_functions_are_ready();
    given_programs_are_in_memory();
    given_programs_are_in_place();
    given_programs_have_lawful_addresses();
    linked_programs_are_framed();
    linked_programs_are_linked();
    linking_keeps_runs();
    selection_keeps_runs();
    placement_keeps_runs();
    noted_calls_are_its_own();
}

/// Where a program is defined, and the debugger counts a k-th call in the run of its image, the program comes to a k-th call where no
/// function takes room on the stack.
pub fn programs_come_to_their_calls()
    ensures { (p : source.Program) (q : Program) (d : List (List ℕ × Directives)) (functions : List Located) (objects : List Object) (input : List ℕ) (k step : ℕ) (s : State) →
        IsBuilt p q d functions objects → AreBytes input → DirectionKeeps q d input → PlacesKeep q d functions input →
        IsDefined (source_runs p (frame_in (image_of objects q.stack)) q.stack input) →
        IsCall (entries_in (image_of objects q.stack) objects) (start_over (image_of objects q.stack) input) k step s → ComesToCall p input k }
{
    calls_are_those_of_the_source();
    stages_have_the_calls();
    linked_programs_have_their_entries();
    maps_have_frames();
    places_fit_their_rooms();
    refinement_goes_through();
    layers_hold();
    sound_directives_guard();
    linking_keeps_runs();
    selection_keeps_runs();
    placement_keeps_runs();
    longer_runs_note_more();
    roomier_runs_note_more();
    refused_calls_come_next();
    graphs_are_refused_alike();
    refused_calls_are_noted();
}

/// Where a program is defined, the debugger's k-th call in the run of its image is the program's where no function takes room on the
/// stack: of the same function, with the same objects. So it is of each call, also of one that is then refused for want of stack.
pub fn calls_are_those_of_the_program()
    ensures { (p : source.Program) (q : Program) (d : List (List ℕ × Directives)) (functions : List Located) (objects : List Object) (input : List ℕ) (k step : ℕ) (s : State) (f : List ℕ) (things : List Thing) →
        IsBuilt p q d functions objects → AreBytes input → DirectionKeeps q d input → PlacesKeep q d functions input → DirectionKeeps (roomless q) d input → PlacesKeep (roomless q) d functions input →
        IsDefined (source_runs p (frame_in (image_of objects q.stack)) q.stack input) →
        IsCall (entries_in (image_of objects q.stack) objects) (start_over (image_of objects q.stack) input) k step s → IsPause p input k f things →
        IsCallOfSource q (map_of q functions (image_of objects q.stack)) k s.core (noted (map_of q functions (image_of objects q.stack)) (start_over (image_of objects q.stack) input) step) f things }
{
    calls_are_those_of_the_source();
    stages_have_the_calls();
    linked_programs_have_their_entries();
    maps_have_frames();
    places_fit_their_rooms();
    refinement_goes_through();
    layers_hold();
    sound_directives_guard();
    linking_keeps_runs();
    selection_keeps_runs();
    placement_keeps_runs();
    longer_runs_note_more();
    roomier_runs_note_more();
    graphs_are_refused_alike();
    refused_calls_are_noted();
}

/// Where a program is defined, and the debugger's k-th call in the run of its image is one of the program's with these objects, a
/// walk over the frames that comes to a value of a global comes to the number that the global's object has in C at the call.
pub fn values_are_those_of_the_program()
    ensures { (p : source.Program) (q : Program) (d : List (List ℕ × Directives)) (functions : List Located) (objects : List Object) (input : List ℕ) (k step : ℕ) (s : State) (f : List ℕ) (things : List Thing)
        (number : ℕ) (g : FlowGlobal) (kind : Kind) (object : GlobalObject) (value v : ℕ) →
        IsBuilt p q d functions objects → AllByRecursion IsLocated functions → AreBytes input → DirectionKeeps q d input → PlacesKeep q d functions input →
        IsDefined (source_runs p (frame_in (image_of objects q.stack)) q.stack input) →
        IsCall (entries_in (image_of objects q.stack) objects) (start_over (image_of objects q.stack) input) k step s →
        IsCallOfSource q (map_of q functions (image_of objects q.stack)) k s.core (noted (map_of q functions (image_of objects q.stack)) (start_over (image_of objects q.stack) input) step) f things →
        IsTold q (image_of objects q.stack) number g kind object →
        length (object_at things number).bytes ≡ kind_size kind → AllByRecursion IsSmall (object_at things number).bytes → scalar_of kind (object_at things number).bytes ≡ Num v →
        WalksTo (seen s.core.memory (image_of objects q.stack).functions (map frame_info functions) object kind) (start_of s.core) (Ok value) → value ≡ v }
{
    active_functions_stand();
    values_are_those_of_the_source();
    given_programs_are_in_memory();
    given_programs_are_in_place();
    linked_programs_are_linked();
}

/// Where a program is defined, no walk over the frames of its image is lost at a call that the debugger counts.
pub fn walks_are_not_lost()
    ensures { (p : source.Program) (q : Program) (d : List (List ℕ × Directives)) (functions : List Located) (objects : List Object) (input : List ℕ) (k step : ℕ) (s : State) (g : FlowGlobal) (kind : Kind) (object : GlobalObject) (address : ℕ) →
        IsBuilt p q d functions objects → AllByRecursion IsLocated functions → AreBytes input → DirectionKeeps q d input → PlacesKeep q d functions input →
        IsDefined (source_runs p (frame_in (image_of objects q.stack)) q.stack input) →
        IsCall (entries_in (image_of objects q.stack) objects) (start_over (image_of objects q.stack) input) k step s →
        Contains (globals_of q) g → address_of (image_of objects q.stack) g.name ≡ object.address →
        ¬ WalksTo (seen s.core.memory (image_of objects q.stack).functions (map frame_info functions) object kind) (start_of s.core) (Err address) }
{
    active_functions_stand();
    a_call_is_noted();
    linked_programs_have_their_entries();
    no_walk_is_lost();
    given_programs_are_in_memory();
    given_programs_are_in_place();
}

/// The k-th call that a program comes to with its frames, on its stack and within some bound is the one that it comes to where
/// functions take no room on the stack, whatever the bounds: of the same function, with the same objects.
pub fn a_pause_is_one()
    ensures { (p : source.Program) (frame_of : List ℕ → ℕ) (stack : ℕ) (input : List ℕ) (n k : ℕ) (log : List Moment) (f g : List ℕ) (things others : List Thing) →
        HasNoted (source_stages p frame_of stack input n) log → IsSourceCall log k f things → IsPause p input k g others → (f ≡ g) × (things ≡ others) }
{
    longer_runs_note_more();
    roomier_runs_note_more();
}
