//! The law. The function here does nothing: its clause is a fact about all values.

ghost use Rattle.std.specs.Prelude.{◌≡◌, ℕ, List, map};
ghost use Rattle.std.specs.List.{AllByRecursion};
ghost use Rattle.pw_db.specs.declared.database.Directives.{Directives};
ghost use Rattle.pw_object.specs.declared.object.Object.{Object};
ghost use Rattle.pw_alloc.specs.ValidPlaces.{IsLocated};
ghost use Rattle.pw_alloc.specs.declared.located.Located.{Located};
ghost use Rattle.pw_cmean.specs.Worlds as source;
ghost use Rattle.pw_run_agreement.specs.Agreement.{IsDefined};
ghost use Rattle.pw_run_languages.specs.Programs.{AreBytes, Program, globals_of};
ghost use Rattle.pw_run_languages.specs.LinkingLaws.{frame_in};
ghost use Rattle.pw_run_languages.specs.PlacementLaws.{DirectionKeeps, PlacesKeep};
ghost use Rattle.pw_law_source.specs.Source.{source_runs};
ghost use Rattle.pw_law_layers.specs.Whole.{IsBuilt, image_of, roomless};
ghost use Rattle.pw_debug_frames.specs.Frames.{frame_info};
ghost use Rattle.pw_law_truth.specs.Truth.{ShowsTruth, definitions_of, lowered_definition};

use pw_law_bytes::laws::globals_have_their_bytes;
use pw_law_code::code::{linked_addresses_are_lawful, maps_name_the_program};
use pw_law_told::laws::{
    calls_are_those_of_the_program, programs_come_to_their_calls, values_are_those_of_the_program,
    walks_are_not_lost,
};

/// What the debugger shows at the k-th call of a built program's image is the truth, if the program is defined on the input. Where
/// lines are shown it comes to its k-th call, the line of the call names its function, and each line of a global whose object has a
/// value of an integer type then says that value, also of a call for which the stack has no room. No walk over the frames is lost.
pub fn lines_say_true()
    ensures { (p : source.Program) (q : Program) (d : List (List ℕ × Directives)) (functions : List Located) (objects : List Object) (input : List ℕ) (k budget : ℕ) →
        IsBuilt p q d functions objects → AllByRecursion IsLocated functions → AreBytes input → DirectionKeeps q d input → PlacesKeep q d functions input →
        DirectionKeeps (roomless q) d input → PlacesKeep (roomless q) d functions input → globals_of q ≡ map lowered_definition (definitions_of p) →
        IsDefined (source_runs p (frame_in (image_of objects q.stack)) q.stack input) →
        ShowsTruth p (image_of objects q.stack) objects (map frame_info functions) k budget input }
{
    linked_addresses_are_lawful();
    maps_name_the_program();
    globals_have_their_bytes();
    calls_are_those_of_the_program();
    programs_come_to_their_calls();
    values_are_those_of_the_program();
    walks_are_not_lost();
}
