//! The law. The function here does nothing: its clause is a fact about all values.

ghost use Rattle.std.specs.Prelude.{◌≡◌, ℕ, List, Some, map};
ghost use Rattle.pw_db.specs.declared.database.Directives.{Directives};
ghost use Rattle.pw_object.specs.declared.object.Object.{Object};
ghost use Rattle.pw_alloc.specs.declared.located.Located.{Located};
ghost use Rattle.pw_link.specs.Linking.{linked};
ghost use Rattle.pw_run_languages.specs.LineRun.{Frame, return_address};
ghost use Rattle.pw_run_languages.specs.Programs.{Program};
ghost use Rattle.pw_debug.specs.Holding.{frame_at};
ghost use Rattle.pw_debug_frames.specs.Frames.{frame_info};
ghost use Rattle.pw_law_link_run.specs.Simulating.{IsCaller};
ghost use Rattle.pw_law_linked.specs.Given.{IsGiven};
ghost use Rattle.pw_law_linked.specs.Settings.{linked_setting};

use pw_law_link::laws::{modules_stand_in_order, words_stand_at_their_addresses};
use pw_law_link_run::laws::callers_return_inside;
use pw_law_linked::{
    given_functions_are_ready, given_programs_have_lawful_addresses, linked_programs_are_framed,
    settings_know_their_functions,
};

/// Where the debugger knows the frames of a program's functions, it knows in a linked program the function in whose words the
/// return address of a call lies: that of the function in which the call stands.
pub fn return_addresses_are_known()
    ensures { (p : Program) (d : List (List ℕ × Directives)) (functions : List Located) (objects : List Object) (input : List ℕ) (g : Frame) → IsGiven p d functions objects → IsCaller (linked_setting p functions objects input) g →
        frame_at (linked objects p.stack).functions (map frame_info functions) (return_address (linked_setting p functions objects input).addresses g g.left) ≡ Some (frame_info g.function.located) }
{
    modules_stand_in_order();
    words_stand_at_their_addresses();
    given_programs_have_lawful_addresses();
    given_functions_are_ready();
    linked_programs_are_framed();
    settings_know_their_functions();
    callers_return_inside();
}
