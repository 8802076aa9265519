//! The law of the start for the law of selection, without code: both runs stand alike at the start of `$start`.
#![tactic(auto)]

ghost use Rattle.pw_law_select_start.specs.Starting.{RunsStart, StartMemoryHoldsBytes};

use pw_law_select_frames::{functions_begin, globals_stand_in_words};
use pw_law_select_known::{entered_frames_are_known, start_bytes_are_known};
use pw_law_select_memory::bytes_stand;
use pw_law_select_places::rows_pass;
use pw_law_select_rows::straight_words_run;

/// Both runs begin at `$start`: global objects stand at their names with the bytes of their items, its slots in its frame, and the
/// lines come through its check and its saved registers to where the placed run enters its webs.
pub fn runs_start()
    ensures start { RunsStart }
    ensures memory { StartMemoryHoldsBytes }
{
    functions_begin();
    globals_stand_in_words();
    straight_words_run();
    rows_pass();
    bytes_stand();
    start_bytes_are_known();
    entered_frames_are_known();
}
