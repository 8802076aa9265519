//! The law of places, without code: the run of functions whose temporaries have places beside the directed run.
#![tactic(auto)]

ghost use Rattle.pw_law_placed.specs.Laws.{BlocksFollow, CallsFollow, CommandsFollow, GlobalsStandAlike, LibraryFollows, ResultsFollow, ReturnsFollow, SameFunctions, StartsFollow, StepsFollow, WaitingRestsOnKept};
ghost use Rattle.pw_run_languages.specs.PlacementLaws.{PlacesKeepRuns};

use pw_db_sound::callers_leave_free_registers_alone;
use pw_law_direction::{directed_values_are_fine, operations_call_by_the_graph};

/// Where the registers of the webs hold the same in both runs, the globals stand where they stand.
pub fn globals_stand_alike()
    ensures { GlobalsStandAlike }
{}

/// What the functions that wait find in registers depends on those alone that a callee keeps and is not free to use.
pub fn waiting_rests_on_kept()
    ensures { WaitingRestsOnKept }
{}

/// A result goes to its place, and what is still needed stays, of the function and of those that wait.
pub fn results_follow()
    ensures { ResultsFollow }
{}

/// A command that calls nothing does the same in both runs.
pub fn commands_follow()
    ensures { CommandsFollow }
{}

/// The end of a block that does not return does the same in both runs.
pub fn blocks_follow()
    ensures { BlocksFollow }
{}

/// A call of the library does the same in both runs, for want of stack too.
pub fn library_follows()
    ensures { LibraryFollows }
{}

/// A name is that of the same function in both runs, with places that serve it.
pub fn same_functions()
    ensures { SameFunctions }
{}

/// A call that is one of the graph does the same in both runs, whatever it calls.
pub fn calls_follow()
    ensures { CallsFollow }
{
    callers_leave_free_registers_alone();
}

/// A return does the same in both runs.
pub fn returns_follow()
    ensures { ReturnsFollow }
{}

/// Where a sound database is obeyed and places serve each function, both runs begin in states that are alike.
pub fn starts_follow()
    ensures { StartsFollow }
{}

/// Every step does the same in both runs, from states that are alike.
pub fn steps_follow()
    ensures { StepsFollow }
{
    operations_call_by_the_graph();
    calls_follow();
}

/// Where places serve, the placed run does what the directed run does and notes the same; and returns keep the registers.
pub fn places_keep()
    ensures { PlacesKeepRuns }
{
    directed_values_are_fine();
    starts_follow();
    steps_follow();
}
