//! The law of direction, without code: the run under directives beside the run of flow graphs.

ghost use Rattle.pw_law_direction.specs.SideBySide.{OperationsFollow, BlocksFollow, ReadsFollow, WritesFollow, LoadsFollow, StoresFollow, LibraryFollows};
ghost use Rattle.pw_law_direction.specs.SideBySide.{PlacesStay, StandsAtCalls, EntriesAreAlone, StandsAtReturns, InsideFollows, RunsRestOnSteps};
ghost use Rattle.pw_law_direction.specs.SideBySide.{CallsFollow, ReturnsFollow, SavesAtStarts, SameFunctions, StartsFollow};
ghost use Rattle.pw_law_direction.specs.DirectedLaws.{DirectionRefines};
ghost use Rattle.pw_run_languages.specs.PlacementLaws.{DirectionKeepsRuns};

use crate::directed::{direction_rests_on_runs, start_is_not_called, taken_functions_are_fine};

/// Operations that neither load or store a global by its name nor call are the same in both runs.
pub fn operations_follow()
    ensures { OperationsFollow }
{
    taken_functions_are_fine();
}

/// Ends of blocks that do not return are the same in both runs.
pub fn blocks_follow()
    ensures { BlocksFollow }
{}

/// Where globals stand. A function that writes the register of one of its webs leaves every other global where it
/// stands. At the call of a function, and at its return, a global of no web that it enters stands where it stood; and
/// where it enters a web, no function that is active before it is in a web of the global.
pub fn places_stay()
    ensures writes { PlacesStay }
    ensures calls { StandsAtCalls }
    ensures entries { EntriesAreAlone }
    ensures returns { StandsAtReturns }
{}

/// A load of a global that a web of the function holds gives what stands in the web's register.
pub fn reads_follow()
    ensures { ReadsFollow }
{}

/// A store to one goes to the web's register, and every other global stands where it stood.
pub fn writes_follow()
    ensures { WritesFollow }
{}

/// A load by its name of a global that no web of the function holds gives the same in both runs.
pub fn loads_follow()
    ensures { LoadsFollow }
{}

/// A store by its name to one does the same in both runs.
pub fn stores_follow()
    ensures { StoresFollow }
{}

/// A call of the library does the same in both runs, for want of stack too.
pub fn library_follows()
    ensures { LibraryFollows }
{}

/// All that a function does by itself, without calls and returns, is the same in both runs.
pub fn inside_follows()
    ensures { InsideFollows }
{
    taken_functions_are_fine();
}

/// Where the starts are alike and every step follows, the directed run does what the run of flow graphs does.
pub fn runs_rest_on_steps()
    ensures { RunsRestOnSteps }
{}

/// At its start a function saves the registers of the webs that it enters and no others, with what they hold; and a name
/// is that of the same function in both runs.
pub fn starts_match()
    ensures saves { SavesAtStarts }
    ensures functions { SameFunctions }
{}

/// A call of a function of the program, by its name or through a value, does the same in both runs, for want of stack too:
/// the webs that the function enters are loaded, and each global has its value where it stands then.
pub fn calls_follow()
    ensures { CallsFollow }
{
    start_is_not_called();
}

/// A return does the same in both runs: what the function's webs have written is stored back, and each global has its
/// value where it stands then.
pub fn returns_follow()
    ensures { ReturnsFollow }
{
    start_is_not_called();
}

/// The starts of both runs are alike.
pub fn starts_follow()
    ensures { StartsFollow }
{
    taken_functions_are_fine();
}

/// Under sound directives the directed run keeps the run of flow graphs: it goes on and ends as that does, with its
/// output, and each global has its value where it stands, at each call and return.
pub fn direction_refines()
    ensures { DirectionRefines }
{
    taken_functions_are_fine();
    start_is_not_called();
}

/// The law of direction: that, and returns keep the registers, and what the directed run notes obeys the law of traffic.
pub fn direction_keeps()
    ensures { DirectionKeepsRuns }
{
    direction_refines();
    direction_rests_on_runs();
}
