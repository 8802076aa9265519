//! Laws of the analyser's database, without code: it is lawful and sound, and what it gives the layers between C and
//! words.

ghost use Rattle.pw_law_analysis.specs.OwedLaws.{DatabaseIsLawful, DatabaseIsSound, ColouredIsCovered};
ghost use Rattle.pw_law_analysis.specs.AnalyserLaws.{NamedGraphsSayTheSame, DatabasesServe, LayersGiveAll, RootsKeepRegisters};

use crate::owed::{all_laws_compose, analyses_compose};
use pw_colour::laws;
use pw_law_direction::direction_keeps;
use pw_law_linked::linking_keeps_runs;
use pw_law_placed::places_keep;

/// The graph of summaries by the names of functions and globals says of calls, references, writes and eligible globals
/// what their call graph says by places.
pub fn named_graphs_say_the_same()
    ensures { NamedGraphsSayTheSame }
{}

/// The database of summaries that make a program is lawful, for no more registers than a callee keeps.
pub fn databases_are_lawful()
    ensures { DatabaseIsLawful }
{
    laws::databases_are_lawful();
}

/// The database of summaries that make a program is sound for the graph of its summaries by names, for no more
/// registers than webs may have.
pub fn databases_are_sound_by_name()
    ensures { DatabaseIsSound }
{
    laws::databases_are_sound();
    named_graphs_say_the_same();
}

/// Every function that refers to a global all of whose webs have a register is in one of these webs.
pub fn coloured_globals_are_covered()
    ensures { ColouredIsCovered }
{
    named_graphs_say_the_same();
}

/// The database of summaries is lawful, and sound for flow graphs of which they say what these say themselves; what obeys
/// the law of traffic over the flow graphs obeys it over the summaries; and of a global all of whose webs have a register,
/// that law speaks.
pub fn databases_serve()
    ensures { DatabasesServe }
{
    analyses_compose();
    databases_are_lawful();
    databases_are_sound_by_name();
    coloured_globals_are_covered();
}

/// Where calls keep registers by the database, each function that saves registers for its cluster has in them at its return what
/// it had at its call.
pub fn roots_keep_registers()
    ensures { RootsKeepRegisters }
{
    databases_are_lawful();
    databases_are_sound_by_name();
}

/// From the law of selection follows of each program that was built with the database that the analyser makes of it, and with
/// places that serve: what holds of built programs; and where the source is defined, the law of traffic of the image, which
/// speaks of each eligible global all of whose webs have a register.
pub fn layers_give_all()
    ensures { LayersGiveAll }
{
    all_laws_compose();
    databases_are_lawful();
    databases_are_sound_by_name();
    coloured_globals_are_covered();
    databases_serve();
    direction_keeps();
    places_keep();
    linking_keeps_runs();
}
