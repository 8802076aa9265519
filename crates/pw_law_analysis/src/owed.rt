//! Laws of the analyser, without code: what they give for the layers between C and words.

ghost use Rattle.pw_law_analysis.specs.OwedLaws.{AnalysesCompose, AllLawsCompose};

use pw_db_sound::soundness_rests_on_relations;
use pw_law_code::code::maps_name_the_program;
use pw_law_layers::layers_compose;
use pw_run_languages::{traces_tell_what_is_noted, traffic_rests_on_relations};

/// From the laws of the analyser follows: the database that it makes of summaries is lawful, and sound for flow graphs of
/// which they say what these say themselves, as the summaries of an accepted program do (`summaries_say_the_same`); what
/// obeys the law of traffic over the flow graphs obeys it over the summaries; and of a global all of whose webs have a
/// register, that law speaks.
pub fn analyses_compose()
    ensures { AnalysesCompose }
{
    soundness_rests_on_relations();
    traffic_rests_on_relations();
}

/// From the laws of selection, linking and of the analyser follows of each program that was built with the database
/// that the analyser makes of it, where the laws of direction and of places hold for this database and the program's places:
/// what holds of built programs; and where the source is defined, the law of traffic of the image, which is read by its map
/// and the summaries' eligible globals alone (`Traffic`): it speaks of each of these all of whose webs have a register.
pub fn all_laws_compose()
    ensures { AllLawsCompose }
{
    layers_compose();
    analyses_compose();
    maps_name_the_program();
    traces_tell_what_is_noted();
}
