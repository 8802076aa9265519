//! Laws of direction, without code: without webs the run under directives keeps the run of flow graphs.

ghost use Rattle.pw_law_direction.specs.UndirectedLaws.{EmptyDirectionKeeps, WeblessDirectionKeeps, WeblessIsSound};

use crate::directed::{
    directed_calls_are_of_the_graph, directed_runs_keep_registers, directed_runs_obey_traffic,
    directed_values_are_fine,
};
use pw_db_sound::nothing_is_sound;

/// Under the empty database the directed run keeps the flow run, with each global in its place at each call and return; and
/// it keeps the registers and obeys the law of traffic.
pub fn undirected_runs_keep_theirs()
    ensures { EmptyDirectionKeeps }
{
    directed_calls_are_of_the_graph();
    directed_runs_keep_registers();
    directed_runs_obey_traffic();
    directed_values_are_fine();
    nothing_is_sound();
}

/// A database that tells no function anything is sound, for whatever program.
pub fn no_webs_are_sound()
    ensures { WeblessIsSound }
{}

/// Under every database that tells no function anything the directed run keeps the flow run, as under the empty one.
pub fn webless_runs_keep_theirs()
    ensures { WeblessDirectionKeeps }
{
    directed_calls_are_of_the_graph();
    directed_runs_keep_registers();
    directed_runs_obey_traffic();
    no_webs_are_sound();
    undirected_runs_keep_theirs();
}
