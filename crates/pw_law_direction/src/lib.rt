//! Laws of direction: the run of a program under directives, alone and beside the run of its flow graphs.
#![tactic(auto)]

pub mod directed;
pub mod side_by_side;
pub mod undirected;

pub use directed::{
    directed_calls_are_of_the_graph, directed_runs_keep_registers, directed_runs_obey_traffic,
    directed_values_are_fine, direction_rests_on_runs, operations_call_by_the_graph,
    start_is_not_called, taken_functions_are_fine,
};
pub use side_by_side::{
    blocks_follow, calls_follow, direction_keeps, direction_refines, inside_follows,
    library_follows, loads_follow, operations_follow, places_stay, reads_follow, returns_follow,
    runs_rest_on_steps, starts_follow, starts_match, stores_follow, writes_follow,
};
pub use undirected::{no_webs_are_sound, undirected_runs_keep_theirs, webless_runs_keep_theirs};
