//! Laws of operations for the law of selection, without code: the lines of each operation that calls no function do what the placed
//! run does.
#![tactic(auto)]

ghost use Rattle.pw_law_select_ops.specs.Operations.{ComputationsFollow, RoutinesFollow, NamedGlobalsFollow, AccessesFollow, CopiesFollow, OperationsFollow};
ghost use Rattle.pw_law_select_ops.specs.Webs.{WebLoadsFollow, WebStoresFollow};

use pw_inst::actions_go_by_registers;
use pw_law_select_memory::{bytes_stand, numbers_are_stored, scalars_stand};
use pw_law_select_places::{objects_stand, places_stand, rows_pass};
use pw_law_select_rows::{
    operands_are_loaded, registers_get_words, results_are_placed, rows_compute, scalars_move,
    straight_words_run, units_are_copied, words_are_made,
};
use pw_value::words::results_are_words;

/// Operations that make a value without a routine: constants, copies, arithmetic on numbers and pointers, comparisons, shifts,
/// extensions, addresses of globals, slots and functions, and copies from and to registers of webs.
pub fn computations_do()
    ensures { ComputationsFollow }
{
    results_are_words();
    straight_words_run();
    results_are_placed();
    rows_compute();
    registers_get_words();
    places_stand();
    objects_stand();
    rows_pass();
}

/// Operations that load and store scalar globals by their names: the same is noted, and nothing else.
pub fn globals_do()
    ensures { NamedGlobalsFollow }
{
    results_are_words();
    straight_words_run();
    results_are_placed();
    rows_compute();
    registers_get_words();
    places_stand();
    objects_stand();
    rows_pass();
    numbers_are_stored();
    scalars_stand();
    bytes_stand();
    scalars_move();
}

/// A web that a function enters is loaded, and where it writes stored back: the same is noted, and nothing else; of registers that
/// of addresses and that of the web alone change.
pub fn webs_do()
    ensures loaded { WebLoadsFollow }
    ensures stored { WebStoresFollow }
{
    actions_go_by_registers();
    results_are_words();
    straight_words_run();
    results_are_placed();
    rows_compute();
    registers_get_words();
    places_stand();
    objects_stand();
    rows_pass();
    numbers_are_stored();
    scalars_stand();
    bytes_stand();
    scalars_move();
}

/// Operations that load and store scalars where pointers lead: nothing is noted.
pub fn accesses_do()
    ensures { AccessesFollow }
{
    results_are_words();
    straight_words_run();
    results_are_placed();
    rows_compute();
    registers_get_words();
    places_stand();
    objects_stand();
    rows_pass();
    numbers_are_stored();
    scalars_stand();
    bytes_stand();
    scalars_move();
}

/// Operations that a routine does: products, quotients and remainders, whatever the routines leave in scratch registers.
pub fn routines_do()
    ensures { RoutinesFollow }
{
    results_are_words();
    straight_words_run();
    results_are_placed();
    rows_compute();
    registers_get_words();
    places_stand();
    objects_stand();
    rows_pass();
    operands_are_loaded();
}

/// Copies of bytes in units of 1, 2 or 4, between ranges that are one or apart.
pub fn copies_do()
    ensures { CopiesFollow }
{
    results_are_words();
    straight_words_run();
    results_are_placed();
    rows_compute();
    registers_get_words();
    places_stand();
    objects_stand();
    rows_pass();
    numbers_are_stored();
    bytes_stand();
    operands_are_loaded();
    words_are_made();
    units_are_copied();
}

/// All operations that call no function: where the placed run does one, its lines do it, note the same, and leave everything of the
/// functions that wait as it was.
pub fn operations_do()
    ensures { OperationsFollow }
{
    computations_do();
    routines_do();
    globals_do();
    accesses_do();
    copies_do();
}
