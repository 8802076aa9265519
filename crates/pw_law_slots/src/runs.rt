//! The run of items with filled slots.

ghost use Rattle.pw_run_languages.specs.SelectionLaws.{PlacementKeepsRuns};
ghost use Rattle.pw_law_slots.specs.SlotLaws.{FillingKeepsRuns};

use pw_delay::laws::parts_are_filled_alone;
use pw_inst::actions_go_by_registers;
use pw_run_languages::late_logs_compose;

/// The run of items with filled slots does what the run of the items does, as long as that one does not go wrong: the same
/// output, input and ends, the same calls and returns; only what a word in a slot loads or stores it notes with the turn, and
/// so late by loads and stores alone. And as far as return addresses stand in memory in the one, they do in the other. It is so
/// of any items in which no branch goes back to itself and no word in a slot passes over the next one.
pub fn filling_keeps_runs()
    ensures { FillingKeepsRuns }
{
    actions_go_by_registers();
    parts_are_filled_alone();
    late_logs_compose();
}

/// The items that are placed run as the lines' own items do, late by loads and stores alone: they are those with filled slots.
pub fn placement_keeps_runs()
    ensures { PlacementKeepsRuns }
{
    filling_keeps_runs();
}
