//! Laws of places for the law of selection, without code: values in the places of temporaries, bytes of objects that are written,
//! and the run of lines through rows.
#![tactic(auto)]

ghost use Rattle.pw_law_select_places.specs.Places.{TemporariesHavePlaces, ResultsStand, WebRegistersStand, PointersAreWords};
ghost use Rattle.pw_law_select_places.specs.Objects.{WrittenObjectsStand};
ghost use Rattle.pw_law_select_places.specs.Rows.{StraightWordsPass, PassesCompose};

use pw_law_select_memory::{bytes_stand, numbers_are_stored};
use pw_law_select_rows::straight_words_run;

/// In a state that stands in words each temporary has a place in which a word stands for its value; with a word for a new
/// value in a temporary's place, or in a web's register, the state stands with that value. Pointers have addresses that are words.
pub fn places_stand()
    ensures temporaries { TemporariesHavePlaces }
    ensures results { ResultsStand }
    ensures webs { WebRegistersStand }
    ensures pointers { PointersAreWords }
{
    numbers_are_stored();
    bytes_stand();
}

/// With new bytes in a live object, and nothing else new, the state stands with these.
pub fn objects_stand()
    ensures { WrittenObjectsStand }
{
    numbers_are_stored();
    bytes_stand();
}

/// The run of lines comes through straight words, and through one row after another.
pub fn rows_pass()
    ensures straight { StraightWordsPass }
    ensures compose { PassesCompose }
{
    straight_words_run();
}
