//! Laws of words in memory for the law of selection, without code: what stores and loads do to numbers there, and what
//! words and bytes stand for values.
#![tactic(auto)]

ghost use Rattle.pw_law_select_memory.specs.Numbers.{StoredNumbersAreRead, OtherBytesStay, OtherNumbersStay, NumbersAreBounded, BytesStayBytes, OtherBytesAreListed};
ghost use Rattle.pw_law_select_memory.specs.Stand.{StoredValuesStand, LoadedValuesStand, PartsStand, NewBytesStand, OldBytesStand, StandingIsAlike};

/// What is read after a store of a number is its low bytes; everything else in memory is as it was. A number that is read
/// is below the power of its size, and bytes stay bytes.
pub fn numbers_are_stored()
    ensures read { StoredNumbersAreRead }
    ensures byte { OtherBytesStay }
    ensures number { OtherNumbersStay }
    ensures listed { OtherBytesAreListed }
    ensures bounded { NumbersAreBounded }
    ensures bytes { BytesStayBytes }
{}

/// A word that is stored leaves the bytes of each value for which it stands; a word that is loaded stands for the value of
/// the bytes.
pub fn scalars_stand()
    ensures stored { StoredValuesStand }
    ensures loaded { LoadedValuesStand }
{}

/// Bytes that stand do so in part, with new ones among them, and where memory is as it was; and they are alike to those
/// that memory has.
pub fn bytes_stand()
    ensures part { PartsStand }
    ensures new { NewBytesStand }
    ensures old { OldBytesStand }
    ensures alike { StandingIsAlike }
{}
