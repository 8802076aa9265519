//! Laws of straight rows for the law of selection, without code: words that act one after the other, and what rows of
//! selection put into registers and places.
#![tactic(auto)]

ghost use Rattle.pw_law_select_rows.specs.Straight.{JoinedWordsAct, JoinedWordsNote, StraightWordsRun, StraightLinesAreWords};
ghost use Rattle.pw_law_select_rows.specs.Frames.{FrameWordsAreLoaded, FrameWordsAreStored};
ghost use Rattle.pw_law_select_rows.specs.Making.{NothingIsNoted, ConstantsAreMade, AddressesAreMade};
ghost use Rattle.pw_law_select_rows.specs.Places.{OperandsAreLoaded, TemporariesAreLoaded};
ghost use Rattle.pw_law_select_rows.specs.Results.{ResultsArePlaced, OneOperandIsTaken, TwoOperandsAreTaken};
ghost use Rattle.pw_law_select_rows.specs.Computing.{UnariesAreComputed, ExtensionsAreComputed, BinariesAreComputed, CopiesAreMade, ConstantsAreGot, AddressesAreGot, FrameAddressesAreGot};
ghost use Rattle.pw_law_select_rows.specs.Scalars.{ScalarsAreLoaded, ScalarsAreStored, GlobalsAreRead, GlobalsAreWritten, StoresTakeOne, StoresTakeTwo};
ghost use Rattle.pw_law_select_rows.specs.Units.{UnitsAreCopied};

/// Words of two rows act and note as those of the first and then those of the second. The run of lines goes through straight words as
/// they act, and notes what they access; straight lines are items of such words.
pub fn straight_words_run()
    ensures joined { JoinedWordsAct }
    ensures noted { JoinedWordsNote }
    ensures run { StraightWordsRun }
    ensures lines { StraightLinesAreWords }
{}

/// Constants and addresses stand in the register for which they are made, in one word or in two; all else is as it was, and
/// no access is noted.
pub fn words_are_made()
    ensures quiet { NothingIsNoted }
    ensures constants { ConstantsAreMade }
    ensures addresses { AddressesAreMade }
{}

/// Words of the frame are loaded and stored, near ones and far ones, over no register but that of addresses; no access is
/// noted, as no global stands there.
pub fn frame_words_move()
    ensures loaded { FrameWordsAreLoaded }
    ensures stored { FrameWordsAreStored }
{}

/// An operand is in its own register, or its word of the frame comes to the register that is given for it; so
/// does that of any temporary, from its own register too.
pub fn operands_are_loaded()
    ensures operand { OperandsAreLoaded }
    ensures temporary { TemporariesAreLoaded }
{}

/// A word that rows get from no operand, from one or from two goes to the place of the result, and to no other; registers of
/// webs and temporaries are as they were but for it.
pub fn results_are_placed()
    ensures none { ResultsArePlaced }
    ensures one { OneOperandIsTaken }
    ensures two { TwoOperandsAreTaken }
{}

/// Rows of operations on one number and on two make the number that the operation gives: arithmetic, comparisons, shifts and
/// extensions, all those for which the machine needs no routine.
pub fn rows_compute()
    ensures unary { UnariesAreComputed }
    ensures extension { ExtensionsAreComputed }
    ensures binary { BinariesAreComputed }
{}

/// A copy of a register, a constant, the address of a symbol and that of a word of the frame come to a register, and to no
/// other of webs and temporaries.
pub fn registers_get_words()
    ensures copy { CopiesAreMade }
    ensures constant { ConstantsAreGot }
    ensures address { AddressesAreGot }
    ensures frame { FrameAddressesAreGot }
{}

/// A scalar of a kind comes from where a register points, or from a global by its name, to a register, its sign spread; and
/// goes there, behind operands that come to registers.
pub fn scalars_move()
    ensures loaded { ScalarsAreLoaded }
    ensures stored { ScalarsAreStored }
    ensures read { GlobalsAreRead }
    ensures written { GlobalsAreWritten }
    ensures one { StoresTakeOne }
    ensures two { StoresTakeTwo }
{}

/// The words of a copy's loop copy one unit from where a register points to where another does; both go on by it, and the count of
/// bytes that are left goes down.
pub fn units_are_copied()
    ensures { UnitsAreCopied }
{}
