//! Laws of frames for the law of selection, without code: arguments, the start of a function, what it saves, its parameters,
//! and how it ends.
#![tactic(auto)]

ghost use Rattle.pw_law_select_frames.specs.Stack.{StackWordsAreFrameWords};
ghost use Rattle.pw_law_select_frames.specs.Arguments.{ArgumentsArePassed, ArgumentsArePassedByValue};
ghost use Rattle.pw_law_select_frames.specs.Entering.{FramesAreEntered, FullStacksStop};
ghost use Rattle.pw_law_select_frames.specs.Saving.{RegistersAreSaved, RegistersAreRestored};
ghost use Rattle.pw_law_select_frames.specs.Parameters.{ParametersAreReceived};
ghost use Rattle.pw_law_select_frames.specs.Leaving.{FramesAreLeft};
ghost use Rattle.pw_law_select_frames.specs.Calls.{FunctionsAreCalledByValue, FunctionsReturn, NamedFunctionsAreCalled};
ghost use Rattle.pw_law_select_frames.specs.Chain.{GivenRegistersHold, GlobalsAreAlike};
ghost use Rattle.pw_law_select_frames.specs.Framing.{FramesAreSized, PlacesAreBelow, SlotsAreApart, SlotsStand};
ghost use Rattle.pw_law_select_frames.specs.Extending.{ValuesGoOn, WaitingGoesOn};
ghost use Rattle.pw_law_select_frames.specs.Amid.{LeavesCompose, LinesGoOn, OperationsAreNext, StatesAmidAreWhole, StatesStandOver, WholeStatesAreAmid};
ghost use Rattle.pw_law_select_frames.specs.Beginning.{FunctionsBegin};
ghost use Rattle.pw_law_select_frames.specs.Ending.{FunctionsEnd};
ghost use Rattle.pw_law_select_frames.specs.Webs.{WebsAreLoadedInOrder, WebsAreStoredInOrder};
ghost use Rattle.pw_law_select_frames.specs.Library.{LibraryDoesAlike};
ghost use Rattle.pw_law_select_frames.specs.Stepping.{AllAreActive, FramesAreStacked, ObjectsStandBelow, OperationsGoOn, ReturnAddressesStand};
ghost use Rattle.pw_law_select_frames.specs.Returning.{FunctionsComeBack, LinksStandThen};
ghost use Rattle.pw_law_select_frames.specs.Refusing.{CallsAreNotedAlike, FullCallsAreRefused};
ghost use Rattle.pw_law_select_frames.specs.Shape.{EpiloguesAreShaped, LoadedRowsAreStraight, ProloguesAreShaped};
ghost use Rattle.pw_law_select_frames.specs.Arriving.{FunctionsAreEntered};
ghost use Rattle.pw_law_select_frames.specs.Turning.{BlockEndsGoOn};
ghost use Rattle.pw_law_select_frames.specs.Receiving.{ParametersAreTaken};
ghost use Rattle.pw_law_select_frames.specs.Settling.{FirstBlocksBegin};
ghost use Rattle.pw_law_select_frames.specs.Answering.{AnswersAreTaken};
ghost use Rattle.pw_law_select_frames.specs.Reaching.{CallsAreReached};
ghost use Rattle.pw_law_select_frames.specs.Blocks.{BlocksBegin, BranchesLead, JumpsLead};

use pw_law_select_memory::{bytes_stand, numbers_are_stored};
use pw_law_select_places::places_stand;
use pw_law_select_rows::{
    frame_words_move, operands_are_loaded, registers_get_words, results_are_placed,
    straight_words_run, words_are_made,
};

/// A word of the stack may be loaded and stored, and stands above all globals.
pub fn stack_words_stand()
    ensures { StackWordsAreFrameWords }
{}

/// The arguments of a call come to where the callee finds them: the first four to registers, the others to words of the
/// caller's frame; and the function's address that is called through a value stays in its register.
pub fn arguments_are_passed()
    ensures named { ArgumentsArePassed }
    ensures valued { ArgumentsArePassedByValue }
{
    numbers_are_stored();
    straight_words_run();
    words_are_made();
    frame_words_move();
    operands_are_loaded();
}

/// Where the stack holds the frame, the return address goes into the caller's frame, and the stack pointer to the end of the
/// new one, near or far; where it does not, the run stops there and has shown nothing more.
pub fn frames_are_entered()
    ensures entered { FramesAreEntered }
    ensures full { FullStacksStop }
{
    numbers_are_stored();
    straight_words_run();
    words_are_made();
    frame_words_move();
    operands_are_loaded();
}

/// Saved registers stand in their words of the frame, and are loaded from there.
pub fn registers_are_saved()
    ensures saved { RegistersAreSaved }
    ensures restored { RegistersAreRestored }
{
    numbers_are_stored();
    straight_words_run();
    words_are_made();
    frame_words_move();
    operands_are_loaded();
}

/// Each argument comes to the place of its parameter, from its register or from the caller's frame.
pub fn parameters_are_received()
    ensures { ParametersAreReceived }
{
    numbers_are_stored();
    straight_words_run();
    words_are_made();
    frame_words_move();
    operands_are_loaded();
}

/// The saved registers and the return address come back, and the stack pointer goes down over the frame, near or far.
pub fn frames_are_left()
    ensures { FramesAreLeft }
{
    numbers_are_stored();
    straight_words_run();
    words_are_made();
    frame_words_move();
    operands_are_loaded();
}

/// Each block begins at its mark; a jump leads there, without an item where the block is the next; and a branch leads to one
/// block or to the other, by the word of its operand.
pub fn blocks_are_reached()
    ensures begin { BlocksBegin }
    ensures jump { JumpsLead }
    ensures branch { BranchesLead }
{
    numbers_are_stored();
    straight_words_run();
    words_are_made();
    frame_words_move();
    operands_are_loaded();
}

/// A call by name, or through a value, enters the function that it names or that stands at the address, with the return
/// address in its register; a return goes on with the caller, where its address and the stack pointer are as they were.
pub fn turns_call_and_return()
    ensures named { NamedFunctionsAreCalled }
    ensures valued { FunctionsAreCalledByValue }
    ensures returned { FunctionsReturn }
{
    words_are_made();
}

/// Where registers and what was saved stand in words, so do the globals at a call and at a return: each in memory, or in the register
/// of its web, or where that was saved, in both runs; and registers that are given back hold what they held.
pub fn globals_stand_in_words()
    ensures alike { GlobalsAreAlike }
    ensures given { GivenRegistersHold }
{
    bytes_stand();
}

/// Where places serve a function, its temporaries stand in registers or in words of its frame behind the head and the saved
/// registers; its slots stand below them, apart, and the frame holds all.
pub fn frames_are_laid_out()
    ensures places { PlacesAreBelow }
    ensures sizes { FramesAreSized }
    ensures slots { SlotsStand }
    ensures apart { SlotsAreApart }
{}

/// Where objects are new, or ended, words stand for the values that they stood for, and functions that wait find their frames, what
/// they saved and where they go on.
pub fn waiting_functions_stay()
    ensures values { ValuesGoOn }
    ensures waiting { WaitingGoesOn }
{}

/// A function that is called begins: its slots are objects in its frame, what it saves stands there, and the state in which the
/// placed run has entered it stands, with everything below the stack pointer as it was but for the return address.
pub fn functions_begin()
    ensures { FunctionsBegin }
{
    numbers_are_stored();
    bytes_stand();
    straight_words_run();
    words_are_made();
    frame_words_move();
    operands_are_loaded();
}

/// A function that returns ends: its slots live no more, what it saved is in its registers again, and its caller's state stands, with
/// the return address, the stack pointer as at the call, and the answer.
pub fn functions_end()
    ensures { FunctionsEnd }
{
    numbers_are_stored();
    straight_words_run();
    words_are_made();
    frame_words_move();
    operands_are_loaded();
}

/// The lines that load webs at a function's start are those of the webs that the placed run enters, in its order; so are those that
/// store them back.
pub fn webs_are_in_order()
    ensures loaded { WebsAreLoadedInOrder }
    ensures stored { WebsAreStoredInOrder }
{}

/// A function of the library reads, writes and ends alike in both runs, notes alike that it was called and returned, and its answer
/// stands in the register for answers.
pub fn library_does_alike()
    ensures { LibraryDoesAlike }
{
    bytes_stand();
}

/// Where a state of both runs stands whole, all its functions are active in both, their return addresses stand in memory, and the stack
/// pointer is as far above the base as their frames come to, above all objects that live; an operation that calls nothing leaves such a state.
pub fn whole_states_go_on()
    ensures active { AllAreActive }
    ensures links { ReturnAddressesStand }
    ensures stacked { FramesAreStacked }
    ensures objects { ObjectsStandBelow }
    ensures operations { OperationsGoOn }
{}

/// A whole state is amid the lines that are left of its function; and where lines change nothing of those that wait, both runs are
/// amid the function again behind them.
pub fn states_amid_go_on()
    ensures over { StatesStandOver }
    ensures compose { LeavesCompose }
    ensures lines { LinesGoOn }
    ensures whole { WholeStatesAreAmid }
    ensures amid { StatesAmidAreWhole }
    ensures operation { OperationsAreNext }
{}

/// Behind the webs, the lines of a function that returns lead to its caller, in whose frame nothing has changed; both runs note the
/// return alike, the answer may be taken, and return addresses stand in memory.
pub fn functions_come_back()
    ensures back { FunctionsComeBack }
    ensures links { LinksStandThen }
{
    numbers_are_stored();
    bytes_stand();
    straight_words_run();
    words_are_made();
    frame_words_move();
    operands_are_loaded();
}

/// Both runs note a call alike; and where there is no stack left for the function, the lines stop in it with the call refused, as
/// the placed run does before it.
pub fn calls_are_noted_alike()
    ensures called { CallsAreNotedAlike }
    ensures refused { FullCallsAreRefused }
{
    numbers_are_stored();
    bytes_stand();
    straight_words_run();
    words_are_made();
    frame_words_move();
    operands_are_loaded();
}

/// A function begins with its check and its saved registers, then come its webs and its parameters; it ends with its webs, and then
/// come the saved registers, the return address and the frame.
pub fn functions_are_shaped()
    ensures prologue { ProloguesAreShaped }
    ensures epilogue { EpiloguesAreShaped }
    ensures loaded { LoadedRowsAreStraight }
{}

/// A function that is called is entered in both runs, up to its webs and parameters: they note the call alike, the new state stands
/// whole, and all that were active wait, with the return address in the caller's frame.
pub fn functions_are_entered()
    ensures { FunctionsAreEntered }
{
    numbers_are_stored();
    bytes_stand();
    straight_words_run();
    words_are_made();
    frame_words_move();
    operands_are_loaded();
}

/// At the end of a block that does not return, both runs go on at the same block: the lines count no fewer events and note nothing,
/// and the state stands whole.
pub fn block_ends_go_on()
    ensures { BlockEndsGoOn }
{
    numbers_are_stored();
    straight_words_run();
    words_are_made();
    frame_words_move();
    operands_are_loaded();
}

/// A function takes its arguments: with each argument's word in the place of its parameter, the state in which the placed run has the
/// parameters stands, and what stands below the frame and what was saved is as it was.
pub fn parameters_are_taken()
    ensures { ParametersAreTaken }
{
    numbers_are_stored();
    straight_words_run();
    words_are_made();
    frame_words_move();
    operands_are_loaded();
    places_stand();
}

/// Behind the webs of a function its parameters lead to its first block, where the state of both runs stands whole.
pub fn first_blocks_begin()
    ensures { FirstBlocksBegin }
{
    numbers_are_stored();
    straight_words_run();
    words_are_made();
    frame_words_move();
    operands_are_loaded();
    places_stand();
}

/// Behind a call its caller takes the answer, and the state of both runs stands whole.
pub fn answers_are_taken()
    ensures { AnswersAreTaken }
{
    numbers_are_stored();
    straight_words_run();
    words_are_made();
    frame_words_move();
    operands_are_loaded();
    results_are_placed();
    registers_get_words();
    places_stand();
}

/// From an operation that calls a function, by name or through a value, the lines come to the turn that does: the arguments are
/// where the callee finds them, and the caller stands behind the call, but for its result.
pub fn calls_are_reached()
    ensures { CallsAreReached }
{
    numbers_are_stored();
    bytes_stand();
    straight_words_run();
    words_are_made();
    frame_words_move();
    operands_are_loaded();
    places_stand();
}
