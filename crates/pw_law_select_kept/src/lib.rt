//! Laws of the registers that a callee keeps for the law of selection, without code: how they are saved and given back in the run of
//! lines.
#![tactic(auto)]

ghost use Rattle.pw_law_select_kept.specs.Keeping.{FunctionsEnterAsFound, FunctionsReturnAsFound, KeptRegistersAreSaved, OperationsLeaveAsFound};

/// A register that a callee keeps and that a function may not change is one that it saves, or one of none of its temporaries
/// and webs.
pub fn kept_registers_are_saved()
    ensures { KeptRegistersAreSaved }
{}

/// A function that runs leaves the registers that a callee keeps as it found them, with what it saved given back.
pub fn operations_leave_as_found()
    ensures { OperationsLeaveAsFound }
{}

/// A function that was just entered, and has saved, leaves the registers that a callee keeps as it found them, with
/// what it saved given back.
pub fn functions_enter_as_found()
    ensures { FunctionsEnterAsFound }
{}

/// A return keeps the registers, and its caller goes on to leave them as it found them.
pub fn functions_return_as_found()
    ensures { FunctionsReturnAsFound }
{}
