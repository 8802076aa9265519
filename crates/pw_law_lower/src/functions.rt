//! Laws of lowering, without code: later code keeps earlier code, frames are within their rooms, and flow graphs name
//! only what there is.

ghost use Rattle.std.specs.Prelude.{◌≡◌, ◌≤◌, ℕ, List};
ghost use Rattle.pw_lower.specs.Expressions.{Home, lower};
ghost use Rattle.pw_lower.specs.Modules.{lowered_function, start_function};
ghost use Rattle.pw_lower.specs.Statements.{Frame, lower_statement};
ghost use Rattle.pw_lower.specs.declared.code.Code.{Code};
ghost use Rattle.pw_lower.specs.declared.place.Ways.{Ways};
ghost use Rattle.pw_law_lower.specs.Kept.{Keeps};
ghost use Rattle.pw_flow.specs.FrameRooms.{flow_room};
ghost use Rattle.pw_flow.specs.ValidFlow.{IsFunction as IsFlowFunction};
ghost use Rattle.pw_law_lower.specs.Bounds.{IsFunctionBounded};
ghost use Rattle.pw_value.specs.Limits.{room_limit};
ghost use Rattle.pw_law_lower.specs.Parts.{partless};
ghost use Rattle.pw_law_lower.specs.Ranges.{IsFunctionInRange};
ghost use Rattle.pw_types.specs.Rooms.{room_of, start_room};
ghost use Rattle.pw_types.specs.TypedModules.{IsFunction};
ghost use Rattle.pw_types.specs.TypedTrees.{Expression, FunctionValue, ModuleValue, Statement};

/// The code behind an expression or a statement has what the code before it has, in its place.
pub fn later_code_keeps()
    ensures expressions { (h : Home) (e : Expression) (c : Code) → Keeps c (lower h e c).code }
    ensures statements { (f : Frame) (ways : Ways) (s : Statement) (c : Code) → Keeps c (lower_statement f ways s c) }
{}

/// The frame of a function's flow graph fits in the function's room, and that of the function that the
/// program starts with in its own.
pub fn frames_fit()
    ensures functions { (home : List ℕ) (m : ModuleValue) (f : FunctionValue) → IsFunction m f → partless f.body ≡ 0
        → flow_room (lowered_function home m.records f) ≤ room_of m.records f }
    ensures start { flow_room start_function ≤ start_room }
{}

/// In the flow graph of a well-typed function each operation names temporaries and slots that there are,
/// and each block ends at blocks that there are.
pub fn functions_stay_in_range()
    ensures { (home : List ℕ) (m : ModuleValue) (f : FunctionValue) → IsFunction m f → IsFunctionInRange (lowered_function home m.records f) }
{}

/// The flow graph of a well-typed function whose room keeps the limit is lawful, if its numbers are words,
/// its moves are lawful and its calls have no more arguments than a function may.
pub fn functions_are_lawful()
    ensures { (home : List ℕ) (m : ModuleValue) (f : FunctionValue) → IsFunction m f → partless f.body ≡ 0 → room_of m.records f ≤ room_limit
        → IsFunctionBounded (lowered_function home m.records f) → IsFlowFunction (lowered_function home m.records f) }
{}
