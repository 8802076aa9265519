//! Laws of the meaning that the layers above build on: functions that do nothing, and whose contracts state
//! them.

ghost use Rattle.std.specs.Prelude.{◌≡◌, ◌≢◌, ◌≤◌, ℕ, Bool, List, Some, Contains};
ghost use Rattle.pw_value.specs.declared.value.Value.{Value};
ghost use Rattle.pw_types.specs.TypeTrees.{QType, QTypes, Function, type_of};
ghost use Rattle.pw_types.specs.TypedTrees.{Expression, Statement, FunctionValue};
ghost use Rattle.pw_types.specs.WellTyped.{type_in, IsTyped};
ghost use Rattle.pw_types.specs.TypedModules.{IsStatement};
ghost use Rattle.pw_cmean.specs.Worlds.{Program, World, Callable, function_named};
ghost use Rattle.pw_cmean.specs.Acts.{State, Bound};
ghost use Rattle.pw_cmean.specs.Evaluation.{Env, answer_of, place_of, call};
ghost use Rattle.pw_cmean.specs.Execution.{Entry, meaning};
ghost use Rattle.pw_cmean.specs.SourceRun.{calls, source_run};
ghost use Rattle.pw_cmean.specs.Lasting.{state_behind, Extends, HasRead, KeepsObjects, KeepsActive};
ghost use Rattle.pw_cmean.specs.Typed.{IsPointer, IsResultOf, IsLetterResult, IsFlowOf, IsWellTyped, result_letter, HoldsBytes, IfGives};

/// What a run comes to within a bound it comes to within every greater one, unless the bound cut it short.
pub fn bound_is_monotone()
    ensures { (program : Program) (frame_of : List ℕ → ℕ) (stack : ℕ) (input : List ℕ) (n m : ℕ) → n ≤ m →
        (source_run program frame_of stack input n).end ≢ Bound →
        source_run program frame_of stack input m ≡ source_run program frame_of stack input n }
{}

/// Nothing that was written is taken back, and a greater bound only adds to the output.
pub fn output_grows()
    ensures expressions { (world : World) (n : ℕ) (a : Expression) (e : Env) (s : State) →
        Extends s.out (state_behind (answer_of a (calls world n) e s)).out }
    ensures statements { (world : World) (n : ℕ) (a : Statement) (entry : Entry) (e : Env) (s : State) →
        Extends s.out (state_behind (meaning a entry (calls world n) e s)).out }
    ensures calls { (world : World) (n : ℕ) (f : Callable) (args : List Value) (s : State) →
        Extends s.out (state_behind (call world (calls world n) f args s)).out }
    ensures runs { (program : Program) (frame_of : List ℕ → ℕ) (stack : ℕ) (input : List ℕ) (n m : ℕ) → n ≤ m →
        Extends (source_run program frame_of stack input n).out (source_run program frame_of stack input m).out }
{}

/// The input is read from its beginning, each byte that is read is counted, and a greater bound only reads on.
pub fn reading_grows()
    ensures expressions { (world : World) (n : ℕ) (a : Expression) (e : Env) (s : State) →
        HasRead s (state_behind (answer_of a (calls world n) e s)) }
    ensures statements { (world : World) (n : ℕ) (a : Statement) (entry : Entry) (e : Env) (s : State) →
        HasRead s (state_behind (meaning a entry (calls world n) e s)) }
    ensures calls { (world : World) (n : ℕ) (f : Callable) (args : List Value) (s : State) →
        HasRead s (state_behind (call world (calls world n) f args s)) }
    ensures runs { (program : Program) (frame_of : List ℕ → ℕ) (stack : ℕ) (input : List ℕ) (n m : ℕ) → n ≤ m →
        (source_run program frame_of stack input n).read ≤ (source_run program frame_of stack input m).read }
{}

/// Behind an expression, a statement or a call the functions are active that were before it.
pub fn active_restored()
    ensures expressions { (world : World) (n : ℕ) (a : Expression) (e : Env) (s : State) →
        KeepsActive s (answer_of a (calls world n) e s) }
    ensures statements { (world : World) (n : ℕ) (a : Statement) (entry : Entry) (e : Env) (s : State) →
        KeepsActive s (meaning a entry (calls world n) e s) }
    ensures calls { (world : World) (n : ℕ) (f : Callable) (args : List Value) (s : State) →
        KeepsActive s (call world (calls world n) f args s) }
{}

/// The objects that there were keep their numbers, their sizes and whether they may be written, and live on
/// where they lived: an expression, a statement or a call ends only objects that it made.
pub fn objects_keep_their_size()
    ensures expressions { (world : World) (n : ℕ) (a : Expression) (e : Env) (s : State) →
        KeepsObjects s (state_behind (answer_of a (calls world n) e s)) }
    ensures statements { (world : World) (n : ℕ) (a : Statement) (entry : Entry) (e : Env) (s : State) →
        KeepsObjects s (state_behind (meaning a entry (calls world n) e s)) }
    ensures calls { (world : World) (n : ℕ) (f : Callable) (args : List Value) (s : State) →
        KeepsObjects s (state_behind (call world (calls world n) f args s)) }
{}

/// In a program whose modules are well typed and agree on functions, a result is one of its expression's type,
/// a place is a pointer, and what a function returns is of its result's type. The objects go on to hold bytes.
pub fn values_have_types()
    ensures expressions { (n : ℕ) (a : Expression) (e : Env) (s : State) →
        IsWellTyped e.world.program → Contains e.world.program.modules e.home → IsTyped e.home.tree e.locals a →
        HoldsBytes s → IfGives (IsResultOf (type_in a)) (answer_of a (calls e.world n) e s) }
    ensures places { (n : ℕ) (a : Expression) (e : Env) (s : State) →
        IsWellTyped e.world.program → Contains e.world.program.modules e.home → IsTyped e.home.tree e.locals a →
        HoldsBytes s → IfGives IsPointer (place_of a (calls e.world n) e s) }
    ensures statements { (n : ℕ) (f : FunctionValue) (result : QType) (params : QTypes) (breaks continues : Bool)
        (from : ℕ) (a : Statement) (entry : Entry) (e : Env) (s : State) →
        IsWellTyped e.world.program → Contains e.world.program.modules e.home →
        type_of f.ty ≡ Function result params → IsStatement e.home.tree f breaks continues from a →
        HoldsBytes s → IfGives (IsFlowOf (type_of result)) (meaning a entry (calls e.world n) e s) }
    ensures calls { (world : World) (n : ℕ) (name : List ℕ) (f : Callable) (args : List Value) (s : State) →
        IsWellTyped world.program → function_named world.program name ≡ Some f →
        HoldsBytes s → IfGives (IsLetterResult (result_letter f.shape)) (call world (calls world n) f args s) }
{}
