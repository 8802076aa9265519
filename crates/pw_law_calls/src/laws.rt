//! The laws. A function here does nothing: its clauses are facts about all values.

ghost use Rattle.std.specs.Prelude.{◌≡◌, ◌<◌, ℕ, List, Ok, Some, length};
ghost use Rattle.std.specs.List.{AllByRecursion};
ghost use Rattle.pw_value.specs.Objects.{Object};
ghost use Rattle.pw_value.specs.declared.value.Byte.{Byte};
ghost use Rattle.pw_value.specs.declared.value.Kind.{Kind};
ghost use Rattle.pw_value.specs.declared.value.Pointer.{Pointer};
ghost use Rattle.pw_value.specs.declared.value.Value.TheVariants.{Num};
ghost use Rattle.pw_flow.specs.ValidFlow.{kind_size};
ghost use Rattle.pw_flow.specs.declared.flow.FlowGlobal.{FlowGlobal};
ghost use Rattle.pw_image.specs.declared.image.Function.{Function};
ghost use Rattle.pw_image.specs.declared.image.GlobalObject.{GlobalObject};
ghost use Rattle.pw_machine.specs.Core.{Core, byte_at, register};
ghost use Rattle.pw_machine.specs.Run.{State, start_state};
ghost use Rattle.pw_cmean.specs.Acts.{Moment};
ghost use Rattle.pw_run.specs.Runs.{Refines, Stage};
ghost use Rattle.pw_run_languages.specs.Memory.{scalar_of};
ghost use Rattle.pw_run_languages.specs.Programs.{Program};
ghost use Rattle.pw_run_languages.specs.Standing.{Active, global_now};
ghost use Rattle.pw_run_languages.specs.Traces.{Standing, calls_of};
ghost use Rattle.pw_run_languages.specs.MachineRun.{Map, noted, traced_run};
ghost use Rattle.pw_law_layers.specs.Whole.{GlobalInMachine, InMachine};
ghost use Rattle.pw_debug.specs.declared.info.FrameInfo.{FrameInfo};
ghost use Rattle.pw_debug.specs.Walk.{WalksTo, in_memory, seen, start_of};
ghost use Rattle.pw_where.specs.Calls.{IsCall};
ghost use Rattle.pw_law_walk.specs.Chains.{Callers};
ghost use Rattle.pw_law_where.specs.Counting.{AreEntriesOf};
ghost use Rattle.pw_law_debug.specs.Telling.{number_of};
ghost use Rattle.pw_law_calls.specs.Calls.{HasCalls, HasNoted, IsCallOfSource, IsSmall, IsSourceCall};

use pw_law_debug::laws::walks_come_to_what_is_noted;
use pw_law_where::laws::a_call_is_noted;

/// The k-th call that the debugger counts is the k-th of the program, where the calls and returns of the program are those of
/// the machine as far as the program has not gone wrong: it is of the same function, and each global has its value where the
/// machine's trace notes that it stands.
pub fn calls_are_those_of_the_source()
    ensures { (q : Program) (entries : List ℕ) (m : Map) (core : Core) (input : List ℕ) (meaning : ℕ → Stage Moment) (k step n : ℕ) (s : State) (log : List Moment) (f : List ℕ) (objects : List Object) →
        AreEntriesOf entries m → Refines (InMachine q m.named) meaning (calls_of (traced_run m core input)) →
        IsCall entries (start_state core input) k step s → HasNoted (meaning n) log → IsSourceCall log k f objects →
        IsCallOfSource q m k s.core (noted m (start_state core input) step) f objects }
{
    a_call_is_noted();
}

/// Where the debugger's k-th call is behind so many steps, and the calls and returns of the program are those of the machine as far as
/// the program has not gone wrong, the program has at least k calls at each stage that is its end or counts more events than these
/// steps, with the one that is refused at an end for want of stack.
pub fn stages_have_the_calls()
    ensures { (q : Program) (entries : List ℕ) (m : Map) (core : Core) (input : List ℕ) (meaning : ℕ → Stage Moment) (k step n : ℕ) (s : State) →
        AreEntriesOf entries m → Refines (InMachine q m.named) meaning (calls_of (traced_run m core input)) →
        IsCall entries (start_state core input) k step s → HasCalls step k (meaning n) }
{
    a_call_is_noted();
}

/// Where the bytes of a global of a kind are a number in C, this is the number that is told of where it stands.
pub fn numbers_are_told()
    ensures { (address : Pointer → ℕ) (objects : List Object) (g : FlowGlobal) (kind : Kind) (bytes : List Byte) (place : Standing ℕ ℕ) (v : ℕ) →
        g.kind ≡ Some kind → length bytes ≡ kind_size kind → AllByRecursion IsSmall bytes → scalar_of kind bytes ≡ Num v →
        GlobalInMachine address objects g bytes place → number_of kind place ≡ v }
{}

/// Where the bytes of a global of a kind are a number in C, this is the value to which the walk of the global comes,
/// where functions are active one behind another, as a walk meets them.
pub fn values_are_those_of_the_source()
    ensures { (core : Core) (functions : List Function) (frames : List FrameInfo) (object : GlobalObject) (kind : Kind) (named : List ℕ → ℕ) (active : List Active) (g : FlowGlobal) (held value : ℕ) (address : Pointer → ℕ) (objects : List Object) (bytes : List Byte) (v : ℕ) →
        ((b : ℕ) → byte_at core.memory b < 256) → g.name ≡ object.name → named g.name ≡ object.address → g.size ≡ kind_size kind → g.kind ≡ Some kind →
        Callers (seen core.memory functions frames object kind) (start_of core).stack (start_of core).link active →
        in_memory core.memory kind object.address ≡ Some held →
        length bytes ≡ kind_size kind → AllByRecursion IsSmall bytes → scalar_of kind bytes ≡ Num v →
        GlobalInMachine address objects g bytes (global_now named (byte_at core.memory) (register core) active g) →
        WalksTo (seen core.memory functions frames object kind) (start_of core) (Ok value) → value ≡ v }
{
    numbers_are_told();
    walks_come_to_what_is_noted();
}
