//! The laws. A function here does nothing: its clauses are facts about all values.

ghost use Rattle.std.specs.Prelude.{◌≡◌, ◌<◌, ℕ, List, Ok, Some};
ghost use Rattle.pw_value.specs.Values.{extended};
ghost use Rattle.pw_value.specs.declared.value.Kind.{Kind};
ghost use Rattle.pw_flow.specs.ValidFlow.{kind_size};
ghost use Rattle.pw_flow.specs.declared.flow.FlowGlobal.{FlowGlobal};
ghost use Rattle.pw_image.specs.declared.image.Function.{Function};
ghost use Rattle.pw_image.specs.declared.image.GlobalObject.{GlobalObject};
ghost use Rattle.pw_machine.specs.Core.{Core, byte_at, register};
ghost use Rattle.pw_run_languages.specs.Acts.{number_at};
ghost use Rattle.pw_run_languages.specs.Standing.{Active, global_now};
ghost use Rattle.pw_debug.specs.declared.info.FrameInfo.{FrameInfo};
ghost use Rattle.pw_debug.specs.Walk.{WalksTo, in_memory, is_signed, seen, start_of};
ghost use Rattle.pw_law_walk.specs.Chains.{Callers};
ghost use Rattle.pw_law_debug.specs.Telling.{number_of};

use pw_law_walk::laws::values_are_held;

/// What memory of bytes holds at an address, by a kind, is the number that the bytes there write, the first being worth most,
/// extended to a word.
pub fn memory_holds_its_bytes()
    ensures { (memory : List ℕ) (kind : Kind) (a value : ℕ) → ((b : ℕ) → byte_at memory b < 256) → in_memory memory kind a ≡ Some value → value ≡ extended (kind_size kind) (is_signed kind) (number_at (kind_size kind) (byte_at memory) a) }
{}

/// Where functions are active one behind another, as a walk meets them, the value to which the walk of a global object comes is
/// the number of the object where it stands, as the trace of the machine's run notes it at a call (`global_now`): in a word or
/// in memory.
pub fn walks_come_to_what_is_noted()
    ensures { (core : Core) (functions : List Function) (frames : List FrameInfo) (object : GlobalObject) (kind : Kind) (named : List ℕ → ℕ) (active : List Active) (g : FlowGlobal) (held value : ℕ) →
        ((b : ℕ) → byte_at core.memory b < 256) → g.name ≡ object.name → named g.name ≡ object.address → g.size ≡ kind_size kind →
        Callers (seen core.memory functions frames object kind) (start_of core).stack (start_of core).link active →
        in_memory core.memory kind object.address ≡ Some held →
        WalksTo (seen core.memory functions frames object kind) (start_of core) (Ok value) →
        value ≡ number_of kind (global_now named (byte_at core.memory) (register core) active g) }
{
    values_are_held();
}
