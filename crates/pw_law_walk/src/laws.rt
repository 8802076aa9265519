//! The laws. A function here does nothing: its clause is a fact about all values.

ghost use Rattle.std.specs.Prelude.{◌≡◌, ◌%◌, ℕ, List, Ok, Err, Some};
ghost use Rattle.std.specs.List.{AllByRecursion};
ghost use Rattle.pw_value.specs.declared.value.Kind.{Kind};
ghost use Rattle.pw_alloc.specs.ValidPlaces.{IsLocated};
ghost use Rattle.pw_alloc.specs.declared.located.Located.{Located};
ghost use Rattle.pw_image.specs.declared.image.Function.{Function};
ghost use Rattle.pw_image.specs.declared.image.GlobalObject.{GlobalObject};
ghost use Rattle.pw_machine.specs.Core.{Core, byte_at, register};
ghost use Rattle.pw_run_languages.specs.Standing.{Active, held};
ghost use Rattle.pw_debug.specs.declared.info.FrameInfo.{FrameInfo};
ghost use Rattle.pw_debug.specs.Walk.{WalksTo, in_memory, seen, start_of};
ghost use Rattle.pw_law_walk.specs.Chains.{Callers, Chain, StandsInMemory, found};

/// Where functions are active one behind another, as a walk meets them, the walk finds a global object where it is held: in the
/// register of the latest of these functions that has a web of it, as that register is when all that were called later have
/// given back what they saved; or in memory.
pub fn walks_find_globals()
    ensures { (core : Core) (functions : List Function) (frames : List FrameInfo) (object : GlobalObject) (kind : Kind) (active : List Active) (value : ℕ) →
        Chain (seen core.memory functions frames object kind) (start_of core) active →
        in_memory core.memory kind object.address ≡ Some value →
        WalksTo (seen core.memory functions frames object kind) (start_of core) (Ok (found kind value (held object.name (byte_at core.memory) (register core) active))) }
{}

/// Where it is known that a walk comes to a value, that is the global object's where it is held, also if nothing is known of
/// the words of these functions but that no other return address stands where a function keeps its own (`Callers`).
pub fn values_are_held()
    ensures { (core : Core) (functions : List Function) (frames : List FrameInfo) (object : GlobalObject) (kind : Kind) (active : List Active) (word value : ℕ) →
        Callers (seen core.memory functions frames object kind) (start_of core).stack (start_of core).link active →
        in_memory core.memory kind object.address ≡ Some word →
        WalksTo (seen core.memory functions frames object kind) (start_of core) (Ok value) → value ≡ found kind word (held object.name (byte_at core.memory) (register core) active) }
{}

/// The frame of a function with lawful places has a multiple of 8 bytes.
pub fn frames_are_even()
    ensures { (l : Located) → IsLocated l → l.frame % 8 ≡ 0 }
{}

/// Where functions are active so, and the frame of each of them stands in the memory, no walk is lost.
pub fn no_walk_is_lost()
    ensures { (core : Core) (functions : List Function) (frames : List FrameInfo) (object : GlobalObject) (kind : Kind) (active : List Active) (word address : ℕ) →
        Callers (seen core.memory functions frames object kind) (start_of core).stack (start_of core).link active → AllByRecursion StandsInMemory active →
        in_memory core.memory kind object.address ≡ Some word →
        ¬ WalksTo (seen core.memory functions frames object kind) (start_of core) (Err address) }
{}
