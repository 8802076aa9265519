//! Laws of calls and of walks. A function here does nothing: its clauses are facts about all values.

ghost use Rattle.std.specs.Prelude.{◌≡◌, ◌<◌, ℕ, List, Result};
ghost use Rattle.std.specs.List.{AllByRecursion};
ghost use Rattle.pw_object.specs.declared.object.Object.{Object};
ghost use Rattle.pw_image.specs.declared.image.Image.{Image};
ghost use Rattle.pw_machine.specs.Core.{Core};
ghost use Rattle.pw_machine.specs.Run.{Progress, State};
ghost use Rattle.pw_debug.specs.Knowing.{IsFrame};
ghost use Rattle.pw_debug.specs.declared.info.FrameInfo.{FrameInfo};
ghost use Rattle.pw_debug.specs.declared.turning.At.{At};
ghost use Rattle.pw_debug.specs.Walk.{Seen, WalksTo};
ghost use Rattle.pw_where.specs.Calls.{IsCall, Passes};
ghost use Rattle.pw_where.specs.Looks.{Shows};

/// The `k`-th call of a run comes behind one number of steps and in one state of the machine.
pub fn a_run_has_one_call()
    ensures step { (entries : List ℕ) (start : State) (k m n : ℕ) (s t : State) → IsCall entries start k m s → IsCall entries start k n t → m ≡ n }
    ensures state { (entries : List ℕ) (start : State) (k m n : ℕ) (s t : State) → IsCall entries start k m s → IsCall entries start k n t → s ≡ t }
{}

/// A run that comes to a call within so many steps does not pass them without it.
pub fn a_run_comes_or_passes()
    ensures { (entries : List ℕ) (start : State) (k m budget : ℕ) (s : State) (p : Progress) → IsCall entries start k m s → m < budget → Passes entries start k budget p → ⊥ }
{}

/// A walk over frames has one end: two values, or addresses at which it is lost, to which it comes are the same.
pub fn a_walk_has_one_end()
    ensures { (seen : Seen) (at : At) (a b : Result ℕ ℕ) → WalksTo seen at a → WalksTo seen at b → a ≡ b }
{}

/// What is shown at a call is one: one order of the globals, one value of each, or one address that is lost.
pub fn a_call_shows_one_thing()
    ensures { (image : Image) (objects : List Object) (frames : List FrameInfo) (k : ℕ) (core : Core) (a b : Result (List ℕ) ℕ) → Shows image objects frames k core a → Shows image objects frames k core b → a ≡ b }
{}

/// Something is shown at a call: the globals have an order, and each walk over lawful frames has an end.
pub fn a_call_shows_something()
    ensures { (image : Image) (objects : List Object) (frames : List FrameInfo) (k : ℕ) (core : Core) → AllByRecursion IsFrame frames → (lines : Result (List ℕ) ℕ) × Shows image objects frames k core lines }
{}
