//! What single steps of a run come to as far as it shows: a function that does nothing, and whose contract states
//! it. For acts in order, calls and blocks, whose values are of any type, the same stands as lemmas
//! (proofs/RunLaws).

ghost use Rattle.std.specs.Prelude.{◌≡◌, ◌+◌, ℕ, List, Result, Ok, Err, true, false, nat_lt};
ghost use Rattle.pw_value.specs.declared.value.Byte.{Byte};
ghost use Rattle.pw_value.specs.Objects.{Object, written};
ghost use Rattle.pw_cmean.specs.Worlds.{World};
ghost use Rattle.pw_cmean.specs.Acts.{Act, State as AnyState, Site, StackFull, write};
ghost use Rattle.pw_cmean.specs.Evaluation.{take_room};
ghost use Rattle.pw_interp_state.specs.declared.fault.Fault.{Fault};
ghost use Rattle.pw_interp_state.specs.Answers.{changed};
ghost use Rattle.pw_interp_state.specs.Shown.{Shown};
ghost use Rattle.pw_interp_state.specs.Runs.{Runs, done_at, with_new};

/// A step at a node that changes the objects alone comes to what its function of the objects says; a write puts
/// bytes into an object; a call takes room where there is some.
pub fn steps_show()
    ensures changes { (world : World) (site : Site) (act : Act (Unit {0})) (f : List Object → Result (List Object) Fault) (w : Shown) →
        ((s : AnyState) → act s ≡ changed site (f s.objects) s) → Runs world act w (done_at site (f w.objects)) (with_new (f w.objects) w) }
    ensures writes { (world : World) (number offset : ℕ) (bytes : List Byte) (w : Shown) →
        Runs world (write number offset bytes) w (Ok tt) (record w { objects = written number offset bytes w.objects }) }
    ensures room { (world : World) (name : List ℕ) (w : Shown) →
        nat_lt world.stack (world.frame_of name + w.used) ≡ false → Runs world (take_room world name) w (Ok tt) w }
    ensures full { (world : World) (name : List ℕ) (w : Shown) →
        nat_lt world.stack (world.frame_of name + w.used) ≡ true → Runs world (take_room world name) w (Err StackFull) w }
{}
