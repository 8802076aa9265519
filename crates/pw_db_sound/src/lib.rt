//! Sound directives in definitions, with laws: which globals may stay in registers across calls.
#![tactic(auto)]

ghost use Rattle.std.specs.Prelude.{ℕ, List, []};
ghost use Rattle.pw_db.specs.declared.database.Directives.{Directives};
ghost use Rattle.pw_db_sound.specs.CallGraphs.{Graph, Calls, SayTheSame};
ghost use Rattle.pw_db_sound.specs.Sound.{IsFree, IsSaver, LeavesAlone, Sound};

/// No directives at all are sound, for whatever program.
pub fn nothing_is_sound()
    ensures { (g : Graph) → Sound g [] }
{}

/// Whether directives are sound rests on what the graph says of calls, reads, writes, eligible globals and functions that
/// may be moved alone.
#[tactic(auto, using(crate::proofs::Relations::sound_again))]
pub fn soundness_rests_on_relations()
    ensures { (g h : Graph) (d : List (List ℕ × Directives)) → SayTheSame g h → Sound g d → Sound h d }
{}

/// Whoever calls a function that is free to use a register, which that function does not save, keeps nothing in it over
/// the call.
pub fn callers_leave_free_registers_alone()
    ensures { (g : Graph) (d : List (List ℕ × Directives)) (a f : List ℕ) (r : ℕ) → Sound g d → Calls g a f → IsFree d f r → ¬ IsSaver d f r → LeavesAlone d a r }
{}
