//! Laws of the registers that roots save.

ghost use Rattle.std.specs.Prelude.{◌≡◌, ◌+◌, Some, slice_get, ◌<◌, ◌≤◌, ◌⊎◌, ℕ, List, [], length, slice_index, Contains, Bool, IsTrue};
ghost use Rattle.std.specs.List.{AllByRecursion};
ghost use Rattle.pw_db.specs.Limits.{first_register, last_register, colour_limit};
ghost use Rattle.pw_summary.specs.declared.summary.Summary.{Summary};
ghost use Rattle.pw_graph.specs.declared.graph.CallGraph.{CallGraph};
ghost use Rattle.pw_graph.specs.CallGraph.{Calls, Path};
ghost use Rattle.pw_graph.specs.Program.{IsGraphOf};
ghost use Rattle.pw_clusters.specs.Clusters.{AreRoots, IsMember};
ghost use Rattle.pw_summary.specs.Summary.{need_limit};
ghost use Rattle.pw_clusters.specs.Saving.{last_registers, saves_by, free_by, need_in, free_at, IsNeed};
ghost use Rattle.pw_clusters.specs.Naming.{TellsMovable, IsSavedAboveNamed};
ghost use Rattle.pw_clusters.specs.Sharing.{Shares, IsSavedAbove};
ghost use Rattle.pw_clusters.specs.ByName.{IsNamed};
ghost use Rattle.pw_db_sound.specs.CallGraphs.{Graph};

/// The registers that are saved for a cluster are some of those that a callee keeps; and no function both saves registers for
/// others and has some free.
pub fn few_registers_are_saved()
    ensures kept { (k r : ℕ) → k ≤ need_limit → Contains (last_registers k) r → (first_register ≤ r) × (r ≤ last_register) }
    ensures apart { (f root k : ℕ) → (saves_by f root k ≡ []) ⊎ (free_by f root k ≡ []) }
    ensures few { (roots needs : List ℕ) (r : ℕ) → AllByRecursion (λ n. n ≤ need_limit) needs → need_in roots needs r ≤ need_limit }
{}

/// A call graph has at most one assignment of roots, and by it each root is a function and its own root.
pub fn roots_are_one()
    ensures one { (ss : List Summary) (g : CallGraph) (xs ys : List ℕ) → IsGraphOf ss g → AreRoots ss g xs → AreRoots ss g ys → xs ≡ ys }
    ensures own { (ss : List Summary) (g : CallGraph) (roots : List ℕ) → IsGraphOf ss g → AreRoots ss g roots → (f : ℕ) → f < length g.functions → slice_index roots (slice_index roots f) ≡ slice_index roots f }
    ensures within { (ss : List Summary) (g : CallGraph) (roots : List ℕ) → IsGraphOf ss g → AreRoots ss g roots → (f : ℕ) → f < length g.functions → slice_index roots f < length g.functions }
{}

/// A register that a function is free to use is saved by its root, and each function from which calls lead to it without the
/// root saves the register or is free to use it too. No web has such a register, as webs have the first ones.
pub fn free_registers_are_saved_above()
    ensures saved { (ss : List Summary) (g : CallGraph) (roots needs : List ℕ) → IsGraphOf ss g → AreRoots ss g roots → (f q : ℕ) → f < length g.functions → Contains (free_at roots needs f) q → IsSavedAbove g roots needs f q }
    ensures of_no_web { (roots needs : List ℕ) (f q : ℕ) → AllByRecursion (λ n. n ≤ need_limit) needs → Shares roots needs f q → (first_register + colour_limit ≤ q) × (q ≤ last_register) }
{}

/// So it is by names, as soundness of directives has it: its root is the one of that graph.
pub fn free_registers_are_saved_by_name()
    ensures { (ss : List Summary) (g : CallGraph) (roots needs : List ℕ) (n : Graph) → IsGraphOf ss g → AreRoots ss g roots → IsNamed g n → TellsMovable ss n → (f : ℕ) (h : List ℕ) (q : ℕ) → slice_get g.functions f ≡ Some h → Contains (free_at roots needs f) q → IsSavedAboveNamed g n roots needs h q }
{}

/// Each member of a cluster has as many registers free as it needs, and no more are saved than some member needs.
pub fn members_have_what_they_need()
    ensures enough { (roots needs : List ℕ) (r f n : ℕ) → IsMember roots r f → slice_get needs f ≡ Some n → n ≤ length (free_at roots needs f) }
    ensures attained { (roots needs : List ℕ) (r : ℕ) → (need_in roots needs r ≡ 0) ⊎ IsNeed roots needs r (need_in roots needs r) }
{}

/// A call graph has an assignment of roots.
pub fn roots_are_there()
    ensures { (ss : List Summary) (g : CallGraph) → IsGraphOf ss g → (roots : List ℕ) × AreRoots ss g roots }
{}

/// What holds of each function if it holds of all that call it, and holds of it or else it does not come to call itself, holds
/// of all.
pub fn what_callers_hand_on_holds()
    ensures { (g : CallGraph) (holds : ℕ → Bool) → length g.calls ≡ length g.functions → ((f : ℕ) → f < length g.functions → IsTrue (holds f) ⊎ (¬ Path g f f)) → ((f : ℕ) → f < length g.functions → ((c : ℕ) → Calls g c f → IsTrue (holds c)) → IsTrue (holds f)) → (f : ℕ) → f < length g.functions → IsTrue (holds f) }
{}
