//! What the modules of files are. A function here does nothing: its clauses are facts about all values.

ghost use Rattle.std.specs.Prelude.{◌≡◌, ◌↔◌, ℕ, List, Some, map};
ghost use Rattle.std.specs.Ordering.{nat_cmp};
ghost use Rattle.std.specs.Cmp.Lexicographic.{slice_cmp};
ghost use Rattle.std.specs.List.Sorted.{IsStrictlySortedBy};
ghost use Rattle.std.specs.FinMap as finite;
ghost use Rattle.pw_io.specs.Files.{Files};
ghost use Rattle.pw_store_modules.specs.Modules.{HoldsModule, module_map, modules_of};

/// The modules of files are exactly those that the files hold, and their names rise in byte order.
pub fn modules_are_exact()
    ensures exact { (files : Files) (name text : List ℕ) → (finite.get (module_map files) name ≡ Some text) ↔ HoldsModule files name text }
    ensures rising { (files : Files) → IsStrictlySortedBy (slice_cmp nat_cmp) (finite.keys (module_map files)) }
{}
