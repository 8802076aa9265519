//! What follows of the words in this crate's clauses. Each function does nothing: its clauses are
//! facts about all values, and a caller that calls it may use them.
ghost use Rattle.std.specs.Prelude.{◌≡◌, ◌≢◌, ℕ, ◌+◌, ◌-◌, ◌^◌, ◌<◌, ◌≤◌, ◌⊎◌, ◌↔◌, ◌==◌, List, [], ◌∷◌, ◌++◌, length, min, Some, None, IsSome, Contains, String, Vec, string_bytes, if◌then◌else◌};
ghost use Rattle.std.specs.Ordering.{nat_cmp};
ghost use Rattle.std.specs.Cmp.Lexicographic.{slice_cmp};
ghost use Rattle.std.specs.List.Sorted.{IsStrictlySortedBy};
ghost use Rattle.std.specs.FinMap as finite;
ghost use Rattle.std.specs.declared.alloc.Global.{Global};
ghost use Rattle.pw_io.specs.declared.mem_store.StoreFail.{StoreFail};
ghost use Rattle.pw_io.specs.Faults.{Rose};
ghost use Rattle.pw_io.specs.Files.{Files, prefix_of, LeavesFile};
ghost use Rattle.pw_io.specs.Shelf.{files_of};
ghost use Rattle.pw_io.specs.MemoryStore.{left_by_call};

/// A count rose exactly where it is greater than before or stands at its end.
pub fn rose()
    ensures { (before now : ℕ) → Rose before now ↔ ((before < now) ⊎ (2 ^ 64 - 1 ≤ now)) }
{}

/// The front of a file: the whole file where it is no longer, and never more than was asked for.
pub fn front()
    ensures whole { (most : ℕ) (bytes : List ℕ) → length bytes ≤ most → prefix_of most bytes ≡ bytes }
    ensures length { (most : ℕ) (bytes : List ℕ) → length (prefix_of most bytes) ≡ min most (length bytes) }
{}

/// The names of files are in byte order, each once, and they are the names that have a file.
pub fn names()
    ensures order { (files : Files) → IsStrictlySortedBy (slice_cmp nat_cmp) (finite.keys files) }
    ensures exact { (files : Files) (name : List ℕ) →
        Contains (finite.keys files) name ↔ IsSome (finite.get files name) }
{}

/// A change of one file is none of any other.
pub fn other_files()
    ensures inserted { (files : Files) (name bytes : List ℕ) →
        finite.get (finite.insert files name bytes) name ≡ Some bytes }
    ensures removed { (files : Files) (name : List ℕ) → finite.get (finite.remove files name) name ≡ None }
    ensures insertion { (files : Files) (name bytes other : List ℕ) → other ≢ name →
        finite.get (finite.insert files name bytes) other ≡ finite.get files other }
    ensures removal { (files : Files) (name other : List ℕ) → other ≢ name →
        finite.get (finite.remove files name) other ≡ finite.get files other }
    ensures failure { (old new : Files) (name bytes other : List ℕ) → LeavesFile old new name bytes →
        other ≢ name → finite.get new other ≡ finite.get old other }
{}

/// Of the files of a list the last entry of a name counts, and of the calls that fail the last entry
/// of a number.
pub fn last_entry()
    ensures no_file { files_of [] ≡ finite.empty }
    ensures file { (entries : List (String Global × Vec ℕ Global)) (last : String Global × Vec ℕ Global) →
        files_of (entries ++ last ∷ []) ≡ finite.insert (files_of entries) (string_bytes last.0) last.1.items }
    ensures no_fail { (call : ℕ) → left_by_call [] call ≡ None }
    ensures fail { (fails : List StoreFail) (last : StoreFail) (call : ℕ) →
        left_by_call (fails ++ last ∷ []) call
        ≡ (if last.call == call then Some last.leaves else left_by_call fails call) }
{}
