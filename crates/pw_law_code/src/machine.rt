//! Laws of the machine's states, runs and memory, without code: what a run keeps, and what is read after a store. Each
//! is the contract of a function that does nothing.

ghost use Rattle.std.specs.Prelude.{◌≡◌, ◌≢◌, ℕ, ◌+◌, ◌%◌, ◌^◌, ◌<◌, ◌≤◌, ◌⊎◌, List, length};
ghost use Rattle.pw_image.specs.declared.image.Memory.{Memory};
ghost use Rattle.pw_image.specs.Image.{IsMemory};
ghost use Rattle.pw_machine.specs.Core.{Core, byte_at, half_at, word_at, with_byte, with_half, with_word};
ghost use Rattle.pw_machine.specs.Start.{image_start};
ghost use Rattle.pw_machine.specs.Run.{State, run_of};
ghost use Rattle.pw_law_code.specs.Lawful.{IsLawfulCore, IsLawful, IsLater, HasSameText, AreBytes, state_of};
ghost use Rattle.std.specs.List.{AllByRecursion};

/// The program of an image starts in a lawful state, and every state of a run from a lawful one is lawful:
/// the text and all below the data stay, the output only grows, and the rest of the input only shrinks.
pub fn runs_keep_lawful_states()
    ensures start { (m : Memory) → IsMemory m → AllByRecursion (λ i. AreBytes i.bytes) m.items → IsLawfulCore (image_start m) }
    ensures run { (m : ℕ) (s : State) → IsLawful s → IsLater s (state_of (run_of m s)) }
    ensures later { (m n : ℕ) (s : State) → IsLawful s → IsLater (state_of (run_of m s)) (state_of (run_of (m + n) s)) }
{}

/// A word below the data is the same in every later state.
#[tactic(auto, using(crate::proofs::StoreLaws::text_word))]
pub fn words_of_the_text_stay()
    ensures { (old new : Core) (a : ℕ) → HasSameText old new → a + 4 ≤ old.data_start → word_at new.memory a ≡ word_at old.memory a }
{}

/// What is read after a store is what was stored.
#[tactic(auto, using(crate::proofs::StoreLaws::byte_stored, crate::proofs::StoreLaws::half_stored, crate::proofs::StoreLaws::word_stored))]
pub fn stores_are_read()
    ensures byte { (memory : List ℕ) (a value : ℕ) → a < length memory → byte_at (with_byte memory a value) a ≡ value % 2 ^ 8 }
    ensures half { (memory : List ℕ) (a value : ℕ) → a + 2 ≤ length memory → half_at (with_half memory a value) a ≡ value % 2 ^ 16 }
    ensures word { (memory : List ℕ) (a value : ℕ) → a + 4 ≤ length memory → word_at (with_word memory a value) a ≡ value % 2 ^ 32 }
{}

/// Every other place is as it was before a store, and so is the memory's size.
#[tactic(auto, using(crate::proofs::StoreLaws::byte_other, crate::proofs::StoreLaws::half_other, crate::proofs::StoreLaws::word_other, crate::proofs::StoreLaws::byte_size, crate::proofs::StoreLaws::half_size, crate::proofs::StoreLaws::word_size))]
pub fn other_places_stay()
    ensures byte { (memory : List ℕ) (a p value : ℕ) → p ≢ a → byte_at (with_byte memory a value) p ≡ byte_at memory p }
    ensures half { (memory : List ℕ) (a p value : ℕ) → (p < a) ⊎ (a + 2 ≤ p) → byte_at (with_half memory a value) p ≡ byte_at memory p }
    ensures word { (memory : List ℕ) (a p value : ℕ) → (p < a) ⊎ (a + 4 ≤ p) → byte_at (with_word memory a value) p ≡ byte_at memory p }
    ensures byte_size { (memory : List ℕ) (a value : ℕ) → length (with_byte memory a value) ≡ length memory }
    ensures half_size { (memory : List ℕ) (a value : ℕ) → length (with_half memory a value) ≡ length memory }
    ensures word_size { (memory : List ℕ) (a value : ℕ) → length (with_word memory a value) ≡ length memory }
{}
