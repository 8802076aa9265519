//! What the routines do, wherever their words stand in a program's text.

ghost use Rattle.std.specs.Prelude.{◌≡◌, ℕ, ◌+◌, ◌*◌, ◌++◌, List, [], ◌∷◌, length, Some};
ghost use Rattle.pw_value.specs.Words.{end_of_input};
ghost use Rattle.pw_machine.specs.declared.ends.End.TheVariants.{Ended};
ghost use Rattle.pw_machine.specs.Run.{State, Running, Stopped, run_of};
ghost use Rattle.pw_milli.specs.Words.{exit_words, getchar_words, putchar_words, divs_words, divu_words, mul_words, rems_words, remu_words};
ghost use Rattle.pw_milli.specs.Calls.{Enters, StaysInside, Computes, IsProduct, IsQuotient, IsRemainder, IsSignedQuotient, IsSignedRemainder, answers, given};

/// `$mul` puts the product of registers 26 and 25 modulo 2^32 into register 29, in at most 240 steps.
#[tactic(auto, using(crate::proofs::Product::mul_computes))]
pub fn mul_multiplies()
    ensures { (address : ℕ) (s : State) → Enters mul_words address s → Computes mul_words address s 240 (IsProduct s) }
{}

/// `$divu` puts the unsigned quotient of register 26 by register 25 into register 29, in at most 512 steps.
#[tactic(auto, using(crate::proofs::Quotients::divu_computes))]
pub fn divu_divides()
    ensures { (address : ℕ) (s : State) → Enters divu_words address s → Computes divu_words address s 512 (IsQuotient s) }
{}

/// `$remu` puts the unsigned remainder of register 26 by register 25 into register 29, in at most 512 steps.
#[tactic(auto, using(crate::proofs::Quotients::remu_computes))]
pub fn remu_divides()
    ensures { (address : ℕ) (s : State) → Enters remu_words address s → Computes remu_words address s 512 (IsRemainder s) }
{}

/// `$divs` puts the signed quotient of register 26 by register 25, truncated towards 0, into register 29,
/// in at most 512 steps.
#[tactic(auto, using(crate::proofs::Quotients::divs_computes))]
pub fn divs_divides()
    ensures { (address : ℕ) (s : State) → Enters divs_words address s → Computes divs_words address s 512 (IsSignedQuotient s) }
{}

/// `$rems` puts the signed remainder of register 26 by register 25, which has the dividend's sign, into
/// register 29, in at most 512 steps.
#[tactic(auto, using(crate::proofs::Quotients::rems_computes))]
pub fn rems_divides()
    ensures { (address : ℕ) (s : State) → Enters rems_words address s → Computes rems_words address s 512 (IsSignedRemainder s) }
{}

/// `exit` ends the run with the low 8 bits of register 26 as its status, by its first word, which neither loads nor
/// stores.
#[tactic(auto, using(crate::proofs::LibraryCalls::exit_runs))]
pub fn exit_ends()
    ensures end { (address : ℕ) (s : State) → Enters exit_words address s →
        run_of 1 s ≡ Stopped (Ended (given s)) (record s { core = record s.core { stopped = Some (Ended (given s)) } }) }
    ensures inside { (address : ℕ) (s : State) → Enters exit_words address s → StaysInside address (address + 4 * length exit_words) 1 s }
{}

/// `getchar` puts the next byte of the input into register 28, or -1 at its end, and returns to register 2. Each of its
/// steps is inside its words (one that is nullified may stand right behind them), and none loads or stores.
#[tactic(auto, using(crate::proofs::LibraryCalls::getchar_runs, crate::proofs::LibraryCalls::getchar_ends))]
pub fn getchar_reads()
    ensures byte { (address byte : ℕ) (rest : List ℕ) (s : State) → Enters getchar_words address s →
        s.rest ≡ byte ∷ rest → run_of 3 s ≡ Running (record (answers s byte) { rest = rest }) }
    ensures end { (address : ℕ) (s : State) → Enters getchar_words address s →
        s.rest ≡ [] → run_of 3 s ≡ Running (answers s end_of_input) }
    ensures inside { (address : ℕ) (s : State) → Enters getchar_words address s → StaysInside address (address + 4 * length getchar_words) 3 s }
{}

/// `putchar` writes the low 8 bits of register 26, puts them into register 28 and returns to register 2. Each of its
/// steps is inside its words (one that is nullified may stand right behind them), and none loads or stores.
#[tactic(auto, using(crate::proofs::LibraryCalls::putchar_runs))]
pub fn putchar_writes()
    ensures byte { (address : ℕ) (s : State) → Enters putchar_words address s →
        run_of 3 s ≡ Running (record (answers s (given s)) { output = s.output ++ given s ∷ [] }) }
    ensures inside { (address : ℕ) (s : State) → Enters putchar_words address s → StaysInside address (address + 4 * length putchar_words) 3 s }
{}
