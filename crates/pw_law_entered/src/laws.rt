//! The law. The function here does nothing: its clause is a fact about all values.

ghost use Rattle.std.specs.Prelude.{ℕ, List};
ghost use Rattle.pw_machine.specs.Run.{State};
ghost use Rattle.pw_run_languages.specs.LineRun.{start, steps};
ghost use Rattle.pw_where.specs.Calls.{IsCall};
ghost use Rattle.pw_law_where.specs.Counting.{AreEntriesOf};
ghost use Rattle.pw_law_link_run.specs.Steps.{Setting, map_in};
ghost use Rattle.pw_law_link_run.specs.Simulating.{IsLinked};
ghost use Rattle.pw_law_link_run.specs.Leveled.{AreFramed, IsMet};
ghost use Rattle.pw_law_entered.specs.Entered.{EntersAt, HasPassed};

use pw_law_where::laws::traces_count_calls;
use pw_where::laws::a_run_has_one_call;

/// At the k-th call that the debugger counts the machine shows the state of the lines in which the function has just been
/// entered, wherever the run of lines is met by the machine and has passed that step: the return address of the call stands in
/// register 2, and the first of the calls that are active is that of `$start`, at the beginning of the stack.
pub fn calls_are_entered()
    ensures { (x : Setting) (fr : AreFramed x) (scratch : ℕ → (ℕ → ℕ) → ℕ → ℕ) (input : List ℕ) (entries : List ℕ) (k m n : ℕ) (s : State) → IsLinked x → AreEntriesOf entries (map_in x) →
        ((i : ℕ) → IsMet x fr (steps x.program x.addresses scratch i (start x.program x.addresses input))) → IsCall entries x.start k m s →
        HasPassed m (steps x.program x.addresses scratch n (start x.program x.addresses input)) → EntersAt x fr scratch input k m n s }
{
    traces_count_calls();
    a_run_has_one_call();
}
