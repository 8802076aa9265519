//! Laws of the meaning of C, without code: a program whose names are resolved comes to no end that the meaning does not have.
#![tactic(auto)]

ghost use Rattle.std.specs.Prelude.{◌≡◌, ◌≢◌, ◌<◌, ℕ, true, All, List, Some};
ghost use Rattle.pw_value.specs.declared.value.Value.TheVariants.{Num};
ghost use Rattle.pw_types.specs.TypedTrees.{Expression};
ghost use Rattle.pw_types.specs.WellTyped.{IsTyped};
ghost use Rattle.pw_check_rules.specs.Constants.{Known, constant_of, is_zero_constant};
ghost use Rattle.pw_cmean.specs.Worlds.{Program};
ghost use Rattle.pw_cmean.specs.Acts.{State, Gives, Wrong};
ghost use Rattle.pw_cmean.specs.Evaluation.{Env, Calls, answer_of};
ghost use Rattle.pw_cmean.specs.SourceRun.{source_run};
ghost use Rattle.pw_cmean.specs.Typed.{IsWellTyped};
ghost use Rattle.pw_law_never.specs.Resolved.{IsResolvedProgram};

use pw_cmean::laws::values_have_types;

/// A constant expression that is well typed gives the value that the rules tell of it, and does nothing else (ISO C90 6.4).
pub fn constants_give_their_value()
    ensures { (e : Env) (cs : Calls) (a : Expression) (n : ℕ) (s : State) →
        IsTyped e.home.tree e.locals a → constant_of a ≡ Known n → answer_of a cs e s ≡ Gives (Some (Num n)) s }
{}

/// The run of a well-typed program comes to no end that the meaning does not have, within any bound, on any stack and input: if
/// each local that is named is in scope, each symbol is defined, a number that becomes a pointer is the constant 0, and there is
/// a `main`.
pub fn resolved_programs_are_never_wrong()
    ensures { (p : Program) (frame_of : List ℕ → ℕ) (stack : ℕ) (input : List ℕ) (n : ℕ) →
        IsWellTyped p → IsResolvedProgram p → All (λ b. b < 256) input →
        (source_run p frame_of stack input n).end ≢ Wrong }
{
    values_have_types();
}
