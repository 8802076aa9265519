//! The law of the meaning of C, without code: the run of an accepted program of checked texts comes to no end that the meaning does not have.
#![tactic(auto)]

ghost use Rattle.std.specs.Prelude.{ℕ, List};
ghost use Rattle.pw_cmean.specs.Worlds.{Program};
ghost use Rattle.pw_law_source.specs.Lowering.{AreChecked, IsAccepted, SourceIsNeverWrong};
ghost use Rattle.pw_law_never.specs.Resolved.{IsResolvedProgram};

use pw_law_checked::{accepted_bodies_are_bounded, accepted_bodies_have_words, strings_of_texts};
use pw_law_lower_names::operations_name_all;
use pw_law_never::resolved_programs_are_never_wrong;
use pw_law_scopes::accepted_locals_are_in_scope;

/// An accepted program of checked texts is resolved: each local that is named is in scope, each symbol is defined, and a called one is
/// a function, a number that becomes a pointer is the constant 0, and there is a `main` that takes nothing and gives an int.
pub fn accepted_programs_are_resolved()
    ensures { (p : Program) (frame_of : List ℕ → ℕ) (stack : ℕ) → AreChecked p → IsAccepted p frame_of stack → IsResolvedProgram p }
{
    strings_of_texts();
    accepted_bodies_have_words();
    accepted_bodies_are_bounded();
    accepted_locals_are_in_scope();
    operations_name_all();
}

/// The run of an accepted program of checked texts comes to no end that the meaning does not have, within any bound,
/// with any frames, on any stack and any input of bytes.
pub fn source_is_never_wrong()
    ensures { SourceIsNeverWrong }
{
    accepted_programs_are_resolved();
    resolved_programs_are_never_wrong();
}
