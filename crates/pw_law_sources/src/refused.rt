//! Laws of the preprocessor's faults in builds. A function here does nothing: its clauses are facts about all values.

ghost use Rattle.std.specs.Prelude.{◌≡◌, ◌↔◌, ℕ, List, None, Result, Err, IsErr, IsErrAnd};
ghost use Rattle.pw_front_end.specs.declared.refusal.Refusal.{Refusal};
ghost use Rattle.pw_front_end.specs.declared.refusal.Refusal.TheVariants.{Lex};
ghost use Rattle.pw_io.specs.Files.{Files, prefix_of};
ghost use Rattle.pw_store_modules.specs.Modules.{Source, modules_of, text_read};
ghost use Rattle.pw_store_texts.specs.Headers.{headers_of};
ghost use Rattle.pw_store_texts.specs.Outputs.{ComesBy, Output};
ghost use Rattle.pw_store_texts.specs.Seen.{IsSeen, refused_text};
ghost use Rattle.pw_token.specs.declared.token.LexFault.TheVariants.{Bad};
ghost use Rattle.pw_build_files.specs.FromBuild.BuildFault.{BuildFault};
ghost use Rattle.pw_build_files.specs.FromBuild.BuildFault.TheVariants as build;
ghost use Rattle.pw_build_files.specs.FromBuild.Builds.{first_phases, limit_passed};
ghost use Rattle.pw_build_files.specs.FromBuild.FirstPhase.{compiled};
ghost use Rattle.pw_build_files.specs.Building.{BuildOutcome, Outcome};
ghost use Rattle.pw_build_opts.specs.declared.opts.Opts.{Opts};
ghost use Rattle.pw_law_sources.specs.Refused.{IsFaultBy, IsFirstRefused};
ghost use Rattle.pw_law_sources.specs.Sources.{HoldsSource};

use pw_io::laws::{front, names, other_files};
use pw_law_cpp::one_output;
use pw_store_modules::modules_are_exact;

/// The text that a build sees in the place of a C source with a fault is refused, whatever the module's name is: its first byte begins no
/// token.
pub fn a_text_for_a_fault_is_refused()
    ensures { (name : List ℕ) → compiled name (prefix_of text_read refused_text) ≡ Err (Lex (Bad 0)) }
{
    front();
}

/// A module is told as refused exactly where the modules pass no limit and it is the first of them, in the byte order of the names, that the
/// first phase refuses.
pub fn the_first_refused_module_is_told()
    ensures { (sources : List Source) (name : List ℕ) (refusal : Refusal) →
        (first_phases sources ≡ Err (build.Refused name refusal)) ↔ ((limit_passed sources ≡ None) × IsFirstRefused sources name refusal) }
{}

/// A store of which a C source comes to a fault of the preprocessor is refused: where its modules, as a build sees them, pass no limit, the
/// first of them that is refused is that source's, or one before it in the byte order of the names.
pub fn sources_with_faults_are_refused()
    ensures phases { (files shown : Files) (name text : List ℕ) (output : Output) →
        HoldsSource files name text → ComesBy (headers_of files) name text output → IsErr output → IsSeen files shown →
        IsErrAnd (first_phases (modules_of shown)) (IsFaultBy (modules_of shown) name) }
    ensures build { (files shown : Files) (name text : List ℕ) (output : Output) (opts : Opts) (comes : Result Outcome BuildFault) →
        HoldsSource files name text → ComesBy (headers_of files) name text output → IsErr output → IsSeen files shown →
        BuildOutcome shown opts comes → IsErrAnd comes (IsFaultBy (modules_of shown) name) }
{
    a_text_for_a_fault_is_refused();
    one_output();
    names();
    other_files();
    modules_are_exact();
}
