//! Laws of outputs. A function here does nothing: its clauses are facts about all values.

ghost use Rattle.std.specs.Prelude.{◌≡◌, ℕ, List, Result};
ghost use Rattle.pw_cpp.specs.Answers.{PreprocessesFile};
ghost use Rattle.pw_cpp_directives.specs.declared.fault.CppKind.{CppKind};
ghost use Rattle.pw_cpp_sources.specs.Sources.{Texts};

use pw_cpp_directives::one_effect;
use pw_cpp_expand::{one_outcome, one_reading};
use pw_cpp_lines::{one_end, one_head, one_line};

/// A file among others is preprocessed to one output, or to one fault.
pub fn one_output()
    ensures { (files : Texts) (name : List ℕ) (answer other : Result (List ℕ) (CppKind × List ℕ × ℕ)) → PreprocessesFile files name answer → PreprocessesFile files name other → answer ≡ other }
{
    one_head();
    one_line();
    one_end();
    one_reading();
    one_outcome();
    one_effect();
}
