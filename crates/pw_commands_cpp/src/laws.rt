//! Laws of what is told. A function here does nothing: its clause is a fact about all values.

ghost use Rattle.std.specs.Prelude.{◌≡◌, ℕ, List};
ghost use Rattle.pw_commands_cpp.specs.Telling.{TellsAnswer};
ghost use Rattle.pw_io.specs.Files.{Files};
ghost use Rattle.pw_store_texts.specs.Headers.{headers_of};
ghost use Rattle.pw_store_texts.specs.Outputs.{ComesBy, Output};
ghost use Rattle.pw_top_answer.specs.declared.answer.Answer.{Answer};

use pw_law_cpp::one_output;

/// Among the headers of a store a C source comes to one thing.
pub fn a_source_has_one_output()
    ensures { (files : Files) (name text : List ℕ) (output other : Output) → ComesBy (headers_of files) name text output → ComesBy (headers_of files) name text other → output ≡ other }
{
    one_output();
}

/// Over a store's files an answer is told in one way.
pub fn answers_are_told_in_one_way()
    ensures { (files : Files) (answer told other : Answer) → TellsAnswer files answer told → TellsAnswer files answer other → told ≡ other }
{
    one_output();
}
