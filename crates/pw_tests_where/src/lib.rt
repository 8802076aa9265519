//! What the debugger shows of small images: the truth of a C program, a wrong value, a lost walk. A function here does nothing: its
//! clauses are facts that the prover computes.
#![tactic(auto)]

ghost use Rattle.std.specs.Prelude.{[], Ok, Some};
ghost use Rattle.pw_value.specs.ProgramNames.{main_name};
ghost use Rattle.pw_run_agreement.specs.Agreement.{IsDefined};
ghost use Rattle.pw_run_languages.specs.LinkingLaws.{frame_in};
ghost use Rattle.pw_law_source.specs.Source.{source_runs};
ghost use Rattle.pw_where.specs.Looks.{ShowsAt};
ghost use Rattle.pw_law_truth.specs.Truth.{IsPause, ShowsTruth, TellTrue};
ghost use Rattle.pw_tests_where.specs.Images.{frames, image, objects, program, right_lines, right_value, things, wrong_value};

use pw_machine::{data_bytes, text_words};

/// A program is defined, and comes to its first call, of `main`; its image shows these lines there; and they are true.
pub fn the_truth_is_shown()
    ensures defined { IsDefined (source_runs program (frame_in (image right_value)) 4096 []) }
    ensures comes { IsPause program [] 1 main_name things }
    ensures shows { ShowsAt (image right_value) objects frames 1 1000 [] (Ok right_lines) (Some []) }
    ensures truth { TellTrue program (image right_value) objects 1 right_lines main_name things }
{
    data_bytes();
    text_words();
}

/// An image in which the value of a global is wrong where `main` is called does not show the truth.
pub fn wrong_lines_are_no_truth()
    ensures { ¬ ShowsTruth program (image wrong_value) objects frames 1 1000 [] }
{
    data_bytes();
    text_words();
}

/// Where nothing is known of functions, so that a walk is lost, the truth is not shown.
pub fn lost_walks_are_no_truth()
    ensures { ¬ ShowsTruth program (image right_value) objects [] 1 1000 [] }
{
    data_bytes();
    text_words();
}
