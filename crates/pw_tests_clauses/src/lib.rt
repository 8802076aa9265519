//! Images that clauses of the main theorem refuse. A function here does nothing: its clause is a fact that the prover computes.
#![tactic(auto)]

ghost use Rattle.std.specs.Prelude.{[]};
ghost use Rattle.pw_run_languages.specs.LinkingLaws.{frame_in};
ghost use Rattle.pw_law_source.specs.Lowering.{flow_program};
ghost use Rattle.pw_law_analysis.specs.ImagePlaces.{GlobalsHavePlaces};
ghost use Rattle.pw_law_analysis.specs.ImageRegisters.{CallsKeepRegisters};
ghost use Rattle.pw_tests_clauses.specs.Images.{changing, program, wrong_value};

use pw_machine::{data_bytes, text_words};

/// An image in which a function changes register 5, and no web has that, does not keep registers over its calls.
pub fn a_register_that_changes_is_refused()
    ensures { ¬ CallsKeepRegisters [] changing [] }
{
    text_words();
}

/// An image in which a global of value 0 is 1 where `main` is called has not the globals of the program in their places.
pub fn a_wrong_value_is_refused()
    ensures { ¬ GlobalsHavePlaces program (flow_program program (frame_in wrong_value) 4096) [] wrong_value [] }
{
    data_bytes();
    text_words();
}
