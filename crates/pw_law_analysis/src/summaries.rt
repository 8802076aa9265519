//! Laws of the analyser, without code: summaries give the call graph of their flow modules.

ghost use Rattle.pw_law_analysis.specs.SummaryLaws.{AcceptedHaveShapes, SummariesSayTheSame};

/// In the flow modules of an accepted program each module defines or declares each function whose address it takes, since a
/// well-typed module does.
pub fn accepted_programs_have_shapes()
    ensures { AcceptedHaveShapes }
{}

/// Flow modules and their summaries give one call graph: the same calls, reads and writes by the names of functions and
/// globals, and the same eligible globals. This is so of all flow modules that make a program and have a shape for each
/// function whose address they take: a summary tells these from other names by what the module defines and declares.
pub fn summaries_say_the_same()
    ensures { SummariesSayTheSame }
{}
