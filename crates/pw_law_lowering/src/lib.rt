//! The law of lowering, without code: the flow graphs of accepted programs of checked texts do what the programs mean.
#![tactic(auto)]

ghost use Rattle.pw_law_source.specs.Lowering.{LoweringKeepsRuns};

pub use pw_law_accept::checked_is_accepted;
use pw_law_accept::lowering_rests_on_programs;
use pw_law_refine_whole::programs_keep_runs;
use pw_law_resolved::source_is_never_wrong;

/// The flow graphs of each accepted program of checked texts do what the program means, with any frames that the library does
/// not need, any stack that may be asked for, and any input; where the program comes to an undefined operation, up to it.
pub fn lowering_keeps_runs()
    ensures { LoweringKeepsRuns }
{
    programs_keep_runs();
    source_is_never_wrong();
    lowering_rests_on_programs();
}
