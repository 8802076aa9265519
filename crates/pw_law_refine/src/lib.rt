//! The law that lowering keeps the meaning of programs, without code: the relation of states, what the code of each
//! part promises, and what joins both to the laws of the layers.
#![tactic(auto)]

ghost use Rattle.pw_flow.specs.declared.flow.FlowFn.{FlowFn};
ghost use Rattle.pw_lower.specs.Expressions.{Home, lower};
ghost use Rattle.pw_lower.specs.Statements.{Frame, lower_statement};
ghost use Rattle.pw_lower.specs.declared.code.Code.{Code};
ghost use Rattle.pw_lower.specs.declared.place.Ways.{Ways};
ghost use Rattle.pw_types.specs.TypedTrees.{Expression, Statement};
ghost use Rattle.pw_law_source.specs.Lowering.{LoweringKeepsRuns, SourceIsNeverWrong};
ghost use Rattle.pw_law_refine.specs.Containing.{ContainsCode};
ghost use Rattle.pw_law_refine.specs.Whole.{ProgramsKeepRuns, CheckedIsLowerable};

use pw_law_lower::later_code_keeps;

/// A graph that contains the code behind an expression or a statement contains the code before it.
pub fn graphs_contain_the_parts()
    ensures expressions { (g : FlowFn) (h : Home) (a : Expression) (c : Code) →
        ContainsCode g (lower h a c).code → ContainsCode g c }
    ensures statements { (g : FlowFn) (f : Frame) (ways : Ways) (a : Statement) (c : Code) →
        ContainsCode g (lower_statement f ways a c) → ContainsCode g c }
{
    later_code_keeps();
}

/// The layer's law follows: where the flow graphs of lowerable programs keep their runs, what is accepted of checked programs
/// is lowerable, and their runs do nothing that no accepted program does, the flow graphs of accepted programs of checked texts
/// keep their runs.
pub fn layers_rest_on_programs()
    ensures { ProgramsKeepRuns → CheckedIsLowerable → SourceIsNeverWrong → LoweringKeepsRuns }
{}
