//! The law of outlines.

ghost use Rattle.pw_flow.specs.declared.flow.FlowFn.{FlowFn};
ghost use Rattle.pw_flow.specs.Outline.{outline_of};
ghost use Rattle.pw_flow.specs.ValidFlow.{IsFunction};
ghost use Rattle.pw_live_fronts.specs.Blocks.{IsOutline};

/// The outline of a lawful flow graph is lawful.
pub fn outlines_are_lawful()
    ensures { (f : FlowFn) → IsFunction f → IsOutline (outline_of f) }
{}
