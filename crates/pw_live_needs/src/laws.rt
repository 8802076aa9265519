//! The law of needs.

ghost use Rattle.std.specs.Prelude.{◌≤◌};
ghost use Rattle.pw_flow.specs.Outline.{Outline};
ghost use Rattle.pw_summary.specs.Summary.{need_limit};
ghost use Rattle.pw_live_needs.specs.Needs.{need};

/// No function needs more registers than are saved for others at most.
pub fn needs_are_few()
    ensures { (f : Outline) → need f ≤ need_limit }
{}
