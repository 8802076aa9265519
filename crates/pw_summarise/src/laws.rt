//! The law of summaries.

ghost use Rattle.std.specs.Prelude.{◌≡◌};
ghost use Rattle.pw_flow.specs.declared.flow.FlowModule.{FlowModule};
ghost use Rattle.pw_flow.specs.ValidFlow.{IsValid};
ghost use Rattle.pw_summary.specs.declared.summary.Summary.{Summary};
ghost use Rattle.pw_summarise.specs.Summarises.{Summarises};

/// A lawful flow graph has at most one summary.
pub fn a_module_has_one_summary()
    ensures { (m : FlowModule) (s t : Summary) → IsValid m → Summarises m s → Summarises m t → s ≡ t }
{}
