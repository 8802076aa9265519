//! What holds of all optimised modules.

ghost use Rattle.std.specs.Prelude.{◌≡◌};
ghost use Rattle.pw_flow.specs.declared.flow.FlowModule.{FlowModule};
ghost use Rattle.pw_opt_rules.specs.Optimised.{IsOptimisedModule};

/// A module has one optimised form at most.
pub fn optimised_forms_are_one()
    ensures { (m n o : FlowModule) → IsOptimisedModule m n → IsOptimisedModule m o → n ≡ o }
{}
