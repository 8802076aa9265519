//! The law of linking.

ghost use Rattle.std.specs.Prelude.{◌≡◌, List};
ghost use Rattle.pw_value.specs.declared.fault.LinkFault.{LinkFault};
ghost use Rattle.pw_link_rules.specs.declared.interface.Interface.{Interface};
ghost use Rattle.pw_link_rules.specs.Linking.{Links, Refusal};

/// Modules that make a program are not refused, and others are refused for one reason.
pub fn modules_have_one_answer()
    ensures not_both { (modules : List Interface) (fault : LinkFault) → Links modules → ¬ Refusal modules fault }
    ensures one_fault { (modules : List Interface) (fault other : LinkFault) → Refusal modules fault → Refusal modules other → fault ≡ other }
{}
