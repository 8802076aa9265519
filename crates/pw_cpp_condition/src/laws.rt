//! Laws of expressions.

ghost use Rattle.std.specs.Prelude.{◌≡◌, List};
ghost use Rattle.pw_cpp_condition.specs.Grammar.{Means};
ghost use Rattle.pw_cpp_condition.specs.declared.word.Item.{Item};
ghost use Rattle.pw_cpp_values.specs.declared.arithmetic.Number.{Number};

/// Items mean one number at most.
pub fn one_meaning()
    ensures { (items : List Item) (one other : Number) → Means items one → Means items other → one ≡ other }
{}
