//! Laws of the rules.

ghost use Rattle.std.specs.Prelude.{◌≡◌, ◌↔◌, ℕ, true, List, Result, Ok, Err};
ghost use Rattle.pw_check_rules.specs.Compatible.{compatible};
ghost use Rattle.pw_check_rules.specs.Judgements.{Assignable, Compatible, InternalLinkage, ModifiableLvalue, NullPointerConstant};
ghost use Rattle.pw_check_rules.specs.Checks.{Checks, checked};
ghost use Rattle.pw_check_rules.specs.Samples.{main_returning, seven, unknown, main_of_seven};
ghost use Rattle.pw_tree.specs.Trees.{Module};
ghost use Rattle.pw_check_rules.specs.Constants.{is_null_constant};
ghost use Rattle.pw_check_rules.specs.Operators.{is_assignable, is_modifiable};
ghost use Rattle.pw_check_rules.specs.Operands.{Operand};
ghost use Rattle.pw_check_rules.specs.Linkage.{Asking, is_internal_by};
ghost use Rattle.pw_check_rules.specs.States.{State};
ghost use Rattle.pw_types.specs.TypeTrees.{CType, QType, RecordValue};
ghost use Rattle.pw_types.specs.TypedTrees.{Expression, ModuleValue};
ghost use Rattle.pw_check_walk.specs.declared.constraints.CheckFault.{CheckFault};
ghost use Rattle.pw_check_walk.specs.declared.constraints.CheckKind.TheVariants.{UnknownName};

/// What checking answers for a module is what the plain definition computes, and nothing else.
pub fn checks_is_exact()
    ensures { (m : Module) (answer : Result ModuleValue CheckFault) → Checks m answer ↔ answer ≡ checked m }
{}

/// `int main(void){return 7;}` is typed as it should be, and `x` in place of `7` is unknown.
pub fn samples()
    ensures typed { checked (main_returning seven) ≡ Ok main_of_seven }
    ensures told { checked (main_returning unknown) ≡ Err (record { kind = UnknownName; token = 8 }) }
{}

/// Compatible types are those that the standard lists.
pub fn compatible_is_tested()
    ensures { (a b : QType) → compatible a b ≡ true ↔ Compatible a b }
{}

/// Null pointer constants are those that the standard lists.
pub fn null_constant_is_tested()
    ensures { (e : Expression) → is_null_constant e ≡ true ↔ NullPointerConstant e }
{}

/// What may be assigned is what the standard lists.
pub fn assignable_is_tested()
    ensures { (to : CType) (e : Expression) → is_assignable to e ≡ true ↔ Assignable to e }
{}

/// Modifiable lvalues are those that the standard lists.
pub fn modifiable_is_tested()
    ensures { (records : List RecordValue) (a : Operand) → is_modifiable records a ≡ true ↔ ModifiableLvalue records a }
{}

/// A declaration gives internal linkage where the standard says so.
pub fn linkage_is_tested()
    ensures { (s : State) (name : List ℕ) (asking : Asking) → is_internal_by s name asking ≡ true ↔ InternalLinkage s name asking }
{}
