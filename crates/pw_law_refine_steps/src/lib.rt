//! Laws of lowering's refinement, without code: steps of both runs, and that the promises of all parts give the law of
//! whole programs.
#![tactic(auto)]

ghost use Rattle.std.specs.Prelude.{◌≡◌, ◌≢◌, ◌+◌, ◌^◌, ◌<◌, ◌≤◌, ◌==◌, ◌&&◌, not, ℕ, Bool, false, Some, Ok, []};
ghost use Rattle.pw_value.specs.declared.value.Value.{Value};
ghost use Rattle.pw_value.specs.declared.value.Value.TheVariants.{Num};
ghost use Rattle.pw_types.specs.TypeTrees.{Int, QType, Void};
ghost use Rattle.pw_types.specs.TypedTrees.{Expression, Node, Number, Comma, Unary, Binary, Cast};
ghost use Rattle.pw_types.specs.declared.tree.UnaryOperator.TheVariants.{Plus, Minus, Complement};
ghost use Rattle.pw_types.specs.declared.tree.BinaryOperator.{BinaryOperator};
ghost use Rattle.pw_types.specs.Conversions.{converted, size_of_kind};
ghost use Rattle.pw_types.specs.declared.kind.IntKind.{IntKind};
ghost use Rattle.pw_cmean.specs.Operators.{arithmetic, is_piece, negation};
ghost use Rattle.pw_cmean.specs.Typed.{IsNumberOf};
ghost use Rattle.pw_lower.specs.Operators.{extension, kind_of_int};
ghost use Rattle.pw_flow.specs.declared.flow.UnKind.TheVariants.{Neg};
ghost use Rattle.pw_law_source.specs.FromRunLanguages.FlowRun.{Machine, On, Step, steps};
ghost use Rattle.pw_law_source.specs.FromRunLanguages.Programs.{Program};
ghost use Rattle.pw_law_source.specs.FromRunLanguages.Values.{unary};
ghost use Rattle.pw_lower.specs.Expressions.{Home, lower};
ghost use Rattle.pw_lower.specs.declared.code.Code.{Code};
ghost use Rattle.pw_law_refine.specs.Activations.{Activation, HaveSlots, home_of};
ghost use Rattle.pw_law_refine.specs.Containing.{Spreads};
ghost use Rattle.pw_lower.specs.Places.{addressed_in};
ghost use Rattle.pw_types.specs.WellTyped.{IsTyped, type_in};
ghost use Rattle.pw_law_refine.specs.Expressions.{ExpressionKeeps};
ghost use Rattle.pw_law_refine.specs.Whole.{AllPartsKeep, ProgramsKeepRuns, StartsMatch};
ghost use Rattle.pw_law_refine_steps.specs.Operations.{extended_by, operated};
ghost use Rattle.pw_law_refine_steps.specs.Results.{HasNewResult};
ghost use Rattle.pw_law_refine_steps.specs.Stretches.{AreNext, StepsObey, PutsStayRelated, FreshOperationsReach, LastsTwice, StandsLater, LocalsComeFirst, AssignsToLocals};

use pw_cmean::laws::values_have_types;
use pw_law_lower::later_code_keeps;
pub use pw_law_refine::graphs_contain_the_parts;

/// The program's law follows from the promises of its parts, where the runs start in states that match.
pub fn programs_rest_on_parts()
    ensures { AllPartsKeep → StartsMatch → ProgramsKeepRuns }
{}

/// Steps of a machine of flow graphs add up, and the events that it counts only rise.
pub fn machines_step_on()
    ensures steps { (p : Program) (a b : ℕ) (s : Step) → steps p (a + b) s ≡ steps p b (steps p a s) }
    ensures events { (p : Program) (k : ℕ) (m n : Machine) → steps p k (On m) ≡ On n → m.events ≤ n.events }
{}

/// What lasts over one stretch of a run and then another lasts over both; and what stands for a value goes on to.
pub fn stretches_last()
    ensures lasts { LastsTwice }
    ensures stands { StandsLater }
{}

/// One operation: a machine behind code is before the next operation, and its step is what that asks for; a value
/// in a temporary that no local has leaves the states related, and is the result of an operation that gives it.
pub fn operations_step()
    ensures next { AreNext }
    ensures step { StepsObey }
    ensures put { PutsStayRelated }
    ensures fresh { FreshOperationsReach }
{}

/// The temporaries of locals come before all others, and a well-typed expression assigns to no local but the function's.
pub fn locals_come_first()
    ensures below { LocalsComeFirst }
    ensures assigned { AssignsToLocals }
{}

/// The code of an expression begins only blocks whose numbers were given out since, each once, and labels keep their blocks.
pub fn expressions_spread()
    ensures blocks { (h : Home) (a : Expression) (c : Code) → Spreads c (lower h a c).code [] }
    ensures labels { (h : Home) (a : Expression) (c : Code) → (lower h a c).code.labels ≡ c.labels }
{}

/// The result of a well-typed expression that is not void stands in a temporary that its code gave out.
pub fn results_are_new()
    ensures { (x : Activation) (a : Expression) (c : Code) → IsTyped x.home.tree x.function.locals a →
        HaveSlots x (addressed_in a) → type_in a ≢ Void → HasNewResult c (lower (home_of x) a c) }
{}

/// Where an operator of C has a result on words, the operation that lowering makes of it has the same.
pub fn operators_agree()
    ensures binary { (o : BinaryOperator) (sign : Bool) (a b n : ℕ) → a < 2 ^ 32 → b < 2 ^ 32 →
        arithmetic o sign a b ≡ Ok n → operated o sign a b ≡ Some (Num n) }
    ensures minus { (sign : Bool) (a n : ℕ) → a < 2 ^ 32 → negation sign a ≡ Ok n → unary Neg (Num a) ≡ Some (Num n) }
{}

/// What C's conversion between integer types makes of a value, the extension that lowering makes of it gives too;
/// where lowering makes none, the value stays.
pub fn conversions_agree()
    ensures { (from to : IntKind) (v : Value) → IsNumberOf from v → (is_piece v && not (size_of_kind to == 1)) ≡ false →
        extended_by (extension (kind_of_int from) (kind_of_int to)) v ≡ Some (converted v to) }
{}

/// Forms of expressions that keep their promise: numbers; a comma between operands that keep theirs; plus, minus
/// and complement of such an operand; casts of one; and binary operators on two of integer types.
pub fn forms_keep()
    ensures numbers { (bound t k : ℕ) (ty : QType) → ExpressionKeeps bound (Node t ty (Number k)) }
    ensures commas { (bound t : ℕ) (ty : QType) (a b : Expression) →
        ExpressionKeeps bound a → ExpressionKeeps bound b → ExpressionKeeps bound (Node t ty (Comma a b)) }
    ensures plus { (bound t : ℕ) (ty : QType) (a : Expression) →
        ExpressionKeeps bound a → ExpressionKeeps bound (Node t ty (Unary Plus a)) }
    ensures minus { (bound t : ℕ) (ty : QType) (a : Expression) →
        ExpressionKeeps bound a → ExpressionKeeps bound (Node t ty (Unary Minus a)) }
    ensures complement { (bound t : ℕ) (ty : QType) (a : Expression) →
        ExpressionKeeps bound a → ExpressionKeeps bound (Node t ty (Unary Complement a)) }
    ensures casts { (bound t : ℕ) (ty : QType) (a : Expression) →
        ExpressionKeeps bound a → ExpressionKeeps bound (Node t ty (Cast a)) }
    ensures binary { (bound t : ℕ) (ty : QType) (o : BinaryOperator) (a b : Expression) (j k : IntKind) →
        type_in a ≡ Int j → type_in b ≡ Int k →
        ExpressionKeeps bound a → ExpressionKeeps bound b → ExpressionKeeps bound (Node t ty (Binary o a b)) }
{
    later_code_keeps();
    graphs_contain_the_parts();
    values_have_types();
}
