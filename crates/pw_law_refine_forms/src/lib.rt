//! Laws of lowering's refinement, without code: the promises of expressions that read and write memory, compare and
//! branch.
#![tactic(auto)]

ghost use Rattle.std.specs.Prelude.{◌≡◌, ℕ, List};
ghost use Rattle.pw_types.specs.TypeTrees.{CType, Int, Pointer, QType, Record, type_of};
ghost use Rattle.pw_types.specs.declared.kind.IntKind.{IntKind};
ghost use Rattle.pw_types.specs.declared.tree.StepOperator.{StepOperator};
ghost use Rattle.pw_types.specs.TypedTrees.{Symbol, Expression, Expressions, Node, Str, Local, Global, Deref, Unary, Binary, Logic, Cond, Comma, Assign, Compound, Step, Decay, Address, Value, Bytes};
ghost use Rattle.pw_types.specs.WellTyped.{IsScalar, type_in};
ghost use Rattle.pw_types.specs.declared.tree.BinaryOperator.{BinaryOperator};
ghost use Rattle.pw_types.specs.declared.tree.BinaryOperator.TheVariants.{Add, Subtract};
ghost use Rattle.pw_types.specs.declared.tree.LogicOperator.TheVariants.{And, Or};
ghost use Rattle.pw_types.specs.declared.tree.UnaryOperator.TheVariants.{Not};
ghost use Rattle.pw_law_refine.specs.Expressions.{ExpressionKeeps, ExpressionsKeep, LvaluesKeep, AddressesKeep, ConditionsKeep};
ghost use Rattle.pw_law_refine.specs.StatementParts.{InitialiserKeeps};
ghost use Rattle.pw_law_refine_forms.specs.Accesses.{AddressKeeps, AdvancesKeep, IsAdditive, IsComparison, LvalueKeeps, ReadsKeep, TargetsSuit, WritesKeep, WritesThroughKeep, WritesStay};
ghost use Rattle.pw_law_refine_forms.specs.Operands.{Applies};
ghost use Rattle.pw_law_refine_forms.specs.Calling.{EachKeeps, ArgumentListKeeps, FunctionFormsKeep};

use pw_cmean::laws::values_have_types;
use pw_law_lower::{functions_stay_in_range, later_code_keeps};
use pw_law_refine::graphs_contain_the_parts;
use pw_law_refine_steps::{
    conversions_agree, forms_keep, locals_come_first, machines_step_on, operations_step,
    operators_agree, results_are_new, stretches_last,
};
use pw_value::laws::{decoding_gives_back, pointers_give_back, ranges_of_bytes};

/// Memory: what the meaning of C reads where the place of a scalar lvalue is, the code that reads there gives; and
/// what it writes there, the code writes; through an address from any temporary, and for a local whose temporary has the
/// value already, nothing is done.
pub fn accesses_keep()
    ensures reads { ReadsKeep }
    ensures writes { WritesKeep }
    ensures through { WritesThroughKeep }
    ensures kept { WritesStay }
{
    machines_step_on();
    operations_step();
    stretches_last();
    locals_come_first();
    results_are_new();
    later_code_keeps();
    graphs_contain_the_parts();
    values_have_types();
    decoding_gives_back();
    pointers_give_back();
    ranges_of_bytes();
}

/// Lvalues that keep their promise: locals, globals, and what a pointer leads to. As values of expressions, scalars among
/// the globals, they keep theirs;
/// and so does the assignment of a scalar to one of them.
pub fn lvalues_keep()
    ensures local_places { (bound t : ℕ) (ty : QType) (k : ℕ) → LvalueKeeps bound (Node t ty (Local k)) }
    ensures local_targets { (t : ℕ) (ty : QType) (k : ℕ) → TargetsSuit (Node t ty (Local k)) }
    ensures locals { (bound t : ℕ) (ty : QType) (k : ℕ) → ExpressionKeeps bound (Node t ty (Local k)) }
    ensures deref_places { (bound t : ℕ) (ty : QType) (a : Expression) →
        ExpressionKeeps bound a → LvalueKeeps bound (Node t ty (Deref a)) }
    ensures deref_targets { (t : ℕ) (ty : QType) (a : Expression) → TargetsSuit (Node t ty (Deref a)) }
    ensures derefs { (bound t : ℕ) (ty : QType) (a : Expression) →
        ExpressionKeeps bound a → ExpressionKeeps bound (Node t ty (Deref a)) }
    ensures global_places { (bound t : ℕ) (ty : QType) (symbol : Symbol) → LvalueKeeps bound (Node t ty (Global symbol)) }
    ensures global_targets { (t : ℕ) (ty : QType) (symbol : Symbol) → TargetsSuit (Node t ty (Global symbol)) }
    ensures globals { (bound t : ℕ) (ty : QType) (symbol : Symbol) → IsScalar (type_of ty) →
        ExpressionKeeps bound (Node t ty (Global symbol)) }
    ensures assignments { (bound t : ℕ) (ty : QType) (a b : Expression) → IsScalar (type_in a) → TargetsSuit a →
        LvalueKeeps bound a → ExpressionKeeps bound b → ExpressionKeeps bound (Node t ty (Assign a b)) }
{
    machines_step_on();
    operations_step();
    stretches_last();
    locals_come_first();
    results_are_new();
    later_code_keeps();
    graphs_contain_the_parts();
    values_have_types();
    decoding_gives_back();
    pointers_give_back();
    ranges_of_bytes();
}

/// Forms that test or choose and keep their promise, where their operands do: `!`, `&&`, `||`, `?:`, the comparisons
/// of pointers; and conditions.
pub fn tests_keep()
    ensures negations { (bound t : ℕ) (ty : QType) (a : Expression) →
        ExpressionKeeps bound a → ExpressionKeeps bound (Node t ty (Unary Not a)) }
    ensures conjunctions { (bound t : ℕ) (ty : QType) (a b : Expression) →
        ExpressionKeeps bound a → ExpressionKeeps bound b → ExpressionKeeps bound (Node t ty (Logic And a b)) }
    ensures disjunctions { (bound t : ℕ) (ty : QType) (a b : Expression) →
        ExpressionKeeps bound a → ExpressionKeeps bound b → ExpressionKeeps bound (Node t ty (Logic Or a b)) }
    ensures conditionals { (bound t : ℕ) (ty : QType) (a b e : Expression) → ExpressionKeeps bound a →
        ExpressionKeeps bound b → ExpressionKeeps bound e → ExpressionKeeps bound (Node t ty (Cond a b e)) }
    ensures comparisons { (bound t : ℕ) (ty : QType) (o : BinaryOperator) (a b : Expression) (left right : QType) →
        IsComparison o → type_in a ≡ Pointer left → type_in b ≡ Pointer right →
        ExpressionKeeps bound a → ExpressionKeeps bound b → ExpressionKeeps bound (Node t ty (Binary o a b)) }
    ensures conditions { (bound : ℕ) → ExpressionsKeep bound → ConditionsKeep bound }
{
    functions_stay_in_range();
    machines_step_on();
    operations_step();
    stretches_last();
    locals_come_first();
    results_are_new();
    later_code_keeps();
    graphs_contain_the_parts();
    values_have_types();
    decoding_gives_back();
    pointers_give_back();
    ranges_of_bytes();
}

/// Places of arrays, structures and unions that keep their promise: locals, globals, strings, what a pointer leads to,
/// behind a comma, and of one of two operands. So do the operators that take a place for a value: decay, and `&` of a
/// local, a global, a string, or of what a pointer leads to. And the arguments of a call do, where each of them does.
pub fn addresses_keep()
    ensures locals { (bound t : ℕ) (ty : QType) (k : ℕ) → AddressKeeps bound (Node t ty (Local k)) }
    ensures derefs { (bound t : ℕ) (ty : QType) (a : Expression) →
        ExpressionKeeps bound a → AddressKeeps bound (Node t ty (Deref a)) }
    ensures commas { (bound t : ℕ) (ty : QType) (a b : Expression) →
        ExpressionKeeps bound a → AddressKeeps bound b → AddressKeeps bound (Node t ty (Comma a b)) }
    ensures conditionals { (bound t : ℕ) (ty : QType) (a b e : Expression) → ExpressionKeeps bound a →
        AddressKeeps bound b → AddressKeeps bound e → AddressKeeps bound (Node t ty (Cond a b e)) }
    ensures decays { (bound t : ℕ) (ty : QType) (a : Expression) →
        AddressKeeps bound a → ExpressionKeeps bound (Node t ty (Decay a)) }
    ensures strings { (bound t : ℕ) (ty : QType) (k : ℕ) → AddressKeeps bound (Node t ty (Str k)) }
    ensures globals { (bound t : ℕ) (ty : QType) (symbol : Symbol) → AddressKeeps bound (Node t ty (Global symbol)) }
    ensures of_globals { (bound t u : ℕ) (ty own : QType) (symbol : Symbol) →
        ExpressionKeeps bound (Node t ty (Address (Node u own (Global symbol)))) }
    ensures of_strings { (bound t u : ℕ) (ty own : QType) (k : ℕ) →
        ExpressionKeeps bound (Node t ty (Address (Node u own (Str k)))) }
    ensures of_locals { (bound t u : ℕ) (ty own : QType) (k : ℕ) →
        ExpressionKeeps bound (Node t ty (Address (Node u own (Local k)))) }
    ensures of_derefs { (bound t u : ℕ) (ty own : QType) (a : Expression) →
        ExpressionKeeps bound a → ExpressionKeeps bound (Node t ty (Address (Node u own (Deref a)))) }
    ensures arguments { (bound : ℕ) (args : Expressions) → EachKeeps bound args → ArgumentListKeeps bound args }
{
    machines_step_on();
    operations_step();
    stretches_last();
    locals_come_first();
    results_are_new();
    later_code_keeps();
    graphs_contain_the_parts();
    values_have_types();
    decoding_gives_back();
    pointers_give_back();
    ranges_of_bytes();
}

/// Compound assignments, `++` and `--` keep their promise on integers and on pointers, where the place and the right
/// operand do; and so do assignments of structures and unions, as values and as places.
pub fn updates_keep()
    ensures compounds { (bound t : ℕ) (ty : QType) (o : BinaryOperator) (working : CType) (a b : Expression) (own work right : IntKind) →
        type_in a ≡ Int own → working ≡ Int work → type_in b ≡ Int right → TargetsSuit a → LvalueKeeps bound a →
        ExpressionKeeps bound b → ExpressionKeeps bound (Node t ty (Compound o working a b)) }
    ensures steps { (bound t : ℕ) (ty : QType) (o : StepOperator) (a : Expression) (own : IntKind) →
        type_in a ≡ Int own → TargetsSuit a → LvalueKeeps bound a → ExpressionKeeps bound (Node t ty (Step o a)) }
    ensures pointer_compounds { (bound t : ℕ) (ty : QType) (o : BinaryOperator) (working : CType) (a b : Expression) (own : QType) (kind : IntKind) →
        IsAdditive o → type_in a ≡ Pointer own → working ≡ Pointer own → type_in b ≡ Int kind → TargetsSuit a → LvalueKeeps bound a →
        ExpressionKeeps bound b → ExpressionKeeps bound (Node t ty (Compound o working a b)) }
    ensures pointer_steps { (bound t : ℕ) (ty : QType) (o : StepOperator) (a : Expression) (own : QType) →
        type_in a ≡ Pointer own → TargetsSuit a → LvalueKeeps bound a → ExpressionKeeps bound (Node t ty (Step o a)) }
    ensures records { (bound t : ℕ) (ty : QType) (a b : Expression) (number : ℕ) → type_in a ≡ Record number →
        AddressKeeps bound a → ExpressionKeeps bound b → ExpressionKeeps bound (Node t ty (Assign a b)) }
    ensures record_places { (bound t : ℕ) (ty : QType) (a b : Expression) (number : ℕ) → type_in a ≡ Record number →
        AddressKeeps bound a → ExpressionKeeps bound b → AddressKeeps bound (Node t ty (Assign a b)) }
{
    operators_agree();
    conversions_agree();
    machines_step_on();
    operations_step();
    stretches_last();
    locals_come_first();
    results_are_new();
    later_code_keeps();
    graphs_contain_the_parts();
    values_have_types();
    decoding_gives_back();
    pointers_give_back();
    ranges_of_bytes();
}

/// Initialisers of locals keep their promise: by a value, where the expression does; and by the bytes of a hidden object.
pub fn initialisers_keep()
    ensures values { (bound k : ℕ) (a : Expression) → ExpressionKeeps bound a → InitialiserKeeps bound (Value k a) }
    ensures bytes { (bound k hidden : ℕ) (parts : List Expression) → InitialiserKeeps bound (Bytes k hidden parts) }
{
    machines_step_on();
    operations_step();
    stretches_last();
    locals_come_first();
    results_are_new();
    later_code_keeps();
    graphs_contain_the_parts();
    values_have_types();
    decoding_gives_back();
    pointers_give_back();
    ranges_of_bytes();
}

/// Pointers that move: by a number of bytes, as to a member; and by a number of elements, forwards and backwards. And how
/// many elements lie between two pointers.
pub fn pointers_move()
    ensures advances { AdvancesKeep }
    ensures forwards { (bound : ℕ) (left : QType) (kind : IntKind) → Applies bound Add (Pointer left) (Int kind) }
    ensures turned { (bound : ℕ) (right : QType) (kind : IntKind) → Applies bound Add (Int kind) (Pointer right) }
    ensures backwards { (bound : ℕ) (left : QType) (kind : IntKind) → Applies bound Subtract (Pointer left) (Int kind) }
    ensures distances { (bound : ℕ) (left right : QType) → Applies bound Subtract (Pointer left) (Pointer right) }
{
    machines_step_on();
    operations_step();
    stretches_last();
    locals_come_first();
    results_are_new();
    later_code_keeps();
    graphs_contain_the_parts();
    values_have_types();
    decoding_gives_back();
    pointers_give_back();
    ranges_of_bytes();
}

/// All expressions keep their promise where those do that name functions or call them: as values, as places of scalars,
/// and as places of arrays, functions, structures and unions.
pub fn expressions_rest_on_functions()
    ensures values { (bound : ℕ) → FunctionFormsKeep bound → ExpressionsKeep bound }
    ensures places { (bound : ℕ) → FunctionFormsKeep bound → LvaluesKeep bound }
    ensures addresses { (bound : ℕ) → FunctionFormsKeep bound → AddressesKeep bound }
{
    forms_keep();
    operators_agree();
    conversions_agree();
    machines_step_on();
    operations_step();
    stretches_last();
    locals_come_first();
    results_are_new();
    later_code_keeps();
    graphs_contain_the_parts();
    values_have_types();
    decoding_gives_back();
    pointers_give_back();
    ranges_of_bytes();
}
