//! Each act of the meaning that accesses an object, operates or converts is what its function of the objects
//! answers: functions that do nothing, and whose contracts state it.

ghost use Rattle.std.specs.Prelude.{◌≡◌, ℤ, List};
ghost use Rattle.pw_value.specs.declared.value.Value.{Value};
ghost use Rattle.pw_types.specs.TypeTrees.{CType, RecordValue};
ghost use Rattle.pw_types.specs.Layouts.{layout_of};
ghost use Rattle.pw_types.specs.declared.record.Layout.{Layout};
ghost use Rattle.pw_types.specs.declared.tree.UnaryOperator.{UnaryOperator};
ghost use Rattle.pw_types.specs.declared.tree.BinaryOperator.{BinaryOperator};
ghost use Rattle.pw_cmean.specs.Acts.{State, Site};
ghost use Rattle.pw_cmean.specs.Access as access;
ghost use Rattle.pw_cmean.specs.Operators as operators;
ghost use Rattle.pw_interp_state.specs.Answers.{answered, changed};
ghost use Rattle.pw_interp_state.specs.Categories.{category_of};
ghost use Rattle.pw_interp_state.specs.Elements.{element_layout};
ghost use Rattle.pw_interp_state.specs.Accesses as accesses;
ghost use Rattle.pw_interp_state.specs.Operations as operations;

/// Reading, writing and copying at a node are what `loaded`, `fetched`, `stored`, `copied` and `value_put` answer
/// of the objects, and leave the rest of the state as it is.
pub fn accesses_are_answers()
    ensures load { (site : Site) (ty : CType) (place : Value) (s : State) →
        access.load site ty place s ≡ answered site (accesses.loaded s.objects (category_of ty) place) s }
    ensures fetch { (site : Site) (ty : CType) (place : Value) (s : State) →
        access.fetch site ty place s ≡ answered site (accesses.fetched s.objects (category_of ty) place) s }
    ensures store { (purpose : access.Purpose) (site : Site) (ty : CType) (place v : Value) (s : State) →
        access.store purpose site ty place v s ≡ changed site (accesses.stored purpose s.objects (category_of ty) place v) s }
    ensures copy { (purpose : access.Purpose) (site : Site) (layout : Layout) (target source : Value) (s : State) →
        access.copy purpose site layout target source s ≡ changed site (accesses.copied purpose s.objects layout target source) s }
    ensures put { (purpose : access.Purpose) (site : Site) (records : List RecordValue) (ty : CType) (place v : Value) (s : State) →
        access.put purpose site records ty place v s ≡ changed site (accesses.value_put purpose s.objects (category_of ty) (layout_of records ty) place v) s }
{}

/// The operators, comparisons with 0 and conversions at a node are what their functions answer of the objects, and
/// leave the state as it is.
pub fn operators_are_answers()
    ensures truth { (site : Site) (v : Value) (s : State) →
        operators.truth site v s ≡ answered site (operations.truth_of s.objects v) s }
    ensures unary { (site : Site) (op : UnaryOperator) (ty : CType) (v : Value) (s : State) →
        operators.unary site op ty v s ≡ answered site (operations.unary_by s.objects op (category_of ty) v) s }
    ensures binary { (site : Site) (records : List RecordValue) (op : BinaryOperator) (a b : CType) (v w : Value) (s : State) →
        operators.binary site records op a b v w s ≡ answered site (operations.binary_by s.objects (element_layout records a b) op (category_of a) (category_of b) v w) s }
    ensures advance { (site : Site) (p : Value) (bytes : ℤ) (s : State) →
        operators.advance site p bytes s ≡ answered site (operations.advanced s.objects p bytes) s }
    ensures convert { (site : Site) (ty : CType) (v : Value) (s : State) →
        operators.convert site ty v s ≡ answered site (operations.converted_to (category_of ty) v) s }
{}
