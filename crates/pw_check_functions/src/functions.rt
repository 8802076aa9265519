//! Function definitions (C90 6.7.1).

ghost use Rattle.std.specs.Prelude.{◌≡◌, IfOk, OnOk};
ghost use Rattle.pw_check_stmt.specs.Views.{view_body};
ghost use Rattle.pw_check_state.specs.Follows.{Leads};
ghost use Rattle.pw_check_state.specs.PhraseViews.{view_bindings};
ghost use Rattle.pw_check_state.specs.StateViews.{view_state};
ghost use Rattle.pw_check_functions.specs.Bodies as part;
ghost use Rattle.pw_check_functions.specs.Views.{outlined};
ghost use Rattle.pw_check_heads.specs.Views.{view_head};
ghost use Rattle.pw_check_rules.specs.Functions as spec;
ghost use Rattle.pw_check_rules.specs.Statements.{labels_in_block};
ghost use Rattle.pw_tree.specs.Views.{view_block, view_function, view_word};
ghost use Rattle.pw_typed.specs.Views as typed;
ghost use Rattle.pw_types.specs.TypedTrees.{Statement};
ghost use Rattle.pw_types.specs.Views.{view_qtype};

use crate::knot::{check_body, phrases};
use pw_check_heads::{
    Head, copy_locals, head_declared, head_meets, head_rule, measured_rule, numbers_below,
    parameter_locals, result_of,
};
use pw_check_labels::labels_in_block;
use pw_check_linkage::symbol_at;
use pw_check_state::{Bindings, State};
use pw_check_types::copy_qtype;
use pw_check_walk::CheckFault;
use pw_items::Boxed;
use pw_tree::{Block, Function, Word};
use pw_typed::{Local, Symbol, TFunction, TStmt};
use pw_types::QType;
use pw_value::words::word_of;
use std::alloc::{AllocError, Global};

/// What the definition of a function makes, but for its body.
#[derive(Drop)]
pub(crate) struct Outline {
    pub(crate) name: Symbol,
    pub(crate) token: usize,
    pub(crate) ty: QType,
    pub(crate) params: u32,
    pub(crate) locals: Vec<Local>,
    pub(crate) labels: u32,
    pub(crate) named: Vec<u32>,
}

impl Outline {
    /// With its body.
    fn with(self, body: Box<TStmt>) -> TFunction
        ensures { typed.view_function result ≡ outlined self (view_body body) }
    {
        TFunction {
            name: self.name,
            token: self.token,
            ty: self.ty,
            params: self.params,
            locals: self.locals,
            labels: self.labels,
            named: self.named,
            body: Box::into_inner(body),
        }
    }
}

/// What the definition of a function makes, but for its body, behind which it is known. What 32 bits cannot count is
/// want of memory.
#[tactic(auto, using(pw_check_state::proofs::PlaceLemmas::length_map))]
fn outline_of(
    alloc: Global,
    state: &State<'_>,
    place: u32,
    head: &Head<'_>,
) -> Result<Outline, AllocError>
    ensures { IfOk result (λ o. (body : Statement) → outlined o body ≡ spec.function_of (view_state state.now) (view_head head.now).word place (view_head head.now).ty (view_head head.now).bindings body) }
{
    let params = word_of(head.bindings.parameters.len())?;
    let named = numbers_below(alloc, state.named())?;
    let locals = copy_locals(alloc, state.locals())?;
    let ty = copy_qtype(alloc, &head.ty)?;
    let name = symbol_at(alloc, state, place)?;
    Ok(Outline {
        name,
        token: head.word.token,
        ty,
        params,
        locals,
        labels: state.labels(),
        named,
    })
}

/// What the definition of a function makes, behind its body, in a box.
fn function_of(
    alloc: Global,
    state: &State<'_>,
    place: u32,
    head: &Head<'_>,
    body: Box<TStmt>,
) -> Result<Boxed<TFunction>, AllocError>
    ensures { IfOk result (λ f. typed.view_function f ≡ spec.function_of (view_state state.now) (view_head head.now).word place (view_head head.now).ty (view_head head.now).bindings (view_body body)) }
{
    let outline = outline_of(alloc, state, place, head)?;
    Boxed::new(alloc, outline.with(body))
}

/// The body of a function is read, in the scope of its parameters.
fn begin_body<'a>(
    alloc: Global,
    state: &mut State<'a>,
    ty: &QType,
    bindings: &Bindings<'a>,
    block: &'a Block,
) -> Result<(), AllocError>
    ensures { OnOk result (view_state state.new ≡ spec.enter_body (view_qtype ty.now) (view_bindings bindings.now) (labels_in_block (view_block block.now)) (view_state state.old)) }
{
    let names = labels_in_block(alloc, block)?;
    let result_type = result_of(alloc, &ty.ty)?;
    let locals = parameter_locals(alloc, &bindings.parameters)?;
    state.enter_body(alloc, result_type, locals, bindings, names)
}

/// Behind a function's body its scope is left, and the function keeps the limits.
fn end_body(state: &mut State<'_>, word: &Word, f: Boxed<TFunction>) -> Result<(), CheckFault>
    ensures { Leads (λ u. u) (part.end_body (view_word word.now) (typed.view_function f)) (view_state state.old) result (view_state state.new) }
{
    state.leave_scope();
    measured_rule(state, word, f.get())?;
    state.add_function(f.into_inner())?;
    Ok(())
}

/// The body of a function, in the scope of its parameters.
fn body_rule<'a>(
    alloc: Global,
    state: &mut State<'a>,
    place: u32,
    head: &Head<'a>,
    block: &'a Block,
) -> Result<(), CheckFault>
    ensures { Leads (λ u. u) (spec.body_rule (view_head head.now).word place (view_head head.now).ty (view_head head.now).bindings (view_block block.now)) (view_state state.old) result (view_state state.new) }
{
    begin_body(alloc, state, &head.ty, &head.bindings, block)?;
    let body = check_body(alloc, state, block)?;
    let f = function_of(alloc, state, place, head, body)?;
    end_body(state, head.word, f)
}

/// What stands behind the head of a definition: what it asks, its declaration, and its body.
fn behind_head<'a>(
    alloc: Global,
    state: &mut State<'a>,
    head: &Head<'a>,
    f: &'a Function,
) -> Result<(), CheckFault>
    ensures { Leads (λ u. u) (part.behind_head (view_head head.now) (view_function f.now)) (view_state state.old) result (view_state state.new) }
{
    head_meets(alloc, state, head, &f.declarations)?;
    let place = head_declared(alloc, state, head)?;
    body_rule(alloc, state, place, head, &f.body)
}

/// A function's definition.
pub fn function_rule<'a>(
    alloc: Global,
    state: &mut State<'a>,
    f: &'a Function,
) -> Result<(), CheckFault>
    ensures { Leads (λ u. u) (spec.function_rule (view_function f.now)) (view_state state.old) result (view_state state.new) }
{
    let head = head_rule(alloc, &phrases(), state, f)?;
    behind_head(alloc, state, &head, f)
}
