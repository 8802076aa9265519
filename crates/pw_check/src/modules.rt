//! Modules (C90 6.7): external declarations in their order, and what stands at a module's end.

ghost use Rattle.std.specs.Prelude.{◌≡◌, ◌≢◌, ◌⊎◌, ℕ, [], ◌∷◌, Ok, Err, IfOk, IfErr, map};
ghost use Rattle.pw_token.specs.declared.token.Feature.{Feature};
ghost use Rattle.pw_types.specs.TypedTrees.{ModuleValue};
ghost use Rattle.pw_check_walk.specs.declared.constraints.CheckKind.TheVariants.{UnknownName, Redeclared, Typing, Constant, Unsupported, Limit, NoMemory};
ghost use Rattle.pw_check_walk.specs.declared.constraints.Which.{Which};
ghost use Rattle.pw_check.specs.Parts.{met_rule};
ghost use Rattle.pw_check.specs.Refusals.{IsMade, RanOut, TellsExactly, on_constants, on_declarations, on_feature, on_limit, on_names, on_types};
ghost use Rattle.pw_check_state.specs.EntityViews.{view_linked};
ghost use Rattle.pw_check_state.specs.Follows.{Follows, Leads};
ghost use Rattle.pw_check_state.specs.StateViews.{view_state};
ghost use Rattle.pw_check_walk.specs.Found.{found};
ghost use Rattle.pw_check_rules.specs.Checks.{Checks, checking};
ghost use Rattle.pw_check_rules.specs.Modules as spec;
ghost use Rattle.pw_tree.specs.Views.{view_external, view_externals, view_module};
ghost use Rattle.pw_typed.specs.Views as typed;
ghost use Rattle.pw_types.specs.Views.{view_type};

use pw_check_functions::{decl_rule, function_rule, phrases};
use pw_check_limits::completed;
use pw_check_result::{final_type, module_in};
use pw_check_state::{Finding, LinkedName, Spot, State};
use pw_check_walk::{CheckFault, CheckKind};
use pw_tree::{External, Module};
use pw_typed::TModule;
use pw_types::{CType, is_record};
use std::alloc::Global;

/// An external declaration. At file scope no local is initialised.
fn external_rule<'a>(
    alloc: Global,
    state: &mut State<'a>,
    external: &'a External,
) -> Result<(), CheckFault>
    ensures { Leads (λ u. u) (spec.external_rule (view_external external.now)) (view_state state.old) result (view_state state.new) }
{
    match external {
        External::Function(f) => function_rule(alloc, state, f),
        External::Declaration(d) => {
            decl_rule(alloc, &phrases(), state, d)?;
            Ok(())
        }
    }
}

/// The external declarations in their order.
fn externals_rule<'a>(
    alloc: Global,
    state: &mut State<'a>,
    externals: &'a [External],
) -> Result<(), CheckFault>
    ensures { Leads (λ u. u) (spec.externals_rule (view_externals externals.now)) (view_state state.old) result (view_state state.new) }
{
    for external in externals {
        external_rule(alloc, state, external)?;
    }
    Ok(())
}

/// Whether the type of a name is complete by the end of the module: that of an object that is defined tentatively alone
/// (C90 6.7.2), and each structure and union.
fn must_be_complete(linked: &LinkedName<'_>, ty: &CType) -> bool
    ensures { result ≡ spec.must_be_complete (view_linked linked.now) (view_type ty.now) }
{
    (linked.tentative && !linked.defined) || is_record(ty)
}

/// What is asked at the end of the module of a name with linkage: that its type is complete, where it must be.
fn end_cause(state: &State<'_>, linked: &LinkedName<'_>) -> Finding
    ensures { result.least ≡ found (spec.end_cause (view_state state.now) (view_linked linked.now) ∷ []) }
{
    let ty = final_type(state, linked);
    if !must_be_complete(linked, &ty.ty) {
        return Finding::none();
    }
    let spot = Spot {
        token: linked.token,
        specifier: linked.token,
        tag: linked.tag,
    };
    completed(state.records(), &spot, CheckKind::Typing, &ty.ty)
}

/// What is asked at the end of the module of each name with linkage, in the order of first declarations.
fn end_rule(state: &State<'_>, linked: &[LinkedName<'_>]) -> Result<(), CheckFault>
    ensures follows { Follows (λ u. u) (spec.end_rule (map view_linked linked.now)) (view_state state.now) result }
    ensures no_memory { IfErr result (λ fault. fault.kind ≢ NoMemory) }
{
    for next in linked {
        end_cause(state, next).end()?;
    }
    Ok(())
}

/// The constraints of a module: those of its external declarations, and those at its end.
fn met_rule<'a>(alloc: Global, state: &mut State<'a>, tree: &'a Module) -> Result<(), CheckFault>
    ensures { Leads (λ u. u) (met_rule (view_module tree.now)) (view_state state.old) result (view_state state.new) }
{
    externals_rule(alloc, state, &tree.externals)?;
    end_rule(state, state.linked())
}

/// What a module is, whose constraints are met; or want of memory.
fn made_of(alloc: Global, state: State<'_>) -> Result<TModule, CheckFault>
    ensures made { IfOk result (λ made. typed.view_module made ≡ spec.module_in (view_state state.entry)) }
    ensures memory { IfErr result (λ fault. fault.kind ≡ NoMemory) }
{
    Ok(module_in(alloc, state)?)
}

/// The fault that was told; what is known of the module is let go.
fn let_go(state: State<'_>, fault: CheckFault) -> Result<TModule, CheckFault>
    ensures { result ≡ Err fault }
{
    let _state = state;
    Err(fault)
}

/// What a module is, where its constraints are met; and else the fault that was told.
fn behind(
    alloc: Global,
    met: Result<(), CheckFault>,
    state: State<'_>,
) -> Result<TModule, CheckFault>
    ensures made { IfOk met (λ _. IfOk result (λ made. typed.view_module made ≡ spec.module_in (view_state state.entry))) }
    ensures memory { IfOk met (λ _. IfErr result (λ fault. fault.kind ≡ NoMemory)) }
    ensures told { IfErr met (λ fault. result ≡ Err fault) }
{
    match met {
        Ok(()) => made_of(alloc, state),
        Err(fault) => let_go(state, fault),
    }
}

/// The answer of the rules, or want of memory.
fn answer_of(alloc: Global, tree: &Module) -> Result<TModule, CheckFault>
    ensures typed { IfOk result (λ made. Checks (view_module tree.now) (Ok (typed.view_module made))) }
    ensures refused { IfErr result (λ fault. fault.kind ≢ NoMemory → Checks (view_module tree.now) (Err fault)) }
{
    let mut state = State::new(alloc);
    let met = met_rule(alloc, &mut state, tree);
    behind(alloc, met, state)
}

/// Checks a module: the answer is its typed tree where every constraint is met, or the fault of least rank at the first
/// point where one is not; or that memory ran out.
///
/// # Errors
///
/// Each kind of fault comes exactly where the module is refused for a constraint of this kind, and names the token at
/// which that constraint stands.
pub fn check(alloc: Global, tree: &Module) -> Result<TModule, CheckFault>
    // The answer is that of the rules.
    ensures typed { IfOk result (λ made. Checks (view_module tree.now) (Ok (typed.view_module made))) }
    ensures refused { IfErr result (λ fault. fault.kind ≢ NoMemory → Checks (view_module tree.now) (Err fault)) }

    // A module that the rules accept is refused for want of memory alone.
    ensures accepted { (made : ModuleValue) → Checks (view_module tree.now) (Ok made) → RanOut result ⊎ IsMade typed.view_module made result }

    // When each kind of fault comes.
    ensures unknown_name { TellsExactly (checking (view_module tree.now)) UnknownName on_names result }
    ensures redeclared { TellsExactly (checking (view_module tree.now)) Redeclared on_declarations result }
    ensures typing { TellsExactly (checking (view_module tree.now)) Typing on_types result }
    ensures constant { TellsExactly (checking (view_module tree.now)) Constant on_constants result }
    ensures unsupported { (feature : Feature) → TellsExactly (checking (view_module tree.now)) (Unsupported feature) (on_feature feature) result }
    ensures limit { (limit : Which) (count : ℕ) → TellsExactly (checking (view_module tree.now)) (Limit limit count) (on_limit limit count) result }
{
    answer_of(alloc, tree)
}
