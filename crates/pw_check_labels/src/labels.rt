//! Labels (C90 6.6.1).

ghost use Rattle.std.specs.Prelude.{◌≡◌, ◌≢◌, Err, IfErr};
ghost use Rattle.pw_check_rules.specs.Constants.{convert_word};
ghost use Rattle.pw_check_rules.specs.Statements as spec;
ghost use Rattle.pw_check_labels.specs.Views.{view_numbers};
ghost use Rattle.pw_check_state.specs.Follows.{Follows, Leads};
ghost use Rattle.pw_check_state.specs.StateViews.{view_state};
ghost use Rattle.pw_tree.specs.Views.{view_label, view_labels, view_word};
ghost use Rattle.pw_typed.specs.Views.{view_expr};
ghost use Rattle.pw_check_walk.specs.Walks.{outcome};

use crate::parts::BodyParts;
use pw_check_constants::constant_value;
use pw_check_constants::words::convert_word;
use pw_check_limits::name_within;
use pw_check_state::{Finding, State, fault, typing};
use pw_check_walk::{CheckFault, CheckKind};
use pw_tree::{Label, Word};
use pw_typed::{Case, TExpr};
use pw_types::IntKind;
use std::alloc::Global;

/// A case has a constant of its own, in the type of the switch (C90 6.6.4.2). The answer is the label's number.
#[tactic(auto, unfolding(pw_check_walk::specs::Walks::bind, pw_check_walk::specs::Walks::outcome, pw_check_rules::specs::Statements::case_rule, pw_check_rules::specs::Statements::new_label))]
fn case_rule(
    alloc: Global,
    state: &mut State<'_>,
    first: usize,
    e: &TExpr,
) -> Result<u32, CheckFault>
    ensures { Leads (λ n. n) (spec.case_rule first (view_expr e.now)) (view_state state.old) result (view_state state.new) }
{
    let Some(word) = constant_value(alloc, e)? else {
        return Err(fault(CheckKind::Constant, first));
    };
    let value = case_value(state, word);
    if is_case(state, value) {
        return Err(fault(CheckKind::Constant, first));
    }
    let label = state.next_label()?;
    state.add_case(Case { value, label })?;
    Ok(label)
}

/// A constant in the type of the innermost switch; without one in int.
fn case_value(state: &State<'_>, word: u32) -> u32
    ensures { result ≡ convert_word (spec.switch_kind (spec.innermost_switch (view_state state.now))) word }
{
    match state.innermost_switch() {
        Some(switch) => convert_word(switch.kind, word),
        None => convert_word(IntKind::Int, word),
    }
}

/// Whether the innermost switch has a case of this value.
fn is_case(state: &State<'_>, value: u32) -> bool
    ensures { result ≡ spec.has_case (spec.innermost_switch (view_state state.now)) value }
{
    match state.innermost_switch() {
        Some(switch) => switch.cases.contains(value),
        None => false,
    }
}

/// A case or a default stands within a switch (C90 6.6.1).
#[tactic(auto, unfolding(pw_check_walk::specs::Walks::bind, pw_check_walk::specs::Walks::outcome, pw_check_rules::specs::Statements::inside_switch))]
fn inside_switch(state: &State<'_>, token: usize) -> Result<(), CheckFault>
    ensures follows { Follows (λ u. u) (spec.inside_switch token) (view_state state.now) result }
    ensures no_memory { IfErr result (λ fault. fault.kind ≢ CheckKind.NoMemory) }
{
    match state.innermost_switch() {
        Some(_) => Ok(()),
        None => Err(typing(token)),
    }
}

/// A switch has one default at most (C90 6.6.4.2). The answer is the label's number.
#[tactic(auto, unfolding(pw_check_walk::specs::Walks::bind, pw_check_walk::specs::Walks::outcome, pw_check_rules::specs::Statements::default_rule, pw_check_rules::specs::Statements::new_label))]
fn default_rule(state: &mut State<'_>, token: usize) -> Result<u32, CheckFault>
    ensures leads { Leads (λ n. n) (spec.default_rule token) (view_state state.old) result (view_state state.new) }
    ensures told { IfErr (outcome (spec.default_rule token (view_state state.old))) (λ fault. result ≡ Err fault) }
{
    match state.innermost_switch() {
        Some(switch) if switch.default.is_none() => {}
        _ => return Err(typing(token)),
    }
    let label = state.next_label()?;
    state.set_default(label);
    Ok(label)
}

/// A name labels one statement of a function (C90 6.6.1). The answer is its place among the names.
#[tactic(auto, unfolding(pw_check_walk::specs::Walks::bind, pw_check_walk::specs::Walks::outcome, pw_check_rules::specs::Statements::name_label_rule), using(pw_check_walk::proofs::FindingLaws::point_ok, pw_check_walk::proofs::FindingLaws::point_err))]
fn name_label_rule<'a>(state: &mut State<'a>, word: &'a Word) -> Result<u32, CheckFault>
    ensures { Leads (λ n. n) (spec.name_label_rule (view_word word.now)) (view_state state.old) result (view_state state.new) }
{
    let once = !state.is_met(&word.text);
    let finding = Finding::none().needs(CheckKind::Redeclared, word.token, once);
    name_within(finding, word.token, &word.text).end()?;
    state.note_label(&word.text)?;
    Ok(state.place_of_label(&word.text).unwrap_or(0))
}

/// A label. The answer is its number.
fn label_rule<'a, P: BodyParts<'a>>(
    alloc: Global,
    parts: &P,
    state: &mut State<'a>,
    label: &'a Label,
) -> Result<u32, CheckFault>
    requires { P.can_check parts.now }
    ensures { Leads (λ n. n) (spec.label_rule (view_label label.now)) (view_state state.old) result (view_state state.new) }
{
    match label {
        Label::Case { token, value } => {
            inside_switch(state, *token)?;
            let e = parts.whole(alloc, state, value)?;
            case_rule(alloc, state, value.first_token(), &e)
        }
        Label::Default { token } => default_rule(state, *token),
        Label::Name(word) => name_label_rule(state, word),
    }
}

/// The labels before a statement, with their numbers.
pub fn labels_rule<'a, P: BodyParts<'a>>(
    alloc: Global,
    parts: &P,
    state: &mut State<'a>,
    labels: &'a [Label],
) -> Result<Vec<u32>, CheckFault>
    requires { P.can_check parts.now }
    ensures { Leads view_numbers (spec.labels_rule (view_labels labels.now)) (view_state state.old) result (view_state state.new) }
{
    let mut numbers = Vec::new(alloc);
    for label in labels {
        let number = label_rule(alloc, parts, state, label)?;
        numbers.push(number)?;
    }
    Ok(numbers)
}
