//! Type names (C90 6.5.5), and the operators that take them.

ghost use Rattle.pw_check_rules.specs.Phrases as spec;
ghost use Rattle.pw_check_state.specs.Follows.{Leads};
ghost use Rattle.pw_check_state.specs.StateViews.{view_state};
ghost use Rattle.pw_check_state.specs.Views.{view_operand};
ghost use Rattle.pw_check_primary.specs.Named.{named_rule, sized_rule, view_named};
ghost use Rattle.pw_tree.specs.Trees as tree;
ghost use Rattle.pw_tree.specs.Views.{view_declarator, view_expr, view_specifiers};

use pw_check_leaves::named_type;
use pw_check_operators::{cast_rule, type_size_rule};
use pw_check_state::{Operand, Phrases, Spot, State, first_of_declaration, whole_rule};
use pw_check_walk::CheckFault;
use pw_tree::{Expr, Specifier, TypeName};
use pw_types::QType;
use std::alloc::Global;

/// The type that a type name names, and where the faults of that type stand.
#[derive(Drop)]
pub struct NamedType {
    pub spot: Spot,
    pub ty: QType,
}

/// A type name (C90 6.5.5).
fn type_name<'a, P: Phrases<'a>>(
    alloc: Global,
    phrases: &P,
    state: &mut State<'a>,
    named: &'a TypeName,
) -> Result<NamedType, CheckFault>
    requires { P.can_check phrases.now }
    ensures { Leads view_named (named_rule (view_specifiers named.now.specifiers.items) (view_declarator named.now.declarator)) (view_state state.old) result (view_state state.new) }
{
    let list: &'a [Specifier] = &named.specifiers;
    let first = first_of_declaration(list, &named.declarator);
    let specified = phrases.specifiers(alloc, state, list, first)?;
    let declared = phrases.declarator(alloc, state, &named.declarator)?;
    let ty = named_type(alloc, state, &specified, declared)?;
    let spot = Spot {
        token: specified.first,
        specifier: specified.first,
        tag: specified.tag,
    };
    Ok(NamedType { spot, ty })
}

/// The size of a type (C90 6.3.3.4).
fn type_size<'a, P: Phrases<'a>>(
    alloc: Global,
    phrases: &P,
    state: &mut State<'a>,
    token: usize,
    named: &'a TypeName,
) -> Result<Operand, CheckFault>
    requires { P.can_check phrases.now }
    ensures { Leads view_operand (sized_rule token (view_specifiers named.now.specifiers.items) (view_declarator named.now.declarator)) (view_state state.old) result (view_state state.new) }
{
    let named = type_name(alloc, phrases, state, named)?;
    let spot = named.spot;
    type_size_rule(alloc, state, token, &spot, named.ty)
}

/// `sizeof` with a type name. What the name declares stays declared, but a string in it is no object.
pub fn size_of_type<'a, P: Phrases<'a>>(
    alloc: Global,
    phrases: &P,
    state: &mut State<'a>,
    token: usize,
    named: &'a TypeName,
) -> Result<Operand, CheckFault>
    requires { P.can_check phrases.now }
    ensures { Leads view_operand (spec.expr_rule (tree.SizeofType token (view_specifiers named.now.specifiers.items) (view_declarator named.now.declarator))) (view_state state.old) result (view_state state.new) }
{
    let before = state.is_counting();
    state.set_counting(false);
    let size = type_size(alloc, phrases, state, token, named)?;
    state.set_counting(before);
    Ok(size)
}

/// A cast (C90 6.3.4).
pub fn cast<'a, P: Phrases<'a>>(
    alloc: Global,
    phrases: &P,
    state: &mut State<'a>,
    token: usize,
    named: &'a TypeName,
    operand: &'a Expr,
) -> Result<Operand, CheckFault>
    requires { P.can_check phrases.now }
    ensures { Leads view_operand (spec.expr_rule (tree.Cast token (view_specifiers named.now.specifiers.items) (view_declarator named.now.declarator) (view_expr operand.now))) (view_state state.old) result (view_state state.new) }
{
    let named = type_name(alloc, phrases, state, named)?;
    let value = whole_rule(alloc, phrases, state, operand)?;
    cast_rule(alloc, state, token, named.ty, value)
}
