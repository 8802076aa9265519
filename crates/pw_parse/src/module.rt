//! Translation units (C90 6.7).

ghost use Rattle.std.specs.Prelude.{◌≡◌, map};
ghost use Rattle.pw_parse_grammar.specs.Input.{declare_all};
ghost use Rattle.pw_parse_grammar.specs.Modules as spec;
ghost use Rattle.pw_parse_cursor.specs.Reads.{Reads, unit};
ghost use Rattle.pw_parse_cursor.specs.CursorViews.{view_binding};
ghost use Rattle.pw_parse_cursor.specs.PartViews.{view_behind, view_declared, view_specifier_list};
ghost use Rattle.pw_parse.specs.Views.{external_first, view_external_list};
ghost use Rattle.pw_tree.specs.Views.{view_external};

use crate::decl::ToDepth;
use crate::stmt::body;
use pw_parse_cursor::{Binding, Stop, Tokens, has_type, has_typedef};
use pw_parse_decl::{declaration_with, declarations};
use pw_parse_grammar::Place;
use pw_parse_knot::{Declared, declare_name, read_declarator, read_specifiers};
use pw_tree::{Decl, External, Function, Mark, Specifier};
use std::alloc::Global;

fn declare_all<'a>(tokens: &mut Tokens<'a>, bindings: &[Binding<'a>]) -> Result<(), Stop>
    ensures { Reads unit (declare_all (map view_binding bindings.now) tokens.old) result tokens.new }
{
    for binding in bindings {
        tokens.declare(binding.0, binding.1)?;
    }
    Ok(())
}

fn declare_behind<'a>(tokens: &mut Tokens<'a>, behind: Option<Vec<Binding<'a>>>) -> Result<(), Stop>
    ensures { Reads unit (declare_all (spec.or_none (view_behind behind.entry)) tokens.old) result tokens.new }
{
    match behind {
        Some(bindings) => declare_all(tokens, &bindings),
        None => Ok(()),
    }
}

/// Behind the first declarator stands what makes a declaration.
#[tactic(auto, unfolding(pw_parse_grammar::specs::Modules::goes_on_as_declaration))]
fn goes_on_as_declaration(tokens: &Tokens<'_>) -> bool
    ensures { result ≡ spec.goes_on_as_declaration tokens.now }
{
    tokens.sees(Mark::Equal) || tokens.sees(Mark::Comma) || tokens.sees(Mark::Semicolon)
}

/// A function from the declarations behind its declarator on (C90 6.7.1). The parameters in the suffix nearest to its name are visible in its body.
#[tactic(auto, unfolding(pw_parse_grammar::specs::Modules::function))]
fn function<'a>(
    alloc: Global,
    tokens: &mut Tokens<'a>,
    limit: usize,
    specifiers: Vec<Specifier>,
    declared: Declared<'a>,
) -> Result<External, Stop>
    ensures { Reads view_external (spec.function limit (view_specifier_list specifiers) (view_declared declared.entry) tokens.old) result tokens.new }
{
    let Declared { tree, name, behind } = declared;
    declare_name(tokens, name, has_typedef(&specifiers))?;
    let outer = tokens.mark();
    declare_behind(tokens, behind)?;
    let declarations = declarations(alloc, &ToDepth(limit), tokens, false)?;
    let body = body(alloc, tokens, limit)?;
    tokens.leave(outer);
    Ok(External::Function(Function {
        specifiers,
        declarator: tree,
        declarations,
        body,
    }))
}

#[tactic(auto, unfolding(pw_parse_grammar::specs::Modules::external_with))]
fn external_with<'a>(
    alloc: Global,
    tokens: &mut Tokens<'a>,
    limit: usize,
    specifiers: Vec<Specifier>,
    declared: Declared<'a>,
) -> Result<External, Stop>
    ensures { Reads view_external (spec.external_with limit (view_specifier_list specifiers) (view_declared declared.entry) tokens.old) result tokens.new }
{
    if !specifiers.is_empty() && goes_on_as_declaration(tokens) {
        let decl = declaration_with(alloc, &ToDepth(limit), tokens, specifiers, declared)?;
        return Ok(External::Declaration(decl));
    }
    function(alloc, tokens, limit, specifiers, declared)
}

/// An external declaration from its first declarator on.
#[tactic(auto, unfolding(pw_parse_grammar::specs::Modules::external_named))]
fn external_named<'a>(
    alloc: Global,
    tokens: &mut Tokens<'a>,
    limit: usize,
    specifiers: Vec<Specifier>,
) -> Result<External, Stop>
    ensures { Reads view_external (spec.external_named limit (view_specifier_list specifiers) tokens.old) result tokens.new }
{
    let typed = has_type(&specifiers);
    let declared = read_declarator(alloc, tokens, limit, Place::Named, typed)?;
    external_with(alloc, tokens, limit, specifiers, declared)
}

/// Reads an external declaration: a function's definition or a declaration (C90 6.7).
#[tactic(auto, unfolding(pw_parse_grammar::specs::Modules::external, pw_parse_grammar::specs::Modules::external_behind))]
fn external<'a>(alloc: Global, tokens: &mut Tokens<'a>, limit: usize) -> Result<External, Stop>
    ensures { Reads external_first (spec.external limit tokens.old) result tokens.new }
{
    let specifiers = read_specifiers(alloc, tokens, limit, true)?;
    if specifiers.is_empty() {
        return external_named(alloc, tokens, limit, specifiers);
    }
    if tokens.eat(Mark::Semicolon) {
        return Ok(External::Declaration(Decl {
            specifiers,
            declarators: Vec::new(alloc),
        }));
    }
    external_named(alloc, tokens, limit, specifiers)
}

/// External declarations, one or more, up to the end of the text.
#[tactic(auto, unfolding(pw_parse_grammar::specs::Modules::externals))]
pub fn externals<'a>(
    alloc: Global,
    tokens: &mut Tokens<'a>,
    limit: usize,
) -> Result<Vec<External>, Stop>
    ensures { Reads view_external_list (spec.externals limit tokens.old) result tokens.new }
{
    let mut found = Vec::new(alloc);
    for _turn in 0..tokens.turns() {
        let external = external(alloc, tokens, limit)?;
        found.push(external)?;
        if tokens.is_at_end() {
            return Ok(found);
        }
    }
    Err(Stop::Fault)
}
