//! Initializers and declarations (C90 6.5, 6.5.7).

ghost use Rattle.std.specs.Prelude.{◌≡◌, Ok};
ghost use Rattle.pw_parse_grammar.specs.Declarations as spec;
ghost use Rattle.pw_parse_cursor.specs.Reads.{Reads};
ghost use Rattle.pw_parse_cursor.specs.PartViews.{view_decl_list, view_declared, view_specifier_list};
ghost use Rattle.pw_parse_decl.specs.Views.{before_decl, before_init_declarator, inits_last, view_init_declarator_list, view_inits_end};
ghost use Rattle.pw_tree.specs.Views.{view_decl, view_init, view_init_declarator, view_initializer};

use crate::parts::{DeclParts, InitParts};
use pw_parse_cursor::{
    ASSIGNMENT, Declared, Stop, Tokens, begins_declaration, declare_name, has_type, has_typedef,
};
use pw_parse_grammar::Place;
use pw_tree::{
    Decl, Init, InitDeclarator, Initializer, Mark, Specifier, statements_show_their_lists,
};
use std::alloc::Global;

/// Behind an initializer: None where another one follows, else whether a comma stands before the end.
#[tactic(auto, unfolding(pw_parse_grammar::specs::Declarations::inits_end))]
fn inits_end(tokens: &mut Tokens<'_>) -> Option<bool>
    ensures { spec.inits_end tokens.old ≡ Ok (inits_last result, tokens.new) }
{
    if !tokens.eat(Mark::Comma) {
        return Some(false);
    }
    if tokens.sees(Mark::CloseBrace) {
        Some(true)
    } else {
        None
    }
}

/// Initializers up to the `}`, and whether a comma stands before it.
#[tactic(auto, unfolding(pw_parse_grammar::specs::Declarations::inits))]
fn inits<'a, P: InitParts<'a>>(
    alloc: Global,
    parts: &P,
    tokens: &mut Tokens<'a>,
) -> Result<(Vec<Init>, bool), Stop>
    requires { P.can_read parts.now }
    ensures { Reads view_inits_end (spec.inits (P.parser parts.now) tokens.old) result tokens.new }
{
    let mut found = Vec::new(alloc);
    for _turn in 0..tokens.turns() {
        let item = parts.init(alloc, tokens)?;
        found.push(item)?;
        if let Some(trailing) = inits_end(tokens) {
            return Ok((found, trailing));
        }
    }
    Err(Stop::Fault)
}

/// Initializers in braces (C90 6.5.7).
#[tactic(auto, unfolding(pw_parse_grammar::specs::Declarations::braced))]
fn braced<'a, P: InitParts<'a>>(
    alloc: Global,
    parts: &P,
    tokens: &mut Tokens<'a>,
) -> Result<Init, Stop>
    requires { P.can_read parts.now }
    ensures { Reads view_init (spec.braced (P.parser parts.now) tokens.old) result tokens.new }
{
    let token = tokens.take_number();
    let (items, trailing_comma) = inits(alloc, parts, tokens)?;
    tokens.expect(Mark::CloseBrace)?;
    statements_show_their_lists();
    Ok(Init::List {
        token,
        items,
        trailing_comma,
    })
}

/// An initializer (C90 6.5.7).
#[tactic(auto, unfolding(pw_parse_grammar::specs::Declarations::init_of, pw_tree::specs::Views::view_init))]
pub fn init_of<'a, P: InitParts<'a>>(
    alloc: Global,
    parts: &P,
    tokens: &mut Tokens<'a>,
) -> Result<Init, Stop>
    requires { P.can_read parts.now }
    ensures { Reads view_init (spec.init_of (P.limit parts.now) (P.parser parts.now) tokens.old) result tokens.new }
{
    if tokens.sees(Mark::OpenBrace) {
        return braced(alloc, parts, tokens);
    }
    let value = parts.expr(alloc, tokens, ASSIGNMENT)?;
    Ok(Init::Value(value))
}

#[tactic(auto, unfolding(pw_parse_grammar::specs::Declarations::initializer))]
fn initializer<'a, P: DeclParts<'a>>(
    alloc: Global,
    parts: &P,
    tokens: &mut Tokens<'a>,
) -> Result<Option<Initializer>, Stop>
    ensures { Reads view_initializer (spec.initializer (P.limit parts.now) tokens.old) result tokens.new }
{
    if !tokens.sees(Mark::Equal) {
        return Ok(None);
    }
    let token = tokens.take_number();
    let init = parts.init(alloc, tokens)?;
    Ok(Some(Initializer { token, init }))
}

/// A declarator that was read, with its initializer. A name's scope begins before its initializer.
#[tactic(auto, unfolding(pw_parse_grammar::specs::Declarations::initialized))]
fn initialized<'a, P: DeclParts<'a>>(
    alloc: Global,
    parts: &P,
    tokens: &mut Tokens<'a>,
    is_typedef: bool,
    declared: Declared<'a>,
) -> Result<InitDeclarator, Stop>
    ensures { Reads view_init_declarator (spec.initialized (P.limit parts.now) is_typedef (view_declared declared.entry) tokens.old) result tokens.new }
{
    let Declared { tree, name, .. } = declared;
    declare_name(tokens, name, is_typedef)?;
    let initializer = initializer(alloc, parts, tokens)?;
    Ok(InitDeclarator {
        declarator: tree,
        initializer,
    })
}

#[tactic(auto, unfolding(pw_parse_grammar::specs::Declarations::init_declarator))]
fn init_declarator<'a, P: DeclParts<'a>>(
    alloc: Global,
    parts: &P,
    tokens: &mut Tokens<'a>,
    typed: bool,
    is_typedef: bool,
) -> Result<InitDeclarator, Stop>
    ensures { Reads view_init_declarator (spec.init_declarator (P.limit parts.now) typed is_typedef tokens.old) result tokens.new }
{
    let declared = parts.declarator(alloc, tokens, Place::Named, typed)?;
    initialized(alloc, parts, tokens, is_typedef, declared)
}

/// A comma and another declarator, if they stand next.
#[tactic(auto, unfolding(pw_parse_grammar::specs::Declarations::other_declarator))]
fn other_declarator<'a, P: DeclParts<'a>>(
    alloc: Global,
    parts: &P,
    tokens: &mut Tokens<'a>,
    typed: bool,
    is_typedef: bool,
) -> Result<Option<InitDeclarator>, Stop>
    ensures { Reads before_init_declarator (spec.other_declarator (P.limit parts.now) typed is_typedef tokens.old) result tokens.new }
{
    if !tokens.eat(Mark::Comma) {
        return Ok(None);
    }
    Ok(Some(init_declarator(alloc, parts, tokens, typed, is_typedef)?))
}

/// The declarators of a declaration, the first of which was read.
#[tactic(auto, unfolding(pw_parse_grammar::specs::Declarations::init_declarators))]
fn init_declarators<'a, P: DeclParts<'a>>(
    alloc: Global,
    parts: &P,
    tokens: &mut Tokens<'a>,
    typed: bool,
    is_typedef: bool,
    first: InitDeclarator,
) -> Result<Vec<InitDeclarator>, Stop>
    ensures { Reads view_init_declarator_list (spec.init_declarators (P.limit parts.now) typed is_typedef (view_init_declarator first) tokens.old) result tokens.new }
{
    let mut found = Vec::new(alloc);
    found.push(first)?;
    for _turn in 0..tokens.turns() {
        let Some(declarator) = other_declarator(alloc, parts, tokens, typed, is_typedef)? else {
            return Ok(found);
        };
        found.push(declarator)?;
    }
    Err(Stop::Fault)
}

/// A declaration from its first declarator's initializer on.
#[tactic(auto, unfolding(pw_parse_grammar::specs::Declarations::declaration_with))]
pub fn declaration_with<'a, P: DeclParts<'a>>(
    alloc: Global,
    parts: &P,
    tokens: &mut Tokens<'a>,
    specifiers: Vec<Specifier>,
    declared: Declared<'a>,
) -> Result<Decl, Stop>
    ensures { Reads view_decl (spec.declaration_with (P.limit parts.now) (view_specifier_list specifiers) (view_declared declared.entry) tokens.old) result tokens.new }
{
    let typed = has_type(&specifiers);
    let is_typedef = has_typedef(&specifiers);
    let first = initialized(alloc, parts, tokens, is_typedef, declared)?;
    let declarators = init_declarators(alloc, parts, tokens, typed, is_typedef, first)?;
    tokens.expect(Mark::Semicolon)?;
    Ok(Decl {
        specifiers,
        declarators,
    })
}

/// Reads a declaration: specifiers, declarators with their initializers, and the semicolon (C90 6.5).
#[tactic(auto, unfolding(pw_parse_grammar::specs::Declarations::declaration, pw_parse_grammar::specs::Expressions::some_specifiers))]
fn declaration<'a, P: DeclParts<'a>>(
    alloc: Global,
    parts: &P,
    tokens: &mut Tokens<'a>,
) -> Result<Decl, Stop>
    ensures { Reads view_decl (spec.declaration (P.limit parts.now) tokens.old) result tokens.new }
{
    let specifiers = parts.specifiers(alloc, tokens, true)?;
    if specifiers.is_empty() {
        return Err(Stop::Fault);
    }
    if tokens.eat(Mark::Semicolon) {
        return Ok(Decl {
            specifiers,
            declarators: Vec::new(alloc),
        });
    }
    let typed = has_type(&specifiers);
    let declared = parts.declarator(alloc, tokens, Place::Named, typed)?;
    declaration_with(alloc, parts, tokens, specifiers, declared)
}

#[tactic(auto, unfolding(pw_parse_grammar::specs::Declarations::declaration_next))]
fn declaration_next<'a, P: DeclParts<'a>>(
    alloc: Global,
    parts: &P,
    tokens: &mut Tokens<'a>,
    labels: bool,
) -> Result<Option<Decl>, Stop>
    ensures { Reads before_decl (spec.declaration_next (P.limit parts.now) labels tokens.old) result tokens.new }
{
    if !begins_declaration(tokens, labels) {
        return Ok(None);
    }
    Ok(Some(declaration(alloc, parts, tokens)?))
}

/// Declarations, none or more. The flag says that statements may stand behind them, which a label may begin.
#[tactic(auto, unfolding(pw_parse_grammar::specs::Declarations::declarations))]
pub fn declarations<'a, P: DeclParts<'a>>(
    alloc: Global,
    parts: &P,
    tokens: &mut Tokens<'a>,
    labels: bool,
) -> Result<Vec<Decl>, Stop>
    ensures { Reads view_decl_list (spec.declarations (P.limit parts.now) labels tokens.old) result tokens.new }
{
    let mut found = Vec::new(alloc);
    for _turn in 0..tokens.turns() {
        let Some(decl) = declaration_next(alloc, parts, tokens, labels)? else {
            return Ok(found);
        };
        found.push(decl)?;
    }
    Err(Stop::Fault)
}
