//! Declarators (C90 6.5.4, 6.5.5).

ghost use Rattle.std.specs.Prelude.{◌≡◌, ◌≢◌, Ok, IfErr};
ghost use Rattle.std.specs.Option.{option_or};
ghost use Rattle.pw_parse_grammar.specs.Declarators as spec;
ghost use Rattle.pw_parse_grammar.specs.Input.{Input};
ghost use Rattle.pw_parse_cursor.specs.Reads.{Reads};
ghost use Rattle.pw_parse_declarators.specs.Rests as own;
ghost use Rattle.pw_parse_declarators.specs.Suffixes.{before_suffixed, name_first, parameters_last, suffixed_first, view_behind_name, view_cored, view_names};
ghost use Rattle.pw_parse_cursor.specs.PartViews.{view_behind, view_declared};
ghost use Rattle.pw_parse_declarators.specs.Views.{before_pointer, before_qualifier, parameter_first, view_parameters_end, view_pointer_list, view_qualifier_list};
ghost use Rattle.pw_tree.specs.Trees.{Enclosed};
ghost use Rattle.pw_tree.specs.Views.{view_core, view_declarator, view_parameters, view_pointer, view_suffix};

use pw_parse_cursor::{
    Binding, CONDITIONAL, Declared, SmallerParts, Stop, Tokens, begins_specifier, boxed_expr,
    declare_name, has_type, opens_parameters, qualifier_word, some_specifiers,
};
use pw_parse_grammar::Place;
use pw_tree::{
    Core, Declarator, Lexeme, Mark, Parameter, Pointer, Qualifier, Suffix, Word,
    declarators_show_their_lists,
};
use std::alloc::Global;

/// An identifier of a list, and its bytes in the text.
#[derive(Drop)]
struct ListedName<'a> {
    word: Word,
    text: &'a [u8],
}

/// A list of identifiers, and what it declares.
#[derive(Drop)]
struct Names<'a> {
    words: Vec<Word>,
    bindings: Vec<Binding<'a>>,
}

/// A suffix, and what it declares where it is a list of parameters.
#[derive(Drop)]
struct Suffixed<'a> {
    suffix: Suffix,
    bindings: Vec<Binding<'a>>,
}

/// Suffixes, and what the first declares.
#[derive(Drop)]
struct SuffixList<'a> {
    found: Vec<Suffix>,
    first: Option<Vec<Binding<'a>>>,
}

/// The core of a declarator, with the declared name and what the list of parameters behind it declares.
#[derive(Drop)]
struct Cored<'a> {
    core: Core,
    name: Option<&'a [u8]>,
    behind: Option<Vec<Binding<'a>>>,
}

fn needs_name(place: Place) -> bool
    ensures { result ≡ spec.needs_name place }
{
    matches!(place, Place::Named)
}

/// An identifier may be a declarator's name. A typedef name is declared anew only where a type
/// specifier stands before.
fn spells_name(tokens: &Tokens<'_>, place: Place, typed: bool, name: &[u8]) -> bool
    ensures { result ≡ spec.spells_name place typed tokens.now name.now }
{
    !matches!(place, Place::Nameless) && (typed || !tokens.is_typedef_name(name))
}

#[tactic(auto, unfolding(pw_tree::specs::Views::view_expr))]
fn absent<'a>() -> Cored<'a>
    ensures { view_cored result ≡ spec.absent }
{
    Cored {
        core: Core::Absent,
        name: None,
        behind: None,
    }
}

fn may_be_absent<'a>(place: Place) -> Result<Cored<'a>, Stop>
    ensures reads { (i : Input) → Reads view_cored (spec.may_be_absent place i) result i }
    ensures no_memory { IfErr result (λ stop. stop ≢ Stop.NoMemory) }
{
    match place {
        Place::Named => Err(Stop::Fault),
        Place::Nameless | Place::Either => Ok(absent()),
    }
}

fn first_of<'a>(
    behind: Option<Vec<Binding<'a>>>,
    first: Option<Vec<Binding<'a>>>,
) -> Option<Vec<Binding<'a>>>
    ensures { view_behind result ≡ option_or (view_behind behind.entry) (view_behind first.entry) }
{
    match behind {
        Some(bindings) => Some(bindings),
        None => first,
    }
}

/// A list of parameters, with or without `, ...` behind it.
fn parameters_suffix(token: usize, parameters: Vec<Parameter>, variadic: bool) -> Suffix
    ensures { view_suffix result ≡ spec.prototype_of token (view_parameters parameters.items, variadic) }
{
    declarators_show_their_lists();
    if variadic {
        Suffix::Variadic { token, parameters }
    } else {
        Suffix::Parameters { token, parameters }
    }
}

/// Behind a parameter: None where another one follows, else whether the list ends with `, ...`.
#[tactic(auto, unfolding(pw_parse_grammar::specs::Declarators::parameters_end))]
fn parameters_end(tokens: &mut Tokens<'_>) -> Option<bool>
    ensures { spec.parameters_end tokens.old ≡ Ok (parameters_last result, tokens.new) }
{
    if !tokens.eat(Mark::Comma) {
        return Some(false);
    }
    if tokens.eat(Mark::Ellipsis) {
        Some(true)
    } else {
        None
    }
}

/// A qualifier, if one stands next.
#[tactic(auto, unfolding(pw_parse_grammar::specs::Declarators::qualifier))]
fn qualifier(tokens: &mut Tokens<'_>) -> Option<Qualifier>
    ensures { spec.qualifier tokens.old ≡ Ok (before_qualifier result, tokens.new) }
{
    let Some(qualifier) = qualifier_word(tokens.peek()) else {
        return None;
    };
    tokens.skip();
    Some(qualifier)
}

#[tactic(auto, unfolding(pw_parse_grammar::specs::Declarators::qualifiers))]
fn qualifiers(alloc: Global, tokens: &mut Tokens<'_>) -> Result<Vec<Qualifier>, Stop>
    ensures { Reads view_qualifier_list (spec.qualifiers tokens.old) result tokens.new }
{
    let mut found = Vec::new(alloc);
    for _turn in 0..tokens.turns() {
        let Some(qualifier) = qualifier(tokens) else {
            return Ok(found);
        };
        found.push(qualifier)?;
    }
    Err(Stop::Fault)
}

/// A `*` with the qualifiers behind it (C90 6.5.4.1).
#[tactic(auto, unfolding(pw_parse_grammar::specs::Declarators::starred))]
fn starred(alloc: Global, tokens: &mut Tokens<'_>) -> Result<Pointer, Stop>
    ensures { Reads view_pointer (spec.starred tokens.old) result tokens.new }
{
    let token = tokens.take_number();
    let qualifiers = qualifiers(alloc, tokens)?;
    Ok(Pointer { token, qualifiers })
}

#[tactic(auto, unfolding(pw_parse_grammar::specs::Declarators::pointer))]
fn pointer(alloc: Global, tokens: &mut Tokens<'_>) -> Result<Option<Pointer>, Stop>
    ensures { Reads before_pointer (spec.pointer tokens.old) result tokens.new }
{
    if !tokens.sees(Mark::Star) {
        return Ok(None);
    }
    Ok(Some(starred(alloc, tokens)?))
}

#[tactic(auto, unfolding(pw_parse_grammar::specs::Declarators::pointers))]
fn pointers(alloc: Global, tokens: &mut Tokens<'_>) -> Result<Vec<Pointer>, Stop>
    ensures { Reads view_pointer_list (spec.pointers tokens.old) result tokens.new }
{
    let mut found = Vec::new(alloc);
    for _turn in 0..tokens.turns() {
        let Some(pointer) = pointer(alloc, tokens)? else {
            return Ok(found);
        };
        found.push(pointer)?;
    }
    Err(Stop::Fault)
}

/// An identifier of a list, and its bytes in the text.
#[tactic(auto, unfolding(pw_parse_grammar::specs::Declarators::name_in_list, pw_parse_grammar::specs::Input::ordinary_by))]
fn name_in_list<'a>(alloc: Global, tokens: &mut Tokens<'a>) -> Result<ListedName<'a>, Stop>
    ensures { Reads name_first (spec.name_in_list tokens.old) result tokens.new }
{
    let Lexeme::Identifier(text) = tokens.peek() else {
        return Err(Stop::Fault);
    };
    if tokens.is_typedef_name(text) {
        return Err(Stop::Fault);
    }
    let word = tokens.word(alloc, text)?;
    Ok(ListedName { word, text })
}

/// A list of identifiers, and what it declares (C90 6.5.4.3).
#[tactic(auto, unfolding(pw_parse_grammar::specs::Declarators::names_in_list))]
fn names_in_list<'a>(alloc: Global, tokens: &mut Tokens<'a>) -> Result<Names<'a>, Stop>
    ensures { Reads view_names (spec.names_in_list tokens.old) result tokens.new }
{
    let mut words = Vec::new(alloc);
    let mut bindings = Vec::new(alloc);
    for _turn in 0..tokens.turns() {
        let name = name_in_list(alloc, tokens)?;
        words.push(name.word)?;
        bindings.push((name.text, false))?;
        if !tokens.eat(Mark::Comma) {
            return Ok(Names { words, bindings });
        }
    }
    Err(Stop::Fault)
}

/// Something stands next that a declarator without a need for a name may hold in parentheses.
#[tactic(auto, unfolding(pw_parse_grammar::specs::Declarators::may_be_enclosed))]
fn may_be_enclosed(tokens: &Tokens<'_>, place: Place, typed: bool) -> bool
    ensures { result ≡ spec.may_be_enclosed place typed tokens.now }
{
    match tokens.peek() {
        Lexeme::Mark(Mark::Star | Mark::OpenParen | Mark::OpenBracket) => true,
        Lexeme::Identifier(name) => spells_name(tokens, place, typed, name),
        _ => needs_name(place),
    }
}

/// An array with a length, from the length on.
#[tactic(auto, unfolding(crate::specs::Rests::sized, pw_tree::specs::Views::view_expr))]
fn sized_array<'a, P: SmallerParts<'a>>(
    alloc: Global,
    parts: &P,
    tokens: &mut Tokens<'a>,
    token: usize,
) -> Result<Suffixed<'a>, Stop>
    requires { P.can_read parts.now }
    ensures { Reads suffixed_first (own.sized (P.parsers parts.now) token tokens.old) result tokens.new }
{
    let length = boxed_expr(alloc, parts, tokens, CONDITIONAL)?;
    tokens.expect(Mark::CloseBracket)?;
    Ok(Suffixed {
        suffix: Suffix::Array {
            token,
            length: Box::into_inner(length),
        },
        bindings: Vec::new(alloc),
    })
}

/// Reads the brackets of an array with its length, which may be left out (C90 6.5.4.2).
#[tactic(auto, unfolding(pw_parse_grammar::specs::Declarators::array, crate::specs::Rests::sized, pw_tree::specs::Views::view_expr))]
fn array<'a, P: SmallerParts<'a>>(
    alloc: Global,
    parts: &P,
    tokens: &mut Tokens<'a>,
) -> Result<Suffixed<'a>, Stop>
    requires { P.can_read parts.now }
    ensures { Reads suffixed_first (spec.array (P.parsers parts.now) tokens.old) result tokens.new }
{
    let token = tokens.take_number();
    if tokens.eat(Mark::CloseBracket) {
        return Ok(Suffixed {
            suffix: Suffix::OpenArray { token },
            bindings: Vec::new(alloc),
        });
    }
    sized_array(alloc, parts, tokens, token)
}

/// Reads a parameter: specifiers, and a declarator that may have no name (C90 6.5.4.3).
#[tactic(auto, unfolding(pw_parse_grammar::specs::Declarators::parameter))]
fn parameter<'a, P: SmallerParts<'a>>(
    alloc: Global,
    parts: &P,
    tokens: &mut Tokens<'a>,
) -> Result<Parameter, Stop>
    requires { P.can_read parts.now }
    ensures { Reads parameter_first (spec.parameter (P.parsers parts.now) tokens.old) result tokens.new }
{
    let specifiers = some_specifiers(alloc, parts, tokens, true)?;
    let typed = has_type(&specifiers);
    let Declared { tree, name, .. } = parts.declarator(alloc, tokens, Place::Either, typed)?;
    declare_name(tokens, name, false)?;
    Ok(Parameter {
        specifiers,
        declarator: tree,
    })
}

/// The parameters, and whether `, ...` stands behind them.
#[tactic(auto, unfolding(pw_parse_grammar::specs::Declarators::parameters))]
fn parameters<'a, P: SmallerParts<'a>>(
    alloc: Global,
    parts: &P,
    tokens: &mut Tokens<'a>,
) -> Result<(Vec<Parameter>, bool), Stop>
    requires { P.can_read parts.now }
    ensures { Reads view_parameters_end (spec.parameters (P.parsers parts.now) tokens.old) result tokens.new }
{
    let mut found = Vec::new(alloc);
    for _turn in 0..tokens.turns() {
        let parameter = parameter(alloc, parts, tokens)?;
        found.push(parameter)?;
        if let Some(variadic) = parameters_end(tokens) {
            return Ok((found, variadic));
        }
    }
    Err(Stop::Fault)
}

/// A list of parameters, which is a scope of its own.
#[tactic(auto, unfolding(pw_parse_grammar::specs::Declarators::prototype))]
fn prototype<'a, P: SmallerParts<'a>>(
    alloc: Global,
    parts: &P,
    tokens: &mut Tokens<'a>,
    token: usize,
) -> Result<Suffixed<'a>, Stop>
    requires { P.can_read parts.now }
    ensures { Reads suffixed_first (spec.prototype (P.parsers parts.now) token tokens.old) result tokens.new }
{
    let outer = tokens.mark();
    let (parameters, variadic) = parameters(alloc, parts, tokens)?;
    let bindings = tokens.since(alloc, outer)?;
    tokens.expect(Mark::CloseParen)?;
    tokens.leave(outer);
    let suffix = parameters_suffix(token, parameters, variadic);
    Ok(Suffixed { suffix, bindings })
}

#[tactic(auto, unfolding(pw_parse_grammar::specs::Declarators::identifiers, pw_tree::specs::Views::view_expr))]
fn identifiers<'a, P: SmallerParts<'a>>(
    alloc: Global,
    parts: &P,
    tokens: &mut Tokens<'a>,
    token: usize,
) -> Result<Suffixed<'a>, Stop>
    requires { P.can_read parts.now }
    ensures { Reads suffixed_first (spec.identifiers (P.parsers parts.now) token tokens.old) result tokens.new }
{
    let Names { words, bindings } = names_in_list(alloc, tokens)?;
    tokens.expect(Mark::CloseParen)?;
    Ok(Suffixed {
        suffix: Suffix::Identifiers {
            token,
            names: words,
        },
        bindings,
    })
}

/// Only behind a name may a list of identifiers stand.
#[tactic(auto, unfolding(pw_parse_grammar::specs::Declarators::listed))]
fn listed<'a, P: SmallerParts<'a>>(
    alloc: Global,
    parts: &P,
    tokens: &mut Tokens<'a>,
    named: bool,
    token: usize,
) -> Result<Suffixed<'a>, Stop>
    requires { P.can_read parts.now }
    ensures { Reads suffixed_first (spec.listed (P.parsers parts.now) named token tokens.old) result tokens.new }
{
    match tokens.peek() {
        Lexeme::Identifier(_) => {
            if named {
                identifiers(alloc, parts, tokens, token)
            } else {
                Err(Stop::Fault)
            }
        }
        _ => Err(Stop::Fault),
    }
}

/// A list of parameters, or of identifiers behind a name (C90 6.5.4.3).
#[tactic(auto, unfolding(pw_parse_grammar::specs::Declarators::parameter_list))]
fn parameter_list<'a, P: SmallerParts<'a>>(
    alloc: Global,
    parts: &P,
    tokens: &mut Tokens<'a>,
    named: bool,
) -> Result<Suffixed<'a>, Stop>
    requires { P.can_read parts.now }
    ensures { Reads suffixed_first (spec.parameter_list (P.parsers parts.now) named tokens.old) result tokens.new }
{
    let token = tokens.take_number();
    if tokens.eat(Mark::CloseParen) {
        return Ok(Suffixed {
            suffix: parameters_suffix(token, Vec::new(alloc), false),
            bindings: Vec::new(alloc),
        });
    }
    if begins_specifier(tokens, true) {
        prototype(alloc, parts, tokens, token)
    } else {
        listed(alloc, parts, tokens, named, token)
    }
}

#[tactic(auto, unfolding(pw_parse_grammar::specs::Declarators::suffix))]
fn suffix<'a, P: SmallerParts<'a>>(
    alloc: Global,
    parts: &P,
    tokens: &mut Tokens<'a>,
    named: bool,
) -> Result<Option<Suffixed<'a>>, Stop>
    requires { P.can_read parts.now }
    ensures { Reads before_suffixed (spec.suffix (P.parsers parts.now) named tokens.old) result tokens.new }
{
    match tokens.peek() {
        Lexeme::Mark(Mark::OpenBracket) => Ok(Some(array(alloc, parts, tokens)?)),
        Lexeme::Mark(Mark::OpenParen) => Ok(Some(parameter_list(alloc, parts, tokens, named)?)),
        _ => Ok(None),
    }
}

/// Suffixes, with what the first declares.
#[tactic(auto, unfolding(pw_parse_grammar::specs::Declarators::suffixes))]
fn suffixes<'a, P: SmallerParts<'a>>(
    alloc: Global,
    parts: &P,
    tokens: &mut Tokens<'a>,
    named: bool,
) -> Result<SuffixList<'a>, Stop>
    requires { P.can_read parts.now }
    ensures { Reads view_behind_name (spec.suffixes (P.parsers parts.now) named tokens.old) result tokens.new }
{
    let mut found = Vec::new(alloc);
    let mut first = None;
    for _turn in 0..tokens.turns() {
        let Some(item) = suffix(alloc, parts, tokens, named)? else {
            return Ok(SuffixList { found, first });
        };
        found.push(item.suffix)?;
        first = first_of(first, Some(item.bindings));
    }
    Err(Stop::Fault)
}

/// A declarator in parentheses, as a core.
fn enclosing(token: usize, inner: Box<Declarator>) -> Core
    ensures { view_core result ≡ Enclosed token (view_declarator inner.value) }
{
    declarators_show_their_lists();
    Core::Paren { token, inner }
}

/// A declarator in parentheses, from behind the `(`.
#[tactic(auto, unfolding(crate::specs::Rests::parenthesized))]
fn parenthesized<'a, P: SmallerParts<'a>>(
    alloc: Global,
    parts: &P,
    tokens: &mut Tokens<'a>,
    place: Place,
    typed: bool,
    token: usize,
) -> Result<Cored<'a>, Stop>
    requires { P.can_read parts.now }
    ensures { Reads view_cored (own.parenthesized (P.parsers parts.now) place typed token tokens.old) result tokens.new }
{
    let Declared { tree, name, behind } = parts.declarator(alloc, tokens, place, typed)?;
    let inner = Box::new(alloc, tree)?;
    tokens.expect(Mark::CloseParen)?;
    Ok(Cored {
        core: enclosing(token, inner),
        name,
        behind,
    })
}

/// A declarator in parentheses.
#[tactic(auto, unfolding(pw_parse_grammar::specs::Declarators::enclosed, crate::specs::Rests::parenthesized))]
fn enclosed<'a, P: SmallerParts<'a>>(
    alloc: Global,
    parts: &P,
    tokens: &mut Tokens<'a>,
    place: Place,
    typed: bool,
) -> Result<Cored<'a>, Stop>
    requires { P.can_read parts.now }
    ensures { Reads view_cored (spec.enclosed (P.parsers parts.now) place typed tokens.old) result tokens.new }
{
    let token = tokens.take_number();
    if !may_be_enclosed(tokens, place, typed) {
        return Err(Stop::Fault);
    }
    parenthesized(alloc, parts, tokens, place, typed, token)
}

/// What stands between pointers and suffixes.
#[tactic(auto, unfolding(pw_parse_grammar::specs::Declarators::core, pw_tree::specs::Views::view_expr))]
fn core<'a, P: SmallerParts<'a>>(
    alloc: Global,
    parts: &P,
    tokens: &mut Tokens<'a>,
    place: Place,
    typed: bool,
) -> Result<Cored<'a>, Stop>
    requires { P.can_read parts.now }
    ensures { Reads view_cored (spec.core (P.parsers parts.now) place typed tokens.old) result tokens.new }
{
    match tokens.peek() {
        Lexeme::Identifier(text) => {
            if !spells_name(tokens, place, typed, text) {
                return may_be_absent(place);
            }
            let word = tokens.word(alloc, text)?;
            Ok(Cored {
                core: Core::Name(word),
                name: Some(text),
                behind: None,
            })
        }
        Lexeme::Mark(Mark::OpenParen) => {
            if !needs_name(place) && opens_parameters(tokens) {
                return Ok(absent());
            }
            enclosed(alloc, parts, tokens, place, typed)
        }
        _ => may_be_absent(place),
    }
}

/// Reads a declarator: pointers, a name or what stands in parentheses, and suffixes (C90 6.5.4, 6.5.5).
#[tactic(auto, unfolding(pw_parse_grammar::specs::Declarators::declarator_of))]
pub fn declarator_of<'a, P: SmallerParts<'a>>(
    alloc: Global,
    parts: &P,
    tokens: &mut Tokens<'a>,
    place: Place,
    typed: bool,
) -> Result<Declared<'a>, Stop>
    requires { P.can_read parts.now }
    ensures { Reads view_declared (spec.declarator_of (P.parsers parts.now) place typed tokens.old) result tokens.new }
{
    let pointers = pointers(alloc, tokens)?;
    let Cored { core, name, behind } = core(alloc, parts, tokens, place, typed)?;
    let SuffixList { found, first } = suffixes(alloc, parts, tokens, name.is_some())?;
    Ok(Declared {
        tree: Declarator {
            pointers,
            core,
            suffixes: found,
        },
        name,
        behind: first_of(behind, first),
    })
}
