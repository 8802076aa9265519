//! Specifiers (C90 6.5.1 to 6.5.3, 6.5.6).

ghost use Rattle.std.specs.Prelude.{◌≡◌, Ok};
ghost use Rattle.pw_parse_cursor.specs.Reads.{Reads};
ghost use Rattle.pw_parse_grammar.specs.Specifiers as spec;
ghost use Rattle.pw_parse_cursor.specs.PartViews.{view_specifier_list};
ghost use Rattle.pw_parse_specifiers.specs.Enumerators as own;
ghost use Rattle.pw_parse_specifiers.specs.Views.{before_specifier, member_first, view_enumerator_list, view_member_declarator_list, view_member_list, view_width};
ghost use Rattle.pw_tree.specs.Trees.{BitField, PlainMember};
ghost use Rattle.pw_tree.specs.Views.{view_declarator, view_enumerator, view_expr, view_member_declarator, view_specifier, view_tag, view_word};

use pw_parse_cursor::{
    CONDITIONAL, Declared, SmallerParts, Stop, Tokens, boxed_expr, has_type, is_type,
    some_specifiers, specifier_word,
};
use pw_parse_grammar::{Place, SpecifierWord};
use pw_tree::{
    Declarator, Enumerator, Expr, Lexeme, Mark, Member, MemberDeclarator, RecordKind, Specifier,
    Word, declarators_show_their_lists,
};
use std::alloc::Global;

/// The tag of a record or an enumeration (C90 6.5.2.3), if one stands next.
#[tactic(auto, unfolding(pw_parse_grammar::specs::Specifiers::tag))]
fn tag(alloc: Global, tokens: &mut Tokens<'_>) -> Result<Option<Word>, Stop>
    ensures { Reads view_tag (spec.tag tokens.old) result tokens.new }
{
    match tokens.peek() {
        Lexeme::Identifier(text) => Ok(Some(tokens.word(alloc, text)?)),
        _ => Ok(None),
    }
}

/// A bit-field's width, from the `:` on (C90 6.5.2.1).
#[tactic(auto, unfolding(pw_parse_grammar::specs::Specifiers::width))]
fn width<'a, P: SmallerParts<'a>>(
    alloc: Global,
    parts: &P,
    tokens: &mut Tokens<'a>,
) -> Result<(usize, Expr), Stop>
    requires { P.can_read parts.now }
    ensures { Reads view_width (spec.width (P.parsers parts.now) tokens.old) result tokens.new }
{
    let token = tokens.take_number();
    let width = parts.expr(alloc, tokens, CONDITIONAL)?;
    Ok((token, width))
}

#[tactic(auto, unfolding(pw_parse_grammar::specs::Specifiers::padding, pw_tree::specs::Views::view_expr))]
fn padding<'a, P: SmallerParts<'a>>(
    alloc: Global,
    parts: &P,
    tokens: &mut Tokens<'a>,
) -> Result<MemberDeclarator, Stop>
    requires { P.can_read parts.now }
    ensures { Reads view_member_declarator (spec.padding (P.parsers parts.now) tokens.old) result tokens.new }
{
    let (token, width) = width(alloc, parts, tokens)?;
    Ok(MemberDeclarator::Padding { token, width })
}

/// A declarator of a member.
fn plain_member(declarator: Box<Declarator>) -> MemberDeclarator
    ensures { view_member_declarator result ≡ PlainMember (view_declarator declarator.value) }
{
    declarators_show_their_lists();
    MemberDeclarator::Plain(Box::into_inner(declarator))
}

/// A declarator of a bit-field, with its width.
fn bit_field(declarator: Box<Declarator>, token: usize, width: Expr) -> MemberDeclarator
    ensures { view_member_declarator result ≡ BitField (view_declarator declarator.value) token (view_expr width) }
{
    declarators_show_their_lists();
    MemberDeclarator::BitField {
        declarator: Box::into_inner(declarator),
        token,
        width,
    }
}

#[tactic(auto, unfolding(pw_parse_grammar::specs::Specifiers::named_member))]
fn named_member<'a, P: SmallerParts<'a>>(
    alloc: Global,
    parts: &P,
    tokens: &mut Tokens<'a>,
    typed: bool,
) -> Result<MemberDeclarator, Stop>
    requires { P.can_read parts.now }
    ensures { Reads view_member_declarator (spec.named_member (P.parsers parts.now) typed tokens.old) result tokens.new }
{
    let Declared { tree, .. } = parts.declarator(alloc, tokens, Place::Named, typed)?;
    let declarator = Box::new(alloc, tree)?;
    if !tokens.sees(Mark::Colon) {
        return Ok(plain_member(declarator));
    }
    let (token, width) = width(alloc, parts, tokens)?;
    Ok(bit_field(declarator, token, width))
}

#[tactic(auto, unfolding(pw_parse_grammar::specs::Specifiers::member_declarator))]
fn member_declarator<'a, P: SmallerParts<'a>>(
    alloc: Global,
    parts: &P,
    tokens: &mut Tokens<'a>,
    typed: bool,
) -> Result<MemberDeclarator, Stop>
    requires { P.can_read parts.now }
    ensures { Reads view_member_declarator (spec.member_declarator (P.parsers parts.now) typed tokens.old) result tokens.new }
{
    if tokens.sees(Mark::Colon) {
        padding(alloc, parts, tokens)
    } else {
        named_member(alloc, parts, tokens, typed)
    }
}

#[tactic(auto, unfolding(pw_parse_grammar::specs::Specifiers::member_declarators))]
fn member_declarators<'a, P: SmallerParts<'a>>(
    alloc: Global,
    parts: &P,
    tokens: &mut Tokens<'a>,
    typed: bool,
) -> Result<Vec<MemberDeclarator>, Stop>
    requires { P.can_read parts.now }
    ensures { Reads view_member_declarator_list (spec.member_declarators (P.parsers parts.now) typed tokens.old) result tokens.new }
{
    let mut found = Vec::new(alloc);
    for _turn in 0..tokens.turns() {
        let declarator = member_declarator(alloc, parts, tokens, typed)?;
        found.push(declarator)?;
        if !tokens.eat(Mark::Comma) {
            return Ok(found);
        }
    }
    Err(Stop::Fault)
}

#[tactic(auto, unfolding(pw_parse_grammar::specs::Specifiers::member))]
fn member<'a, P: SmallerParts<'a>>(
    alloc: Global,
    parts: &P,
    tokens: &mut Tokens<'a>,
) -> Result<Member, Stop>
    requires { P.can_read parts.now }
    ensures { Reads member_first (spec.member (P.parsers parts.now) tokens.old) result tokens.new }
{
    let specifiers = some_specifiers(alloc, parts, tokens, false)?;
    let typed = has_type(&specifiers);
    let declarators = member_declarators(alloc, parts, tokens, typed)?;
    tokens.expect(Mark::Semicolon)?;
    Ok(Member {
        specifiers,
        declarators,
    })
}

/// Up to the `}` and with it.
#[tactic(auto, unfolding(pw_parse_grammar::specs::Specifiers::members))]
fn members<'a, P: SmallerParts<'a>>(
    alloc: Global,
    parts: &P,
    tokens: &mut Tokens<'a>,
) -> Result<Vec<Member>, Stop>
    requires { P.can_read parts.now }
    ensures { Reads view_member_list (spec.members (P.parsers parts.now) tokens.old) result tokens.new }
{
    let mut found = Vec::new(alloc);
    for _turn in 0..tokens.turns() {
        let member = member(alloc, parts, tokens)?;
        found.push(member)?;
        if tokens.eat(Mark::CloseBrace) {
            return Ok(found);
        }
    }
    Err(Stop::Fault)
}

/// A structure or a union (C90 6.5.2.1).
#[tactic(auto, unfolding(pw_parse_grammar::specs::Specifiers::record_specifier, pw_tree::specs::Views::view_expr, pw_parse_grammar::specs::Specifiers::tagged_record))]
fn record_specifier<'a, P: SmallerParts<'a>>(
    alloc: Global,
    parts: &P,
    tokens: &mut Tokens<'a>,
    kind: RecordKind,
) -> Result<Specifier, Stop>
    requires { P.can_read parts.now }
    ensures { Reads view_specifier (spec.record_specifier (P.parsers parts.now) kind tokens.old) result tokens.new }
{
    let token = tokens.take_number();
    let tag = tag(alloc, tokens)?;
    if tokens.eat(Mark::OpenBrace) {
        let members = members(alloc, parts, tokens)?;
        declarators_show_their_lists();
        return Ok(Specifier::Record {
            token,
            kind,
            tag,
            members,
        });
    }
    match tag {
        Some(tag) => Ok(Specifier::RecordTag { token, kind, tag }),
        None => Err(Stop::Fault),
    }
}

/// An enumerator with a value, from the value on.
#[tactic(auto, unfolding(crate::specs::Enumerators::valued, pw_tree::specs::Views::view_expr))]
fn valued_enumerator<'a, P: SmallerParts<'a>>(
    alloc: Global,
    parts: &P,
    tokens: &mut Tokens<'a>,
    text: &'a [u8],
    name: Word,
) -> Result<Enumerator, Stop>
    requires { P.can_read parts.now }
    ensures { Reads view_enumerator (own.valued (P.parsers parts.now) text.now (view_word name) tokens.old) result tokens.new }
{
    let value = boxed_expr(alloc, parts, tokens, CONDITIONAL)?;
    tokens.declare(text, false)?;
    Ok(Enumerator::Valued {
        name,
        value: Box::into_inner(value),
    })
}

/// An enumerator's scope begins behind it, and so behind its value (C90 6.5.2.2).
#[tactic(auto, unfolding(pw_parse_grammar::specs::Specifiers::enumerator, crate::specs::Enumerators::valued, pw_tree::specs::Views::view_expr, pw_parse_grammar::specs::Input::identifier_by))]
fn enumerator<'a, P: SmallerParts<'a>>(
    alloc: Global,
    parts: &P,
    tokens: &mut Tokens<'a>,
) -> Result<Enumerator, Stop>
    requires { P.can_read parts.now }
    ensures { Reads view_enumerator (spec.enumerator (P.parsers parts.now) tokens.old) result tokens.new }
{
    let Lexeme::Identifier(text) = tokens.peek() else {
        return Err(Stop::Fault);
    };
    let name = tokens.word(alloc, text)?;
    if tokens.eat(Mark::Equal) {
        return valued_enumerator(alloc, parts, tokens, text, name);
    }
    tokens.declare(text, false)?;
    Ok(Enumerator::Plain(name))
}

#[tactic(auto, unfolding(pw_parse_grammar::specs::Specifiers::some_enumerators))]
fn some_enumerators<'a, P: SmallerParts<'a>>(
    alloc: Global,
    parts: &P,
    tokens: &mut Tokens<'a>,
) -> Result<Vec<Enumerator>, Stop>
    requires { P.can_read parts.now }
    ensures { Reads view_enumerator_list (spec.some_enumerators (P.parsers parts.now) tokens.old) result tokens.new }
{
    let mut found = Vec::new(alloc);
    for _turn in 0..tokens.turns() {
        let enumerator = enumerator(alloc, parts, tokens)?;
        found.push(enumerator)?;
        if !tokens.eat(Mark::Comma) {
            return Ok(found);
        }
    }
    Err(Stop::Fault)
}

/// Up to the `}` and with it.
#[tactic(auto, unfolding(pw_parse_grammar::specs::Specifiers::enumerators))]
fn enumerators<'a, P: SmallerParts<'a>>(
    alloc: Global,
    parts: &P,
    tokens: &mut Tokens<'a>,
) -> Result<Vec<Enumerator>, Stop>
    requires { P.can_read parts.now }
    ensures { Reads view_enumerator_list (spec.enumerators (P.parsers parts.now) tokens.old) result tokens.new }
{
    let found = some_enumerators(alloc, parts, tokens)?;
    tokens.expect(Mark::CloseBrace)?;
    Ok(found)
}

/// Reads what stands behind `enum`: a tag, enumerators in braces, or both (C90 6.5.2.2).
#[tactic(auto, unfolding(pw_parse_grammar::specs::Specifiers::enum_specifier, pw_tree::specs::Views::view_expr, pw_parse_grammar::specs::Specifiers::tagged_enum))]
fn enum_specifier<'a, P: SmallerParts<'a>>(
    alloc: Global,
    parts: &P,
    tokens: &mut Tokens<'a>,
) -> Result<Specifier, Stop>
    requires { P.can_read parts.now }
    ensures { Reads view_specifier (spec.enum_specifier (P.parsers parts.now) tokens.old) result tokens.new }
{
    let token = tokens.take_number();
    let tag = tag(alloc, tokens)?;
    if tokens.eat(Mark::OpenBrace) {
        let enumerators = enumerators(alloc, parts, tokens)?;
        declarators_show_their_lists();
        return Ok(Specifier::Enum {
            token,
            tag,
            enumerators,
        });
    }
    match tag {
        Some(tag) => Ok(Specifier::EnumTag { token, tag }),
        None => Err(Stop::Fault),
    }
}

#[tactic(auto, unfolding(pw_parse_grammar::specs::Specifiers::specifier_at, pw_tree::specs::Views::view_expr))]
fn specifier_at<'a, P: SmallerParts<'a>>(
    alloc: Global,
    parts: &P,
    tokens: &mut Tokens<'a>,
    storage: bool,
    word: Option<SpecifierWord>,
) -> Result<Option<Specifier>, Stop>
    requires { P.can_read parts.now }
    ensures { Reads before_specifier (spec.specifier_at (P.parsers parts.now) storage word tokens.old) result tokens.new }
{
    match word {
        None => Ok(None),
        Some(SpecifierWord::Storage(class)) => {
            if !storage {
                return Ok(None);
            }
            let token = tokens.take_number();
            Ok(Some(Specifier::Storage { token, class }))
        }
        Some(SpecifierWord::Qualified(qualifier)) => {
            let token = tokens.take_number();
            Ok(Some(Specifier::Qualifier { token, qualifier }))
        }
        Some(SpecifierWord::Basic(basic)) => {
            let token = tokens.take_number();
            Ok(Some(Specifier::Basic { token, basic }))
        }
        Some(SpecifierWord::Record(kind)) => Ok(Some(record_specifier(
            alloc, parts, tokens, kind,
        )?)),
        Some(SpecifierWord::Enum) => Ok(Some(enum_specifier(alloc, parts, tokens)?)),
    }
}

/// A specifier, if one stands next. An identifier is one where it is visible as a typedef name and no type specifier stands before it.
#[tactic(auto, unfolding(pw_parse_grammar::specs::Specifiers::specifier, pw_tree::specs::Views::view_expr))]
fn specifier<'a, P: SmallerParts<'a>>(
    alloc: Global,
    parts: &P,
    tokens: &mut Tokens<'a>,
    storage: bool,
    typed: bool,
) -> Result<Option<Specifier>, Stop>
    requires { P.can_read parts.now }
    ensures { Reads before_specifier (spec.specifier (P.parsers parts.now) storage typed tokens.old) result tokens.new }
{
    match tokens.peek() {
        Lexeme::Keyword(keyword) => specifier_at(
            alloc,
            parts,
            tokens,
            storage,
            specifier_word(keyword),
        ),
        Lexeme::Identifier(text) => {
            if typed || !tokens.is_typedef_name(text) {
                return Ok(None);
            }
            let name = tokens.word(alloc, text)?;
            Ok(Some(Specifier::TypedefName(name)))
        }
        _ => Ok(None),
    }
}

/// Specifiers, none or more (C90 6.5).
#[tactic(auto, unfolding(pw_parse_grammar::specs::Specifiers::specifiers_of))]
pub fn specifiers_of<'a, P: SmallerParts<'a>>(
    alloc: Global,
    parts: &P,
    tokens: &mut Tokens<'a>,
    storage: bool,
) -> Result<Vec<Specifier>, Stop>
    requires { P.can_read parts.now }
    ensures { Reads view_specifier_list (spec.specifiers_of (P.parsers parts.now) storage tokens.old) result tokens.new }
{
    let mut found = Vec::new(alloc);
    let mut typed = false;
    for _turn in 0..tokens.turns() {
        let Some(specifier) = specifier(alloc, parts, tokens, storage, typed)? else {
            return Ok(found);
        };
        typed = typed || is_type(&specifier);
        found.push(specifier)?;
    }
    Err(Stop::Fault)
}
