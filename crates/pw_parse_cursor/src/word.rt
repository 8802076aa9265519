//! What single tokens begin.

ghost use Rattle.std.specs.Prelude.{◌≡◌, ◌≤◌};
ghost use Rattle.pw_tree.specs.Lexemes.{view_lexeme};
ghost use Rattle.pw_tree.specs.Levels.{assignment, binary_level, cast, comma, conditional, unary};
ghost use Rattle.pw_tree.specs.WellFormed.{operand_level};
ghost use Rattle.pw_parse_grammar.specs.Tests as test;
ghost use Rattle.pw_tree.specs.Scopes.{has_type, has_typedef};
ghost use Rattle.pw_tree.specs.Trees.{NoSpecifier};
ghost use Rattle.pw_tree.specs.Views.{view_specifier, view_specifiers};

use crate::tokens::Tokens;
use pw_parse_grammar::SpecifierWord;
use pw_tree::{
    AssignOperator, BasicType, BinaryOperator, Keyword, Lexeme, Mark, Qualifier, RecordKind,
    Specifier, StorageClass, UnaryOperator,
};

/// The level of an expression (C90 6.3.17).
pub const COMMA: u8 = 16;
/// The level of an assignment expression (6.3.16).
pub const ASSIGNMENT: u8 = 15;
/// The level of a conditional expression (6.3.15), and of a constant one (6.4).
pub const CONDITIONAL: u8 = 14;
/// The level of a cast expression (6.3.4).
pub const CAST: u8 = 3;
/// The level of a unary expression (6.3.3).
pub const UNARY: u8 = 2;

/// The levels are those that the definitions speak of.
pub fn levels_of_expressions()
    ensures comma { COMMA ≡ comma }
    ensures assignment { ASSIGNMENT ≡ assignment }
    ensures conditional { CONDITIONAL ≡ conditional }
    ensures cast { CAST ≡ cast }
    ensures unary { UNARY ≡ unary }
{}

/// The keywords that are or begin a specifier.
pub fn specifier_word(keyword: Keyword) -> Option<SpecifierWord>
    ensures { result ≡ test.specifier_word keyword }
{
    match keyword {
        Keyword::Typedef => Some(SpecifierWord::Storage(StorageClass::Typedef)),
        Keyword::Extern => Some(SpecifierWord::Storage(StorageClass::Extern)),
        Keyword::Static => Some(SpecifierWord::Storage(StorageClass::Static)),
        Keyword::Auto => Some(SpecifierWord::Storage(StorageClass::Auto)),
        Keyword::Register => Some(SpecifierWord::Storage(StorageClass::Register)),
        Keyword::Const => Some(SpecifierWord::Qualified(Qualifier::Const)),
        Keyword::Volatile => Some(SpecifierWord::Qualified(Qualifier::Volatile)),
        Keyword::Void => Some(SpecifierWord::Basic(BasicType::Void)),
        Keyword::Char => Some(SpecifierWord::Basic(BasicType::Char)),
        Keyword::Short => Some(SpecifierWord::Basic(BasicType::Short)),
        Keyword::Int => Some(SpecifierWord::Basic(BasicType::Int)),
        Keyword::Long => Some(SpecifierWord::Basic(BasicType::Long)),
        Keyword::Float => Some(SpecifierWord::Basic(BasicType::Float)),
        Keyword::Double => Some(SpecifierWord::Basic(BasicType::Double)),
        Keyword::Signed => Some(SpecifierWord::Basic(BasicType::Signed)),
        Keyword::Unsigned => Some(SpecifierWord::Basic(BasicType::Unsigned)),
        Keyword::Struct => Some(SpecifierWord::Record(RecordKind::Struct)),
        Keyword::Union => Some(SpecifierWord::Record(RecordKind::Union)),
        Keyword::Enum => Some(SpecifierWord::Enum),
        _ => None,
    }
}

fn word_begins(storage: bool, word: Option<SpecifierWord>) -> bool
    ensures { result ≡ test.word_begins storage word }
{
    match word {
        None => false,
        Some(SpecifierWord::Storage(_)) => storage,
        Some(_) => true,
    }
}

fn lexeme_begins_specifier(tokens: &Tokens<'_>, storage: bool, lexeme: Lexeme<'_>) -> bool
    ensures { result ≡ test.symbol_begins_specifier storage tokens.now (view_lexeme lexeme.entry) }
{
    match lexeme {
        Lexeme::Keyword(keyword) => word_begins(storage, specifier_word(keyword)),
        Lexeme::Identifier(name) => tokens.is_typedef_name(name),
        _ => false,
    }
}

/// The next token begins a list of specifiers, in which storage classes may stand or not.
#[tactic(auto, unfolding(pw_parse_grammar::specs::Tests::begins_specifier))]
pub fn begins_specifier(tokens: &Tokens<'_>, storage: bool) -> bool
    ensures { result ≡ test.begins_specifier storage tokens.now }
{
    lexeme_begins_specifier(tokens, storage, tokens.peek())
}

/// A name and a `:` stand next.
#[tactic(auto, unfolding(pw_parse_grammar::specs::Tests::opens_label))]
fn opens_label(tokens: &Tokens<'_>) -> bool
    ensures { result ≡ test.opens_label tokens.now }
{
    matches!(tokens.peek(), Lexeme::Identifier(_)) && tokens.sees_second(Mark::Colon)
}

/// A declaration stands next. The flag says that statements may stand there too, so that a typedef name with a `:`
/// behind it is a label (C90 6.6.1).
#[tactic(auto, unfolding(pw_parse_grammar::specs::Tests::begins_declaration))]
pub fn begins_declaration(tokens: &Tokens<'_>, labels: bool) -> bool
    ensures { result ≡ test.begins_declaration labels tokens.now }
{
    begins_specifier(tokens, true) && !(labels && opens_label(tokens))
}

/// A `(` and a type name stand next: a cast or the size of a type (C90 6.3.3.4, 6.3.4).
#[tactic(auto, unfolding(pw_parse_grammar::specs::Tests::opens_type_name))]
pub fn opens_type_name(tokens: &Tokens<'_>) -> bool
    ensures { result ≡ test.opens_type_name tokens.now }
{
    tokens.sees(Mark::OpenParen) && lexeme_begins_specifier(tokens, false, tokens.peek_second())
}

/// A `(` stands next, and with it a list of parameters where a declarator needs no name (C90 6.5.4.3).
#[tactic(auto, unfolding(pw_parse_grammar::specs::Tests::opens_parameters))]
pub fn opens_parameters(tokens: &Tokens<'_>) -> bool
    ensures { result ≡ test.opens_parameters tokens.now }
{
    tokens.sees_second(Mark::CloseParen)
        || lexeme_begins_specifier(tokens, true, tokens.peek_second())
}

/// The type qualifier that a token is (C90 6.5.3), or none.
pub fn qualifier_word(lexeme: Lexeme<'_>) -> Option<Qualifier>
    ensures { result ≡ test.qualifier_word (view_lexeme lexeme.entry) }
{
    match lexeme {
        Lexeme::Keyword(Keyword::Const) => Some(Qualifier::Const),
        Lexeme::Keyword(Keyword::Volatile) => Some(Qualifier::Volatile),
        _ => None,
    }
}

/// The unary operator that a mark is before its operand, or none (C90 6.3.3).
pub fn prefix_operator(mark: Mark) -> Option<UnaryOperator>
    ensures { result ≡ test.prefix_operator mark }
{
    match mark {
        Mark::Ampersand => Some(UnaryOperator::Address),
        Mark::Star => Some(UnaryOperator::Dereference),
        Mark::Plus => Some(UnaryOperator::Plus),
        Mark::Minus => Some(UnaryOperator::Minus),
        Mark::Tilde => Some(UnaryOperator::Complement),
        Mark::Exclamation => Some(UnaryOperator::Not),
        Mark::Increment => Some(UnaryOperator::Increment),
        Mark::Decrement => Some(UnaryOperator::Decrement),
        _ => None,
    }
}

/// The level of what an operator takes behind it.
pub fn operand_level(operator: UnaryOperator) -> u8
    ensures { result ≡ operand_level operator }
{
    match operator {
        UnaryOperator::Increment | UnaryOperator::Decrement | UnaryOperator::Sizeof => 2,
        _ => 3,
    }
}

/// The operator that a mark is between two operands, the comma among them, or none (C90 6.3.5 to 6.3.14, 6.3.17).
pub fn binary_operator(mark: Mark) -> Option<BinaryOperator>
    ensures { result ≡ test.binary_operator mark }
{
    match mark {
        Mark::Star => Some(BinaryOperator::Multiply),
        Mark::Slash => Some(BinaryOperator::Divide),
        Mark::Percent => Some(BinaryOperator::Remainder),
        Mark::Plus => Some(BinaryOperator::Add),
        Mark::Minus => Some(BinaryOperator::Subtract),
        Mark::LeftShift => Some(BinaryOperator::LeftShift),
        Mark::RightShift => Some(BinaryOperator::RightShift),
        Mark::Less => Some(BinaryOperator::Less),
        Mark::Greater => Some(BinaryOperator::Greater),
        Mark::LessEqual => Some(BinaryOperator::LessEqual),
        Mark::GreaterEqual => Some(BinaryOperator::GreaterEqual),
        Mark::EqualEqual => Some(BinaryOperator::Equal),
        Mark::NotEqual => Some(BinaryOperator::NotEqual),
        Mark::Ampersand => Some(BinaryOperator::BitAnd),
        Mark::Caret => Some(BinaryOperator::BitXor),
        Mark::Bar => Some(BinaryOperator::BitOr),
        Mark::AndAnd => Some(BinaryOperator::And),
        Mark::BarBar => Some(BinaryOperator::Or),
        Mark::Comma => Some(BinaryOperator::Comma),
        _ => None,
    }
}

fn level_of(operator: BinaryOperator) -> u8
    ensures { result ≡ binary_level operator }
{
    match operator {
        BinaryOperator::Multiply | BinaryOperator::Divide | BinaryOperator::Remainder => 4,
        BinaryOperator::Add | BinaryOperator::Subtract => 5,
        BinaryOperator::LeftShift | BinaryOperator::RightShift => 6,
        BinaryOperator::Less
        | BinaryOperator::Greater
        | BinaryOperator::LessEqual
        | BinaryOperator::GreaterEqual => 7,
        BinaryOperator::Equal | BinaryOperator::NotEqual => 8,
        BinaryOperator::BitAnd => 9,
        BinaryOperator::BitXor => 10,
        BinaryOperator::BitOr => 11,
        BinaryOperator::And => 12,
        BinaryOperator::Or => 13,
        BinaryOperator::Comma => 16,
    }
}

fn of_level(level: u8, operator: Option<BinaryOperator>) -> Option<BinaryOperator>
    ensures { result ≡ test.of_level level operator }
{
    match operator {
        None => None,
        Some(operator) => {
            if level_of(operator) == level {
                Some(operator)
            } else {
                None
            }
        }
    }
}

/// The operator of a level that a token is.
pub fn operator_at(level: u8, lexeme: Lexeme<'_>) -> Option<BinaryOperator>
    ensures { result ≡ test.operator_at level (view_lexeme lexeme.entry) }
{
    match lexeme {
        Lexeme::Mark(mark) => of_level(level, binary_operator(mark)),
        _ => None,
    }
}

fn assign_operator(mark: Mark) -> Option<AssignOperator>
    ensures { result ≡ test.assign_operator mark }
{
    match mark {
        Mark::Equal => Some(AssignOperator::Plain),
        Mark::StarEqual => Some(AssignOperator::Multiply),
        Mark::SlashEqual => Some(AssignOperator::Divide),
        Mark::PercentEqual => Some(AssignOperator::Remainder),
        Mark::PlusEqual => Some(AssignOperator::Add),
        Mark::MinusEqual => Some(AssignOperator::Subtract),
        Mark::LeftShiftEqual => Some(AssignOperator::LeftShift),
        Mark::RightShiftEqual => Some(AssignOperator::RightShift),
        Mark::AmpersandEqual => Some(AssignOperator::BitAnd),
        Mark::CaretEqual => Some(AssignOperator::BitXor),
        Mark::BarEqual => Some(AssignOperator::BitOr),
        _ => None,
    }
}

/// The operator of assignment that a token is (C90 6.3.16).
pub fn assigns(lexeme: Lexeme<'_>) -> Option<AssignOperator>
    ensures { result ≡ test.assigns (view_lexeme lexeme.entry) }
{
    match lexeme {
        Lexeme::Mark(mark) => assign_operator(mark),
        _ => None,
    }
}

/// Whether a specifier is a type specifier (C90 6.5.2), and so neither a storage class nor a qualifier.
#[tactic(auto, unfolding(pw_tree::specs::Views::view_expr))]
pub fn is_type(specifier: &Specifier) -> bool
    ensures { result ≡ has_type (view_specifier specifier.now NoSpecifier) }
{
    !matches!(
        specifier,
        Specifier::Storage { .. } | Specifier::Qualifier { .. }
    )
}

#[tactic(auto, unfolding(pw_tree::specs::Views::view_expr))]
fn is_typedef(specifier: &Specifier) -> bool
    ensures { result ≡ has_typedef (view_specifier specifier.now NoSpecifier) }
{
    matches!(
        specifier,
        Specifier::Storage {
            class: StorageClass::Typedef,
            ..
        }
    )
}

/// A type specifier stands among the specifiers.
#[tactic(auto, using(crate::proofs::Types::any_type))]
pub fn has_type(specifiers: &[Specifier]) -> bool
    ensures { result ≡ has_type (view_specifiers specifiers.now) }
{
    let mut rest = specifiers;
    while let [first, after @ ..] = rest {
        if is_type(first) {
            return true;
        }
        rest = after;
    }
    false
}

/// `typedef` stands among the specifiers.
#[tactic(auto, using(crate::proofs::Types::any_typedef))]
pub fn has_typedef(specifiers: &[Specifier]) -> bool
    ensures { result ≡ has_typedef (view_specifiers specifiers.now) }
{
    let mut rest = specifiers;
    while let [first, after @ ..] = rest {
        if is_typedef(first) {
            return true;
        }
        rest = after;
    }
    false
}
