//! The keywords and the marks of the language.

ghost use Rattle.std.specs.Prelude.{◌≡◌};
ghost use Rattle.pw_token.specs.Words as spec;

use crate::bytes::byte_at;

/// A keyword (C90 6.1.1).
#[derive(Clone, Copy, PartialEq, Eq)]
pub enum Keyword {
    Auto,
    Break,
    Case,
    Char,
    Const,
    Continue,
    Default,
    Do,
    Double,
    Else,
    Enum,
    Extern,
    Float,
    For,
    Goto,
    If,
    Int,
    Long,
    Register,
    Return,
    Short,
    Signed,
    Sizeof,
    Static,
    Struct,
    Switch,
    Typedef,
    Union,
    Unsigned,
    Void,
    Volatile,
    While,
}

/// An operator but `sizeof`, or a punctuator (C90 6.1.5, 6.1.6), without `#` and `##`, which stand in directives alone.
#[derive(Clone, Copy, PartialEq, Eq)]
pub enum Mark {
    /// `[`
    OpenBracket,
    /// `]`
    CloseBracket,
    /// `(`
    OpenParen,
    /// `)`
    CloseParen,
    /// `.`
    Dot,
    /// `->`
    Arrow,
    /// `++`
    Increment,
    /// `--`
    Decrement,
    /// `&`
    Ampersand,
    /// `*`
    Star,
    /// `+`
    Plus,
    /// `-`
    Minus,
    /// `~`
    Tilde,
    /// `!`
    Exclamation,
    /// `/`
    Slash,
    /// `%`
    Percent,
    /// `<<`
    LeftShift,
    /// `>>`
    RightShift,
    /// `<`
    Less,
    /// `>`
    Greater,
    /// `<=`
    LessEqual,
    /// `>=`
    GreaterEqual,
    /// `==`
    EqualEqual,
    /// `!=`
    NotEqual,
    /// `^`
    Caret,
    /// `|`
    Bar,
    /// `&&`
    AndAnd,
    /// `||`
    BarBar,
    /// `?`
    Question,
    /// `:`
    Colon,
    /// `=`
    Equal,
    /// `*=`
    StarEqual,
    /// `/=`
    SlashEqual,
    /// `%=`
    PercentEqual,
    /// `+=`
    PlusEqual,
    /// `-=`
    MinusEqual,
    /// `<<=`
    LeftShiftEqual,
    /// `>>=`
    RightShiftEqual,
    /// `&=`
    AmpersandEqual,
    /// `^=`
    CaretEqual,
    /// `|=`
    BarEqual,
    /// `,`
    Comma,
    /// `{`
    OpenBrace,
    /// `}`
    CloseBrace,
    /// `;`
    Semicolon,
    /// `...`
    Ellipsis,
}

/// The keywords that begin with a byte.
fn keywords_from(first: u8) -> &'static [Keyword]
    ensures { result.now ≡ spec.starting_with spec.keyword_text first spec.all_keywords }
{
    match first {
        b'a' => &[Keyword::Auto],
        b'b' => &[Keyword::Break],
        b'c' => &[
            Keyword::Case,
            Keyword::Char,
            Keyword::Const,
            Keyword::Continue,
        ],
        b'd' => &[Keyword::Default, Keyword::Do, Keyword::Double],
        b'e' => &[Keyword::Else, Keyword::Enum, Keyword::Extern],
        b'f' => &[Keyword::Float, Keyword::For],
        b'g' => &[Keyword::Goto],
        b'i' => &[Keyword::If, Keyword::Int],
        b'l' => &[Keyword::Long],
        b'r' => &[Keyword::Register, Keyword::Return],
        b's' => &[
            Keyword::Short,
            Keyword::Signed,
            Keyword::Sizeof,
            Keyword::Static,
            Keyword::Struct,
            Keyword::Switch,
        ],
        b't' => &[Keyword::Typedef],
        b'u' => &[Keyword::Union, Keyword::Unsigned],
        b'v' => &[Keyword::Void, Keyword::Volatile],
        b'w' => &[Keyword::While],
        _ => &[],
    }
}

impl Keyword {
    /// How the keyword is spelled (C90 6.1.1), in ASCII.
    pub fn text(self) -> &'static [u8]
        ensures { result.now ≡ spec.keyword_text self }
    {
        match self {
            Keyword::Auto => b"auto",
            Keyword::Break => b"break",
            Keyword::Case => b"case",
            Keyword::Char => b"char",
            Keyword::Const => b"const",
            Keyword::Continue => b"continue",
            Keyword::Default => b"default",
            Keyword::Do => b"do",
            Keyword::Double => b"double",
            Keyword::Else => b"else",
            Keyword::Enum => b"enum",
            Keyword::Extern => b"extern",
            Keyword::Float => b"float",
            Keyword::For => b"for",
            Keyword::Goto => b"goto",
            Keyword::If => b"if",
            Keyword::Int => b"int",
            Keyword::Long => b"long",
            Keyword::Register => b"register",
            Keyword::Return => b"return",
            Keyword::Short => b"short",
            Keyword::Signed => b"signed",
            Keyword::Sizeof => b"sizeof",
            Keyword::Static => b"static",
            Keyword::Struct => b"struct",
            Keyword::Switch => b"switch",
            Keyword::Typedef => b"typedef",
            Keyword::Union => b"union",
            Keyword::Unsigned => b"unsigned",
            Keyword::Void => b"void",
            Keyword::Volatile => b"volatile",
            Keyword::While => b"while",
        }
    }

    /// The one with these bytes.
    #[tactic(auto, unfolding(crate::specs::Words::keyword_of))]
    pub fn with_text(text: &[u8]) -> Option<Keyword>
        ensures { result ≡ spec.keyword_of text.now }
    {
        let mut rest = keywords_from(byte_at(text, 0));
        while let [first, after @ ..] = rest {
            if text == first.text() {
                return Some(*first);
            }
            rest = after;
        }
        None
    }
}

/// The marks that begin with a byte.
pub fn marks_from(first: u8) -> &'static [Mark]
    ensures { result.now ≡ spec.starting_with spec.mark_text first spec.all_marks }
{
    match first {
        b'[' => &[Mark::OpenBracket],
        b']' => &[Mark::CloseBracket],
        b'(' => &[Mark::OpenParen],
        b')' => &[Mark::CloseParen],
        b'.' => &[Mark::Dot, Mark::Ellipsis],
        b'-' => &[Mark::Arrow, Mark::Decrement, Mark::Minus, Mark::MinusEqual],
        b'+' => &[Mark::Increment, Mark::Plus, Mark::PlusEqual],
        b'&' => &[Mark::Ampersand, Mark::AndAnd, Mark::AmpersandEqual],
        b'*' => &[Mark::Star, Mark::StarEqual],
        b'~' => &[Mark::Tilde],
        b'!' => &[Mark::Exclamation, Mark::NotEqual],
        b'/' => &[Mark::Slash, Mark::SlashEqual],
        b'%' => &[Mark::Percent, Mark::PercentEqual],
        b'<' => &[
            Mark::LeftShift,
            Mark::Less,
            Mark::LessEqual,
            Mark::LeftShiftEqual,
        ],
        b'>' => &[
            Mark::RightShift,
            Mark::Greater,
            Mark::GreaterEqual,
            Mark::RightShiftEqual,
        ],
        b'=' => &[Mark::EqualEqual, Mark::Equal],
        b'^' => &[Mark::Caret, Mark::CaretEqual],
        b'|' => &[Mark::Bar, Mark::BarBar, Mark::BarEqual],
        b'?' => &[Mark::Question],
        b':' => &[Mark::Colon],
        b',' => &[Mark::Comma],
        b'{' => &[Mark::OpenBrace],
        b'}' => &[Mark::CloseBrace],
        b';' => &[Mark::Semicolon],
        _ => &[],
    }
}

impl Mark {
    /// How the operator or punctuator is spelled (C90 6.1.5, 6.1.6), in ASCII.
    pub fn text(self) -> &'static [u8]
        ensures { result.now ≡ spec.mark_text self }
    {
        match self {
            Mark::OpenBracket => b"[",
            Mark::CloseBracket => b"]",
            Mark::OpenParen => b"(",
            Mark::CloseParen => b")",
            Mark::Dot => b".",
            Mark::Arrow => b"->",
            Mark::Increment => b"++",
            Mark::Decrement => b"--",
            Mark::Ampersand => b"&",
            Mark::Star => b"*",
            Mark::Plus => b"+",
            Mark::Minus => b"-",
            Mark::Tilde => b"~",
            Mark::Exclamation => b"!",
            Mark::Slash => b"/",
            Mark::Percent => b"%",
            Mark::LeftShift => b"<<",
            Mark::RightShift => b">>",
            Mark::Less => b"<",
            Mark::Greater => b">",
            Mark::LessEqual => b"<=",
            Mark::GreaterEqual => b">=",
            Mark::EqualEqual => b"==",
            Mark::NotEqual => b"!=",
            Mark::Caret => b"^",
            Mark::Bar => b"|",
            Mark::AndAnd => b"&&",
            Mark::BarBar => b"||",
            Mark::Question => b"?",
            Mark::Colon => b":",
            Mark::Equal => b"=",
            Mark::StarEqual => b"*=",
            Mark::SlashEqual => b"/=",
            Mark::PercentEqual => b"%=",
            Mark::PlusEqual => b"+=",
            Mark::MinusEqual => b"-=",
            Mark::LeftShiftEqual => b"<<=",
            Mark::RightShiftEqual => b">>=",
            Mark::AmpersandEqual => b"&=",
            Mark::CaretEqual => b"^=",
            Mark::BarEqual => b"|=",
            Mark::Comma => b",",
            Mark::OpenBrace => b"{",
            Mark::CloseBrace => b"}",
            Mark::Semicolon => b";",
            Mark::Ellipsis => b"...",
        }
    }

    /// The one with these bytes.
    #[tactic(auto, unfolding(crate::specs::Words::mark_of))]
    pub fn with_text(text: &[u8]) -> Option<Mark>
        ensures { result ≡ spec.mark_of text.now }
    {
        let mut rest = marks_from(byte_at(text, 0));
        while let [first, after @ ..] = rest {
            if text == first.text() {
                return Some(*first);
            }
            rest = after;
        }
        None
    }
}
