//! Expressions, type names, specifiers and declarators, which hold one another (C90 6.3, 6.4, 6.5).
//!
//! A field `token` is the number of a token, counted from 1: the token that the node's comment names.

ghost use Rattle.std.specs.Prelude.{◌≡◌};
ghost use Rattle.pw_tree.specs.Symbols as spec;

use crate::operator::{Access, AssignOperator, BinaryOperator, StepOperator, UnaryOperator};
use pw_token::Keyword;

/// A token with bytes of its own: an identifier, a constant or a string literal, with its number.
#[derive(Drop)]
pub struct Word {
    pub token: usize,
    pub text: Vec<u8>,
}

/// An expression (C90 6.3).
#[cycle(expr)]
pub enum Expr {
    /// An identifier (6.3.1).
    Identifier(Word),
    /// An integer constant (6.1.3.2).
    Number(Word),
    /// A floating constant (6.1.3.1).
    Floating(Word),
    /// A character constant (6.1.3.4).
    Character(Word),
    /// A wide character constant or a wide string literal.
    Wide(Word),
    /// String literals that stand one behind another (6.1.4).
    Strings(Vec<Word>),
    /// An expression in parentheses (6.3.1), at its `(`.
    Paren {
        token: usize,
        inner: Box<Expr>,
    },
    /// A primary expression and what stands behind it, in the source's order (6.3.2).
    Postfix {
        operand: Box<Expr>,
        operations: Vec<PostfixOperation>,
    },
    /// An operator before its operand (6.3.3), at the operator.
    Unary {
        token: usize,
        operator: UnaryOperator,
        operand: Box<Expr>,
    },
    /// The size of a type (6.3.3.4), at `sizeof`.
    SizeofType {
        token: usize,
        named: Box<TypeName>,
    },
    /// A cast (6.3.4), at its `(`.
    Cast {
        token: usize,
        named: Box<TypeName>,
        operand: Box<Expr>,
    },
    /// Operands that operators of one precedence level join (6.3.5 to 6.3.14, 6.3.17).
    Chain {
        first: Box<Expr>,
        rest: Vec<Operation>,
    },
    /// A conditional (6.3.15), at its `?`.
    Conditional {
        token: usize,
        condition: Box<Expr>,
        chosen: Box<Expr>,
        otherwise: Box<Expr>,
    },
    /// An assignment (6.3.16), at its operator.
    Assign {
        token: usize,
        operator: AssignOperator,
        left: Box<Expr>,
        right: Box<Expr>,
    },
}

/// An operator of a chain with the operand behind it, at the operator.
#[cycle(expr)]
pub struct Operation {
    pub token: usize,
    pub operator: BinaryOperator,
    pub operand: Expr,
}

/// What stands behind a primary expression (C90 6.3.2).
#[cycle(expr)]
pub enum PostfixOperation {
    /// An index, at its `[`.
    Index {
        token: usize,
        index: Expr,
    },
    /// A call, at its `(`.
    Call {
        token: usize,
        arguments: Vec<Expr>,
    },
    /// A member, at its `.` or `->`.
    Member {
        token: usize,
        access: Access,
        name: Word,
    },
    /// `++` or `--`, at the operator.
    Step {
        token: usize,
        operator: StepOperator,
    },
}

/// A type name (C90 6.5.5): specifiers and a declarator without a name.
#[cycle(expr)]
pub struct TypeName {
    pub specifiers: Vec<Specifier>,
    pub declarator: Declarator,
}

/// A storage class (C90 6.5.1).
#[derive(Clone, Copy)]
pub enum StorageClass {
    /// `typedef`
    Typedef,
    /// `extern`
    Extern,
    /// `static`
    Static,
    /// `auto`
    Auto,
    /// `register`
    Register,
}

/// A type qualifier (C90 6.5.3).
#[derive(Clone, Copy, PartialEq, Eq)]
pub enum Qualifier {
    /// `const`
    Const,
    /// `volatile`
    Volatile,
}

/// A type specifier that is a keyword (C90 6.5.2).
#[derive(Clone, Copy)]
pub enum BasicType {
    /// `void`
    Void,
    /// `char`
    Char,
    /// `short`
    Short,
    /// `int`
    Int,
    /// `long`
    Long,
    /// `float`
    Float,
    /// `double`
    Double,
    /// `signed`
    Signed,
    /// `unsigned`
    Unsigned,
}

/// A structure or a union (C90 6.5.2.1).
#[derive(Clone, Copy)]
pub enum RecordKind {
    /// `struct`
    Struct,
    /// `union`
    Union,
}

/// One of the specifiers at the beginning of a declaration, in the source's order (C90 6.5).
#[cycle(expr)]
pub enum Specifier {
    /// A storage class (6.5.1), at its keyword.
    Storage {
        token: usize,
        class: StorageClass,
    },
    /// A type qualifier (6.5.3), at its keyword.
    Qualifier {
        token: usize,
        qualifier: Qualifier,
    },
    /// A type specifier that is this keyword alone (6.5.2).
    Basic {
        token: usize,
        basic: BasicType,
    },
    /// An identifier that is visible as a typedef name (6.5.6).
    TypedefName(Word),
    /// `struct` or `union` and a tag (6.5.2.3), at the keyword.
    RecordTag {
        token: usize,
        kind: RecordKind,
        tag: Word,
    },
    /// `struct` or `union` and its members in braces (6.5.2.1), at the keyword.
    Record {
        token: usize,
        kind: RecordKind,
        tag: Option<Word>,
        members: Vec<Member>,
    },
    /// `enum` and a tag (6.5.2.3), at the keyword.
    EnumTag {
        token: usize,
        tag: Word,
    },
    /// `enum` and its enumerators in braces (6.5.2.2), at the keyword.
    Enum {
        token: usize,
        tag: Option<Word>,
        enumerators: Vec<Enumerator>,
    },
}

/// A declaration of members (C90 6.5.2.1).
#[cycle(expr)]
pub struct Member {
    pub specifiers: Vec<Specifier>,
    pub declarators: Vec<MemberDeclarator>,
}

/// A member of a structure or union, as a declaration of members has it (C90 6.5.2.1).
#[cycle(expr)]
pub enum MemberDeclarator {
    /// A member that is no bit-field.
    Plain(Declarator),
    /// A bit-field, at its `:`.
    BitField {
        declarator: Declarator,
        token: usize,
        width: Expr,
    },
    /// A bit-field without a name, at its `:`.
    Padding {
        token: usize,
        width: Expr,
    },
}

/// An enumeration constant (C90 6.5.2.2).
#[cycle(expr)]
pub enum Enumerator {
    /// A name alone: its value is one more than that of the one before it, or 0.
    Plain(Word),
    /// A name with `=` and its value.
    Valued { name: Word, value: Expr },
}

/// A declarator (C90 6.5.4), or one without a name (6.5.5). In a type name or a parameter it may be empty.
#[cycle(expr)]
pub struct Declarator {
    pub pointers: Vec<Pointer>,
    pub core: Core,
    pub suffixes: Vec<Suffix>,
}

/// A `*` with the qualifiers behind it (C90 6.5.4.1), at the `*`.
#[derive(Drop)]
pub struct Pointer {
    pub token: usize,
    pub qualifiers: Vec<Qualifier>,
}

/// What stands between a declarator's pointers and its suffixes.
#[cycle(expr)]
pub enum Core {
    /// Nothing, in an abstract declarator (6.5.5).
    Absent,
    /// The declared identifier.
    Name(Word),
    /// A declarator in parentheses, at its `(`.
    Paren {
        token: usize,
        inner: Box<Declarator>,
    },
}

/// What stands behind a declarator's name (C90 6.5.4.2, 6.5.4.3).
#[cycle(expr)]
pub enum Suffix {
    /// An array, at its `[`.
    Array {
        token: usize,
        length: Expr,
    },
    /// An array without a length, at its `[`.
    OpenArray {
        token: usize,
    },
    /// A list of parameters, at its `(`. The empty list stands for `()`.
    Parameters {
        token: usize,
        parameters: Vec<Parameter>,
    },
    /// A list of parameters with `, ...` behind it, at its `(`.
    Variadic {
        token: usize,
        parameters: Vec<Parameter>,
    },
    /// A list of identifiers, at its `(`.
    Identifiers {
        token: usize,
        names: Vec<Word>,
    },
}

/// A parameter (C90 6.5.4.3): its declarator may have no name, and may be empty.
#[cycle(expr)]
pub struct Parameter {
    pub specifiers: Vec<Specifier>,
    pub declarator: Declarator,
}

impl StorageClass {
    /// The keyword that spells it.
    pub fn keyword(self) -> Keyword
        ensures { result ≡ spec.storage_word self }
    {
        match self {
            StorageClass::Typedef => Keyword::Typedef,
            StorageClass::Extern => Keyword::Extern,
            StorageClass::Static => Keyword::Static,
            StorageClass::Auto => Keyword::Auto,
            StorageClass::Register => Keyword::Register,
        }
    }
}

impl Qualifier {
    /// The keyword that spells it.
    pub fn keyword(self) -> Keyword
        ensures { result ≡ spec.qualifier_word self }
    {
        match self {
            Qualifier::Const => Keyword::Const,
            Qualifier::Volatile => Keyword::Volatile,
        }
    }
}

impl BasicType {
    /// The keyword that spells it.
    pub fn keyword(self) -> Keyword
        ensures { result ≡ spec.basic_word self }
    {
        match self {
            BasicType::Void => Keyword::Void,
            BasicType::Char => Keyword::Char,
            BasicType::Short => Keyword::Short,
            BasicType::Int => Keyword::Int,
            BasicType::Long => Keyword::Long,
            BasicType::Float => Keyword::Float,
            BasicType::Double => Keyword::Double,
            BasicType::Signed => Keyword::Signed,
            BasicType::Unsigned => Keyword::Unsigned,
        }
    }
}

impl RecordKind {
    /// The keyword that spells it.
    pub fn keyword(self) -> Keyword
        ensures { result ≡ spec.record_word self }
    {
        match self {
            RecordKind::Struct => Keyword::Struct,
            RecordKind::Union => Keyword::Union,
        }
    }
}

impl Drop for Expr {
    #[cycle(drop_expr)]
    fn drop(self) {
        match self {
            Expr::Identifier(_) => {}
            Expr::Number(_) => {}
            Expr::Floating(_) => {}
            Expr::Character(_) => {}
            Expr::Wide(_) => {}
            Expr::Strings(_) => {}
            Expr::Paren { token: _, inner: _ } => {}
            Expr::Postfix {
                operand: _,
                operations: _,
            } => {}
            Expr::Unary {
                token: _,
                operator: _,
                operand: _,
            } => {}
            Expr::SizeofType { token: _, named: _ } => {}
            Expr::Cast {
                token: _,
                named: _,
                operand: _,
            } => {}
            Expr::Chain { first: _, rest: _ } => {}
            Expr::Conditional {
                token: _,
                condition: _,
                chosen: _,
                otherwise: _,
            } => {}
            Expr::Assign {
                token: _,
                operator: _,
                left: _,
                right: _,
            } => {}
        }
    }
}

impl Drop for Operation {
    #[cycle(drop_expr)]
    fn drop(self) {
        let Operation {
            token: _,
            operator: _,
            operand: _,
        } = self;
    }
}

impl Drop for PostfixOperation {
    #[cycle(drop_expr)]
    fn drop(self) {
        match self {
            PostfixOperation::Index { token: _, index: _ } => {}
            PostfixOperation::Call {
                token: _,
                arguments: _,
            } => {}
            PostfixOperation::Member {
                token: _,
                access: _,
                name: _,
            } => {}
            PostfixOperation::Step {
                token: _,
                operator: _,
            } => {}
        }
    }
}

impl Drop for TypeName {
    #[cycle(drop_expr)]
    fn drop(self) {
        let TypeName {
            specifiers: _,
            declarator: _,
        } = self;
    }
}

impl Drop for Specifier {
    #[cycle(drop_expr)]
    fn drop(self) {
        match self {
            Specifier::Storage { token: _, class: _ } => {}
            Specifier::Qualifier {
                token: _,
                qualifier: _,
            } => {}
            Specifier::Basic { token: _, basic: _ } => {}
            Specifier::TypedefName(_) => {}
            Specifier::RecordTag {
                token: _,
                kind: _,
                tag: _,
            } => {}
            Specifier::Record {
                token: _,
                kind: _,
                tag: _,
                members: _,
            } => {}
            Specifier::EnumTag { token: _, tag: _ } => {}
            Specifier::Enum {
                token: _,
                tag: _,
                enumerators: _,
            } => {}
        }
    }
}

impl Drop for Member {
    #[cycle(drop_expr)]
    fn drop(self) {
        let Member {
            specifiers: _,
            declarators: _,
        } = self;
    }
}

impl Drop for MemberDeclarator {
    #[cycle(drop_expr)]
    fn drop(self) {
        match self {
            MemberDeclarator::Plain(_) => {}
            MemberDeclarator::BitField {
                declarator: _,
                token: _,
                width: _,
            } => {}
            MemberDeclarator::Padding { token: _, width: _ } => {}
        }
    }
}

impl Drop for Enumerator {
    #[cycle(drop_expr)]
    fn drop(self) {
        match self {
            Enumerator::Plain(_) => {}
            Enumerator::Valued { name: _, value: _ } => {}
        }
    }
}

impl Drop for Declarator {
    #[cycle(drop_expr)]
    fn drop(self) {
        let Declarator {
            pointers: _,
            core: _,
            suffixes: _,
        } = self;
    }
}

impl Drop for Core {
    #[cycle(drop_expr)]
    fn drop(self) {
        match self {
            Core::Absent => {}
            Core::Name(_) => {}
            Core::Paren { token: _, inner: _ } => {}
        }
    }
}

impl Drop for Suffix {
    #[cycle(drop_expr)]
    fn drop(self) {
        match self {
            Suffix::Array {
                token: _,
                length: _,
            } => {}
            Suffix::OpenArray { token: _ } => {}
            Suffix::Parameters {
                token: _,
                parameters: _,
            } => {}
            Suffix::Variadic {
                token: _,
                parameters: _,
            } => {}
            Suffix::Identifiers { token: _, names: _ } => {}
        }
    }
}

impl Drop for Parameter {
    #[cycle(drop_expr)]
    fn drop(self) {
        let Parameter {
            specifiers: _,
            declarator: _,
        } = self;
    }
}
