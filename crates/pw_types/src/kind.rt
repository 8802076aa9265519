//! The integer types, and the conversions between them.

ghost use Rattle.std.specs.Prelude.{◌≡◌, ◌↔◌, ◌≤◌, IsTrue, ◌<◌, ◌-◌, ◌*◌, ◌^◌, nat_le, if◌then◌else◌};
ghost use Rattle.pw_types.specs.Conversions as spec;
ghost use Rattle.pw_value.specs.Values as values;

use pw_value::Value;

/// The integer types (ISO C90 6.1.2.5). A plain `char` is signed, `long` has the size of `int`, and an
/// enumerated type is `int`.
#[derive(Clone, Copy)]
pub enum IntKind {
    /// `char`
    Char,
    /// `signed char`
    SChar,
    /// `unsigned char`
    UChar,
    /// `short`
    Short,
    /// `unsigned short`
    UShort,
    /// `int`, or an enumerated type
    Int,
    /// `unsigned int`
    UInt,
    /// `long`
    Long,
    /// `unsigned long`
    ULong,
}

impl IntKind {
    /// The size in bytes, which is the alignment too: 1, 2 or 4.
    pub fn size(self) -> u8
        ensures size { result ≡ spec.size_of_kind self }
        ensures width { values.IsWidth result }
    {
        match self {
            IntKind::Char | IntKind::SChar | IntKind::UChar => 1,
            IntKind::Short | IntKind::UShort => 2,
            IntKind::Int | IntKind::UInt | IntKind::Long | IntKind::ULong => 4,
        }
    }

    /// Whether the type has negative values.
    pub fn is_signed(self) -> bool
        ensures { result ≡ spec.is_signed_kind self }
    {
        match self {
            IntKind::Char | IntKind::SChar | IntKind::Short | IntKind::Int | IntKind::Long => true,
            IntKind::UChar | IntKind::UShort | IntKind::UInt | IntKind::ULong => false,
        }
    }
}

/// The type that the integer promotions give (ISO C90 6.2.1.1).
pub fn promote(kind: IntKind) -> IntKind
    ensures { result ≡ spec.promoted kind }
{
    match kind {
        IntKind::UInt => IntKind::UInt,
        IntKind::Long => IntKind::Long,
        IntKind::ULong => IntKind::ULong,
        _ => IntKind::Int,
    }
}

/// The type that the usual arithmetic conversions give to two operands (ISO C90 6.2.1.5).
pub fn usual(a: IntKind, b: IntKind) -> IntKind
    ensures { result ≡ spec.usual_of a b }
{
    match (a, b) {
        (IntKind::ULong, _) | (_, IntKind::ULong) => IntKind::ULong,
        (IntKind::Long, IntKind::UInt) | (IntKind::UInt, IntKind::Long) => IntKind::ULong,
        (IntKind::Long, _) | (_, IntKind::Long) => IntKind::Long,
        (IntKind::UInt, _) | (_, IntKind::UInt) => IntKind::UInt,
        _ => IntKind::Int,
    }
}

/// The value converted to an integer type, with its low bits where the type cannot hold it (ISO C90
/// 6.2.1.2). Undefined for every value that is neither a number nor a piece of a pointer that is
/// converted to a character type.
pub fn convert(value: Value, to: IntKind) -> Value
    ensures { result ≡ spec.converted value to }
{
    match value {
        Value::Num(n) => Value::Num(narrow(n, to)),
        Value::Piece(p, i) if to.size() == 1 => Value::Piece(p, i),
        _ => Value::Undefined,
    }
}

/// The low bits of a word, extended from the type.
fn narrow(n: u32, to: IntKind) -> u32
    ensures { Value.Num result ≡ spec.converted (Value.Num n) to }
{
    match to {
        IntKind::Char | IntKind::SChar => extend(n % 256, 256),
        IntKind::UChar => n % 256,
        IntKind::Short => extend(n % 65536, 65536),
        IntKind::UShort => n % 65536,
        IntKind::Int | IntKind::UInt | IntKind::Long | IntKind::ULong => n,
    }
}

/// The number below `range` as a word, where its upper half stands for negative numbers.
fn extend(n: u32, range: u32) -> u32
    requires { (n < range) × (range ≤ 65536) }
    ensures { result ≡ (if nat_le range (2 * n) then 2 ^ 32 - (range - n) else n) }
{
    if n >= range / 2 + range % 2 {
        n + (u32::MAX - (range - 1))
    } else {
        n
    }
}
