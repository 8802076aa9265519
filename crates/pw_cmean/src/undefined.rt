//! The operations that have no meaning, and that a run of a program can meet.

ghost use Rattle.std.specs.Prelude.{◌≡◌};
ghost use Rattle.pw_cmean.specs.Undefined.{text_of};

/// The undefined operations, in the order of their numbers, which begin at 1. Where one step meets several,
/// the one with the least number is told.
#[derive(Clone, Copy)]
pub enum Undef {
    /// A sum, difference, product, negation or quotient of signed integers that its type cannot hold.
    SignedOverflow,
    /// A quotient or remainder of a division by zero.
    ZeroDivisor,
    /// A count of a shift that is negative or no less than the width.
    ShiftCount,
    /// A read of a scalar with a byte that has no value.
    UndefinedValue,
    /// An access through a null pointer.
    NullPointer,
    /// An access that is not wholly inside its object.
    OutsideObject,
    /// An access, a comparison or arithmetic with a pointer to an object that has ended.
    EndedObject,
    /// An access at an offset that its alignment does not divide.
    Alignment,
    /// A write to a string literal or to an object that is defined const.
    ReadOnlyObject,
    /// Pointer arithmetic that leaves the object and the position behind it, or that starts from the null
    /// pointer or from a function.
    PointerArithmetic,
    /// An order or a difference of pointers that are not into one object.
    DifferentObjects,
    /// A difference of pointers that is no multiple of the size of an element, or whose elements have no bytes.
    PointerDifference,
    /// A call of a value that is no function.
    NotAFunction,
    /// A call of a function whose shape is not that of the call.
    FunctionShape,
    /// A use of the result of a function that returned none.
    MissingResult,
    /// A use of a byte of a pointer, or of bytes that are a part of one, as anything but a byte that is
    /// copied.
    PointerBytes,
    /// A copy of a structure or union onto one that it overlaps and is not.
    OverlappingCopy,
    /// An access of data through a pointer to a function.
    FunctionAccess,
}

/// How a message calls the operation.
pub fn undefined_text(kind: Undef) -> &'static str
    ensures { result.now ≡ text_of kind }
{
    match kind {
        Undef::SignedOverflow => "signed overflow",
        Undef::ZeroDivisor => "zero divisor",
        Undef::ShiftCount => "shift count",
        Undef::UndefinedValue => "undefined value",
        Undef::NullPointer => "null pointer",
        Undef::OutsideObject => "outside object",
        Undef::EndedObject => "ended object",
        Undef::Alignment => "alignment",
        Undef::ReadOnlyObject => "read-only object",
        Undef::PointerArithmetic => "pointer arithmetic",
        Undef::DifferentObjects => "pointers into different objects",
        Undef::PointerDifference => "pointer difference",
        Undef::NotAFunction => "not a function",
        Undef::FunctionShape => "function shape",
        Undef::MissingResult => "missing result",
        Undef::PointerBytes => "pointer bytes",
        Undef::OverlappingCopy => "overlapping copy",
        Undef::FunctionAccess => "function pointer access",
    }
}
