//! The undefined operations that a step is, of which the one with the least number is told.

ghost use Rattle.std.specs.Prelude.{◌≡◌, Some, if◌then◌else◌};
ghost use Rattle.pw_cmean.specs.Undefined.{number_of, lesser};

use pw_cmean::Undef;

/// The number of an operation, from 1 on.
fn number(operation: Undef) -> u8
    ensures { result ≡ number_of operation }
{
    match operation {
        Undef::SignedOverflow => 1,
        Undef::ZeroDivisor => 2,
        Undef::ShiftCount => 3,
        Undef::UndefinedValue => 4,
        Undef::NullPointer => 5,
        Undef::OutsideObject => 6,
        Undef::EndedObject => 7,
        Undef::Alignment => 8,
        Undef::ReadOnlyObject => 9,
        Undef::PointerArithmetic => 10,
        Undef::DifferentObjects => 11,
        Undef::PointerDifference => 12,
        Undef::NotAFunction => 13,
        Undef::FunctionShape => 14,
        Undef::MissingResult => 15,
        Undef::PointerBytes => 16,
        Undef::OverlappingCopy => 17,
        Undef::FunctionAccess => 18,
    }
}

/// The operation with the least number: of those of the rest, and this one where it holds.
pub(crate) fn when(operation: Undef, holds: bool, rest: Option<Undef>) -> Option<Undef>
    ensures { result ≡ (if holds then Some (lesser operation rest) else rest) }
{
    match rest {
        Some(other) if holds && number(other) < number(operation) => Some(other),
        _ if holds => Some(operation),
        _ => rest,
    }
}
