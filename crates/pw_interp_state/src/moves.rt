//! Moves of a pointer within its object (ISO C90 6.3.6).

ghost use Rattle.std.specs.Prelude.{◌≡◌, ◌<◌, ◌^◌, ◌*ℤ◌, pos};
ghost use Rattle.pw_cmean.specs.Operators as meaning;
ghost use Rattle.pw_interp_state.specs.Moves.{bytes_by, turned};
ghost use Rattle.pw_interp_state.specs.Operations.{element_bytes};

use pw_types::IntKind;
use pw_value::Value;
use pw_value::words::{is_negative, magnitude};

/// A move by so many bytes, on or back.
#[derive(Clone, Copy)]
pub enum Move {
    /// So many bytes on.
    On(u64),
    /// So many bytes back.
    Back(u64),
}

/// The offset behind a move, in an object of so many bytes or directly behind it; else None.
#[tactic(auto, using(crate::proofs::MoveLemmas::further_back))]
pub(crate) fn kept(size: usize, offset: u32, way: Move) -> Option<u32>
    requires { size < 2 ^ 32 }
    ensures { result ≡ meaning.kept_in size (meaning.further offset (bytes_by way)) }
{
    let offset = u64::from(offset);
    let size = size as u64;
    match way {
        Move::On(bytes) if bytes <= size && offset + bytes <= size => Some((offset + bytes) as u32),
        Move::Back(bytes) if bytes <= offset && offset - bytes <= size => {
            Some((offset - bytes) as u32)
        }
        Move::On(_) | Move::Back(_) => None,
    }
}

/// The move by so many bytes, back or on.
fn move_of(back: bool, bytes: u64) -> Move
    ensures { bytes_by result ≡ turned back (pos bytes) }
{
    if back {
        Move::Back(bytes)
    } else {
        Move::On(bytes)
    }
}

/// The move by so many elements of a size, or against it: the number is a word of its kind. What is no number
/// moves by nothing.
pub(crate) fn element_move(back: bool, kind: IntKind, count: Value, size: u32) -> Move
    ensures { bytes_by result ≡ element_bytes back kind count size }
{
    match count {
        Value::Num(n) => word_move(back, kind, n, size),
        Value::Undefined | Value::Null | Value::At(_) | Value::Piece(_, _) => no_move(back, size),
    }
}

/// The move by no elements.
#[tactic(auto, using(crate::proofs::MoveLemmas::element_none))]
fn no_move(back: bool, size: u32) -> Move
    ensures { bytes_by result ≡ turned back (pos 0 *ℤ pos size) }
{
    Move::On(0)
}

/// The move by as many elements as a word of a kind says.
fn word_move(back: bool, kind: IntKind, n: u32, size: u32) -> Move
    ensures { bytes_by result ≡ element_bytes back kind (Value.Num n) size }
{
    let negative = is_negative(kind.is_signed(), n);
    let bytes = magnitude(negative, n) * u64::from(size);
    move_of(if back { !negative } else { negative }, bytes)
}
