//! What a C program's expressions and objects hold, and how values stand in bytes.

/// What a pointer points to: an offset in bytes within the object of a number, or a function's place
/// among all function names in byte order. Objects are numbered in order of making, and no number is
/// given twice in a run.
#[derive(Clone, Copy, PartialEq, Eq, Debug)]
pub enum Pointer {
    Object(u128, u32),
    Function(u32),
}

/// A value of an expression: nothing that may be used, a number of 32 bits (a signed one in two's
/// complement), the null pointer, a pointer, or one byte of a pointer, counted from 0 at the left.
#[derive(Clone, Copy, PartialEq, Eq, Debug)]
pub enum Value {
    Undefined,
    Num(u32),
    Null,
    At(Pointer),
    Piece(Pointer, u8),
}

/// A byte of an object: undefined, a number, or one byte of a pointer, counted from 0 at the left.
#[derive(Clone, Copy, PartialEq, Eq, Debug)]
pub enum Byte {
    Undefined,
    Num(u8),
    Piece(Pointer, u8),
}

/// The kind of a scalar in memory: its width, and whether reading it extends the sign. Pointers and
/// numbers of four bytes are `W32`.
#[derive(Clone, Copy, Debug)]
pub enum Kind {
    S8,
    U8,
    S16,
    U16,
    W32,
}
