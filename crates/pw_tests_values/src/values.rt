//! Cases of pw_value: that calls succeed, what the bytes of a value are, and that the definitions mean what C
//! and the machine mean. Answers are counted by hand.

use crate::cases::{Case, push_made};
use pw_rows::Text;
use pw_value::value::Byte::{Num, Piece, Undefined};
use pw_value::{
    Byte, Name, Pointer, Shape, Value, WordFault, agree, decode, decode_pointer, encode, words,
};
use std::alloc::Global;
use std::process::Abort;

/// What is asked of names, shapes, values and words.
pub(crate) enum ValueCase {
    /// How many bytes the name of so many bytes has.
    Length(usize),
    /// Whether the first name comes before the second, and whether it is equal to its copy.
    Before(&'static [u8], &'static [u8]),
    /// Whether the first shape agrees with the second, and the second with a copy of the first.
    Agree(&'static str, &'static str),
    /// The bytes in which each of `ENCODED` stands.
    Encoded,
    /// The value that stands in each of `DECODED`.
    Decoded,
    /// The pointer that stands in these bytes.
    DecodedPointer([Byte; 4]),
    /// What an operation on two words gives.
    Operated(Operation, u32, u32),
    /// Whether the first word is less and at most the second: as ints, then as unsigned ints.
    Ordered(u32, u32),
    /// The negation of a word as an int, and as an unsigned int.
    Negated(u32),
    /// The sum, the difference and the product of two words as unsigned ints.
    Unsigned(u32, u32),
}

/// An operation on two words.
#[derive(Clone, Copy)]
pub(crate) enum Operation {
    /// The sum of two ints.
    Sum,
    /// The difference of two ints.
    Difference,
    /// The product of two ints.
    Product,
    /// The quotient of two ints.
    Quotient,
    /// The remainder of two ints.
    Remainder,
    /// The quotient of two unsigned ints.
    UnsignedQuotient,
    /// The remainder of two unsigned ints.
    UnsignedRemainder,
    /// A word shifted left.
    Left,
    /// An int shifted right.
    Right,
    /// An unsigned int shifted right.
    UnsignedRight,
}

const P: Pointer = Pointer::Object(7, 12);

const Q: Pointer = Pointer::Function(7);

const ONES: [Byte; 4] = [Num(0xff), Num(0xff), Num(0xff), Num(0xff)];

const PIECES: [Byte; 4] = [Piece(P, 3), Piece(P, 3), Piece(P, 3), Piece(P, 3)];

/// Values and their widths.
const ENCODED: [(Value, u8); 7] = [
    (Value::Num(0x1234_5678), 4),
    (Value::Num(0x1234_5678), 2),
    (Value::Num(0x1234_5678), 1),
    (Value::Null, 4),
    (Value::At(P), 4),
    (Value::Piece(Q, 2), 1),
    (Value::Undefined, 2),
];

/// Bytes, and of what stands in them the width and whether it is signed.
const DECODED: [([Byte; 4], u8, bool); 9] = [
    (ONES, 1, true),
    (ONES, 1, false),
    (ONES, 2, false),
    ([Num(0x7f), Num(0), Num(0), Num(0)], 1, true),
    ([Num(0x80), Num(0), Num(0), Num(0)], 2, true),
    ([Num(0x80), Num(0), Num(0), Num(1)], 4, true),
    ([Num(1), Undefined, Undefined, Undefined], 2, false),
    (PIECES, 1, true),
    (PIECES, 2, true),
];

const LEAST: u32 = 0x8000_0000;

const GREATEST: u32 = 0x7fff_ffff;

/// -1, -2, -3 and -7 as words.
const M1: u32 = 0xffff_ffff;

const M2: u32 = 0xffff_fffe;

const M3: u32 = 0xffff_fffd;

const M7: u32 = 0xffff_fff9;

/// Cases and their answers.
pub(crate) static CASES: [(ValueCase, &str); 72] = [
    (ValueCase::Length(0), "Length"),
    (ValueCase::Length(1), "1"),
    (ValueCase::Length(2), "2"),
    (ValueCase::Length(400), "400"),
    (ValueCase::Length(401), "Length"),
    (ValueCase::Before(b"ab", b"b"), "(true, true)"),
    (ValueCase::Before(b"a", b"ab"), "(true, true)"),
    (ValueCase::Agree("i", "i"), "(true, true)"),
    (ValueCase::Agree("i", "j"), "(false, false)"),
    (ValueCase::Agree("[]i", "[3]i"), "(true, true)"),
    (ValueCase::Agree("[12]i", "[]i"), "(true, true)"),
    (ValueCase::Agree("[3]i", "[4]i"), "(false, false)"),
    (ValueCase::Agree("[]i", "[3]j"), "(false, false)"),
    (ValueCase::Agree("[]i", "[]i"), "(true, true)"),
    (ValueCase::Agree("[]i", "i"), "(false, false)"),
    (ValueCase::Agree("[]i", "[x]i"), "(false, false)"),
    (ValueCase::Agree("{4:[]i}", "{4:[1]i}"), "(false, false)"),
    (ValueCase::Agree("[2][]i", "[2][3]i"), "(false, false)"),
    (ValueCase::Agree("[][3]i", "[2][3]i"), "(true, true)"),
    (ValueCase::Agree("!i", "i"), "(false, false)"),
    (
        ValueCase::Encoded,
        "\
[Num(18), Num(52), Num(86), Num(120)]
[Num(86), Num(120), Undefined, Undefined]
[Num(120), Undefined, Undefined, Undefined]
[Num(0), Num(0), Num(0), Num(0)]
[Piece(Object(7, 12), 0), Piece(Object(7, 12), 1), Piece(Object(7, 12), 2), Piece(Object(7, 12), 3)]
[Piece(Function(7), 2), Undefined, Undefined, Undefined]
[Undefined, Undefined, Undefined, Undefined]
",
    ),
    (
        ValueCase::Decoded,
        "\
Num(4294967295)
Num(255)
Num(65535)
Num(127)
Num(4294934528)
Num(2147483649)
Undefined
Piece(Object(7, 12), 3)
Undefined
",
    ),
    (
        ValueCase::DecodedPointer([Piece(Q, 0), Piece(Q, 1), Piece(Q, 2), Piece(Q, 3)]),
        "At(Function(7))",
    ),
    (
        ValueCase::DecodedPointer([Piece(P, 0), Piece(Q, 1), Piece(P, 2), Piece(Q, 3)]),
        "Undefined",
    ),
    (
        ValueCase::DecodedPointer([Piece(P, 0), Piece(P, 0), Piece(P, 0), Piece(P, 0)]),
        "Undefined",
    ),
    (
        ValueCase::DecodedPointer([Num(0), Num(0), Num(0), Num(0)]),
        "Null",
    ),
    (
        ValueCase::DecodedPointer([Num(0), Num(0), Num(0), Num(1)]),
        "Undefined",
    ),
    (
        ValueCase::Operated(Operation::Sum, GREATEST, 1),
        "Err(Overflow)",
    ),
    (
        ValueCase::Operated(Operation::Sum, LEAST, M1),
        "Err(Overflow)",
    ),
    (
        ValueCase::Operated(Operation::Sum, GREATEST, LEAST),
        "Ok(4294967295)",
    ),
    (ValueCase::Operated(Operation::Sum, M3, 5), "Ok(2)"),
    (
        ValueCase::Operated(Operation::Difference, LEAST, 1),
        "Err(Overflow)",
    ),
    (
        ValueCase::Operated(Operation::Difference, 0, LEAST),
        "Err(Overflow)",
    ),
    (
        ValueCase::Operated(Operation::Difference, M1, LEAST),
        "Ok(2147483647)",
    ),
    (
        ValueCase::Operated(Operation::Difference, 2, 5),
        "Ok(4294967293)",
    ),
    (
        ValueCase::Operated(Operation::Product, 65536, 32768),
        "Err(Overflow)",
    ),
    (
        ValueCase::Operated(Operation::Product, 65536, 0xffff_8000),
        "Ok(2147483648)",
    ),
    (
        ValueCase::Operated(Operation::Product, LEAST, M1),
        "Err(Overflow)",
    ),
    (ValueCase::Operated(Operation::Product, M3, M7), "Ok(21)"),
    (
        ValueCase::Operated(Operation::Quotient, M7, 2),
        "Ok(4294967293)",
    ),
    (
        ValueCase::Operated(Operation::Quotient, 7, M2),
        "Ok(4294967293)",
    ),
    (ValueCase::Operated(Operation::Quotient, M7, M2), "Ok(3)"),
    (
        ValueCase::Operated(Operation::Quotient, LEAST, M1),
        "Err(Overflow)",
    ),
    (
        ValueCase::Operated(Operation::Quotient, LEAST, 0),
        "Err(ZeroDivisor)",
    ),
    (
        ValueCase::Operated(Operation::Remainder, M7, 2),
        "Ok(4294967295)",
    ),
    (ValueCase::Operated(Operation::Remainder, 7, M2), "Ok(1)"),
    (
        ValueCase::Operated(Operation::Remainder, LEAST, M1),
        "Err(Overflow)",
    ),
    (
        ValueCase::Operated(Operation::Remainder, 7, 0),
        "Err(ZeroDivisor)",
    ),
    (
        ValueCase::Operated(Operation::UnsignedQuotient, M7, 2),
        "Ok(2147483644)",
    ),
    (
        ValueCase::Operated(Operation::UnsignedQuotient, 7, 0),
        "Err(ZeroDivisor)",
    ),
    (
        ValueCase::Operated(Operation::UnsignedRemainder, M7, 10),
        "Ok(9)",
    ),
    (
        ValueCase::Operated(Operation::UnsignedRemainder, 7, 0),
        "Err(ZeroDivisor)",
    ),
    (
        ValueCase::Operated(Operation::Left, M3, 30),
        "Ok(1073741824)",
    ),
    (
        ValueCase::Operated(Operation::Left, 1, 32),
        "Err(ShiftCount)",
    ),
    (
        ValueCase::Operated(Operation::Left, 1, M1),
        "Err(ShiftCount)",
    ),
    (
        ValueCase::Operated(Operation::Right, M7, 1),
        "Ok(4294967292)",
    ),
    (
        ValueCase::Operated(Operation::Right, LEAST, 31),
        "Ok(4294967295)",
    ),
    (
        ValueCase::Operated(Operation::Right, 1, 32),
        "Err(ShiftCount)",
    ),
    (
        ValueCase::Operated(Operation::UnsignedRight, M7, 1),
        "Ok(2147483644)",
    ),
    (
        ValueCase::Operated(Operation::UnsignedRight, LEAST, M1),
        "Err(ShiftCount)",
    ),
    (ValueCase::Ordered(M1, 1), "[true, true, false, false]"),
    (ValueCase::Ordered(1, M1), "[false, false, true, true]"),
    (
        ValueCase::Ordered(LEAST, GREATEST),
        "[true, true, false, false]",
    ),
    (ValueCase::Ordered(M2, M1), "[true, true, true, true]"),
    (ValueCase::Ordered(M2, M2), "[false, true, false, true]"),
    (ValueCase::Negated(0), "(Ok(0), 0)"),
    (ValueCase::Negated(3), "(Ok(4294967293), 4294967293)"),
    (ValueCase::Negated(M7), "(Ok(7), 7)"),
    (ValueCase::Negated(LEAST), "(Err(Overflow), 2147483648)"),
    (ValueCase::Unsigned(M1, 2), "[1, 4294967293, 4294967294]"),
    (ValueCase::Unsigned(0, 7), "[7, 4294967289, 0]"),
    (ValueCase::Unsigned(65536, 65536), "[131072, 0, 0]"),
];

impl Case for ValueCase {
    fn answer<R: Abort>(&self, rt: &R, text: &mut Text) {
        match self {
            ValueCase::Length(count) => push_length(text, *count),
            ValueCase::Before(less, greater) => push_before(rt, text, *less, *greater),
            ValueCase::Agree(one, other) => push_agreement(rt, text, *one, *other),
            ValueCase::Encoded => push_encoded(text),
            ValueCase::Decoded => push_decoded(text),
            ValueCase::DecodedPointer(bytes) => push_made(text, decode_pointer(*bytes)),
            ValueCase::Operated(operation, a, b) => push_made(text, operated(*operation, *a, *b)),
            ValueCase::Ordered(a, b) => push_made(text, order(*a, *b)),
            ValueCase::Negated(a) => push_made(text, negations(*a)),
            ValueCase::Unsigned(a, b) => push_made(text, unsigned(*a, *b)),
        }
    }
}

/// The longest name and a byte more.
static LONG: [u8; 401] = [b'x'; 401];

/// Adds how many bytes the name of so many bytes has, or why there is none.
fn push_length(text: &mut Text, count: usize) {
    match Name::new(text.alloc(), &LONG[..count.min(401)]) {
        Ok(name) => text.display(&name.as_bytes().len()),
        Err(fault) => text.debug(&fault),
    }
}

/// Adds whether the first name comes before the second, and whether it is equal to its copy.
fn push_before(rt: &impl Abort, text: &mut Text, less: &[u8], greater: &[u8]) {
    let less = Name::new(text.alloc(), less).expect(rt, "a name");
    let greater = Name::new(text.alloc(), greater).expect(rt, "a name");
    let copy = less.copy(text.alloc()).expect(rt, "a copy");
    text.debug(&(less < greater, copy == less));
}

fn shape(rt: &impl Abort, alloc: Global, text: &str) -> Shape {
    Shape::new(Vec::from_slice(alloc, text.as_bytes()).expect(rt, "a shape"))
}

/// Adds whether the first shape agrees with the second, and the second with a copy of the first.
fn push_agreement(rt: &impl Abort, text: &mut Text, one: &str, other: &str) {
    let one = shape(rt, text.alloc(), one);
    let other = shape(rt, text.alloc(), other);
    let copy = one.copy(text.alloc()).expect(rt, "a copy");
    text.debug(&(agree(&one, &other), agree(&other, &copy)));
}

/// Adds the bytes in which each of `ENCODED` stands.
fn push_encoded(text: &mut Text) {
    for (value, width) in ENCODED {
        text.debug(&encode(value, width));
        text.push(b"\n");
    }
}

/// Adds the value that stands in each of `DECODED`.
fn push_decoded(text: &mut Text) {
    for (bytes, width, signed) in DECODED {
        text.debug(&decode(bytes, width, signed));
        text.push(b"\n");
    }
}

fn operated(operation: Operation, a: u32, b: u32) -> Result<u32, WordFault> {
    match operation {
        Operation::Sum => words::signed_sum(a, b),
        Operation::Difference => words::signed_difference(a, b),
        Operation::Product => words::signed_product(a, b),
        Operation::Quotient => words::signed_quotient(a, b),
        Operation::Remainder => words::signed_remainder(a, b),
        Operation::UnsignedQuotient => words::unsigned_quotient(a, b),
        Operation::UnsignedRemainder => words::unsigned_remainder(a, b),
        Operation::Left => words::shift_left(a, b),
        Operation::Right => words::signed_shift_right(a, b),
        Operation::UnsignedRight => words::unsigned_shift_right(a, b),
    }
}

fn order(a: u32, b: u32) -> [bool; 4] {
    [
        words::signed_less(a, b),
        words::signed_at_most(a, b),
        words::unsigned_less(a, b),
        words::unsigned_at_most(a, b),
    ]
}

fn negations(a: u32) -> (Result<u32, WordFault>, u32) {
    (words::signed_negation(a), words::unsigned_negation(a))
}

fn unsigned(a: u32, b: u32) -> [u32; 3] {
    [
        words::unsigned_sum(a, b),
        words::unsigned_difference(a, b),
        words::unsigned_product(a, b),
    ]
}
