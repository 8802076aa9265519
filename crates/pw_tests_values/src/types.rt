//! Cases of pw_types: that calls succeed, and that the definitions mean what C means. The results of the usual
//! conversions, sizes, alignments and offsets are those of gcc for a 32-bit target; shapes are written by hand.

use crate::cases::{Case, push_made};
use pw_rows::Text;
use pw_types::{
    CType, IntKind, Layout, Member, QType, RecordKind, Signature, Types, are_object_types, convert,
    depth, is_object_type, layout, oversize, promote, record_content, shape, size, usual,
};
use pw_value::{Name, Pointer, Value};
use std::alloc::Global;
use std::process::Abort;

/// What is asked of types. Integer types are told by their letters in shapes.
pub(crate) enum TypeCase {
    /// What the usual conversions give of a type with each, in the order of `KINDS`.
    Usual(IntKind),
    /// What the promotions give.
    Promoted(IntKind),
    /// A value converted to an integer type.
    Converted(Value, IntKind),
    /// The shape of the type of a text; its size, its size and alignment together, its depth, the size of the first
    /// type in it that passes the limit, and whether an object can have it.
    Typed(&'static str),
    /// Of each of `RECORDS` its shape, its size and alignment, the offsets of its members and its depth.
    Records,
}

static KINDS: [IntKind; 9] = [
    IntKind::Char,
    IntKind::SChar,
    IntKind::UChar,
    IntKind::Short,
    IntKind::UShort,
    IntKind::Int,
    IntKind::UInt,
    IntKind::Long,
    IntKind::ULong,
];

const PIECE: Value = Value::Piece(Pointer::Function(1), 2);

/// Cases and their answers.
pub(crate) static CASES: [(TypeCase, &str); 52] = [
    (TypeCase::Usual(IntKind::Char), "iiiiiijlm"),
    (TypeCase::Usual(IntKind::SChar), "iiiiiijlm"),
    (TypeCase::Usual(IntKind::UChar), "iiiiiijlm"),
    (TypeCase::Usual(IntKind::Short), "iiiiiijlm"),
    (TypeCase::Usual(IntKind::UShort), "iiiiiijlm"),
    (TypeCase::Usual(IntKind::Int), "iiiiiijlm"),
    (TypeCase::Usual(IntKind::UInt), "jjjjjjjmm"),
    (TypeCase::Usual(IntKind::Long), "llllllmlm"),
    (TypeCase::Usual(IntKind::ULong), "mmmmmmmmm"),
    (TypeCase::Promoted(IntKind::Char), "i"),
    (TypeCase::Promoted(IntKind::SChar), "i"),
    (TypeCase::Promoted(IntKind::UChar), "i"),
    (TypeCase::Promoted(IntKind::Short), "i"),
    (TypeCase::Promoted(IntKind::UShort), "i"),
    (TypeCase::Promoted(IntKind::Int), "i"),
    (TypeCase::Promoted(IntKind::UInt), "j"),
    (TypeCase::Promoted(IntKind::Long), "l"),
    (TypeCase::Promoted(IntKind::ULong), "m"),
    (
        TypeCase::Converted(Value::Num(200), IntKind::Char),
        "Num(4294967240)",
    ),
    (
        TypeCase::Converted(Value::Num(200), IntKind::UChar),
        "Num(200)",
    ),
    (
        TypeCase::Converted(Value::Num(0xffff_ffff), IntKind::UShort),
        "Num(65535)",
    ),
    (
        TypeCase::Converted(Value::Num(0x1_8000), IntKind::Short),
        "Num(4294934528)",
    ),
    (
        TypeCase::Converted(Value::Num(0xffff_ffff), IntKind::Int),
        "Num(4294967295)",
    ),
    (
        TypeCase::Converted(PIECE, IntKind::SChar),
        "Piece(Function(1), 2)",
    ),
    (TypeCase::Converted(PIECE, IntKind::Int), "Undefined"),
    (TypeCase::Converted(Value::Null, IntKind::UInt), "Undefined"),
    (
        TypeCase::Typed("c"),
        "c (Some(1), Some((1, 1)), 0, None, true)",
    ),
    (
        TypeCase::Typed("a"),
        "a (Some(1), Some((1, 1)), 0, None, true)",
    ),
    (
        TypeCase::Typed("h"),
        "h (Some(1), Some((1, 1)), 0, None, true)",
    ),
    (
        TypeCase::Typed("s"),
        "s (Some(2), Some((2, 2)), 0, None, true)",
    ),
    (
        TypeCase::Typed("t"),
        "t (Some(2), Some((2, 2)), 0, None, true)",
    ),
    (
        TypeCase::Typed("i"),
        "i (Some(4), Some((4, 4)), 0, None, true)",
    ),
    (
        TypeCase::Typed("j"),
        "j (Some(4), Some((4, 4)), 0, None, true)",
    ),
    (
        TypeCase::Typed("l"),
        "l (Some(4), Some((4, 4)), 0, None, true)",
    ),
    (
        TypeCase::Typed("m"),
        "m (Some(4), Some((4, 4)), 0, None, true)",
    ),
    (TypeCase::Typed("v"), "v (None, None, 0, None, false)"),
    (
        TypeCase::Typed("ipk!"),
        "!p (Some(4), Some((4, 4)), 1, None, true)",
    ),
    (
        TypeCase::Typed("t6]"),
        "[6]t (Some(12), Some((12, 2)), 1, None, true)",
    ),
    (
        TypeCase::Typed("t6]o"),
        "[][6]t (None, None, 2, None, false)",
    ),
    (
        TypeCase::Typed("t!2]"),
        "[2]!t (Some(4), Some((4, 2)), 1, None, true)",
    ),
    (
        TypeCase::Typed("vt6]opc2f"),
        "fvpc (None, None, 4, None, false)",
    ),
    (TypeCase::Typed("0r"), " (None, None, 1, None, false)"),
    (
        TypeCase::Typed("0rp"),
        "p (Some(4), Some((4, 4)), 1, None, true)",
    ),
    (
        TypeCase::Typed("c1048576]"),
        "[1048576]c (Some(1048576), Some((1048576, 1)), 1, None, true)",
    ),
    (
        TypeCase::Typed("c1048577]"),
        "[1048577]c (Some(1048577), Some((1048577, 1)), 1, Some(1048577), false)",
    ),
    (
        TypeCase::Typed("c4294967295]"),
        "[4294967295]c (Some(4294967295), Some((4294967295, 1)), 1, Some(4294967295), false)",
    ),
    (
        TypeCase::Typed("c1048576]p"),
        "p (Some(4), Some((4, 4)), 2, None, true)",
    ),
    (
        TypeCase::Typed("c1048577]p"),
        "p (Some(4), Some((4, 4)), 2, Some(1048577), true)",
    ),
    (
        TypeCase::Typed("c4294967295]p"),
        "p (Some(4), Some((4, 4)), 2, Some(4294967295), true)",
    ),
    (
        TypeCase::Typed("i262144]262144]"),
        "[262144][262144]i (Some(274877906944), Some((4294967295, 4)), 2, Some(274877906944), false)",
    ),
    (
        TypeCase::Typed("i262144]262144]4294967295]"),
        "[4294967295][262144][262144]i (Some(18446744073709551615), Some((4294967295, 4)), 3, Some(274877906944), false)",
    ),
    (
        TypeCase::Records,
        "{12:c[3]si} (Some((12, 4)), [0, 2, 8], 2)\n{4:c!s} (Some((4, 2)), [0, 2], 1)\n<4:{4:c!s}i> (Some((4, 4)), [0, 0], 2)\n{20:c[3]{4:c!s}s<4:{4:c!s}i>} (Some((20, 4)), [0, 2, 14, 16], 3)\n",
    ),
];

/// Kinds of records and the types of their members. Each is the type of the next number:
///
///     struct { char a; short b[3]; int c; }
///     struct point { char a; volatile short b; }
///     union both { struct point p; int c; }
///     struct { char tag; struct point many[3]; short v; union both x; }
static RECORDS: [(RecordKind, &str); 4] = [
    (RecordKind::Structure, "cs3]i"),
    (RecordKind::Structure, "cs!"),
    (RecordKind::Union, "1ri"),
    (RecordKind::Structure, "c1r3]s2r"),
];

impl Case for TypeCase {
    fn answer<R: Abort>(&self, rt: &R, text: &mut Text) {
        match self {
            TypeCase::Usual(kind) => push_usual(text, *kind),
            TypeCase::Promoted(kind) => text.push(letter(promote(*kind))),
            TypeCase::Converted(value, kind) => push_made(text, convert(*value, *kind)),
            TypeCase::Typed(of) => push_type(rt, text, *of),
            TypeCase::Records => push_records(rt, text),
        }
    }
}

/// The letter of an integer type in shapes.
fn letter(kind: IntKind) -> &'static [u8] {
    match kind {
        IntKind::Char => b"c",
        IntKind::SChar => b"a",
        IntKind::UChar => b"h",
        IntKind::Short => b"s",
        IntKind::UShort => b"t",
        IntKind::Int => b"i",
        IntKind::UInt => b"j",
        IntKind::Long => b"l",
        IntKind::ULong => b"m",
    }
}

/// Adds what the usual conversions give of a type with each.
fn push_usual(text: &mut Text, one: IntKind) {
    for other in KINDS.iter() {
        text.push(letter(usual(one, *other)));
    }
}

/// The integer type of a letter in shapes.
fn kind_of(letter: u8) -> IntKind {
    match letter {
        b'c' => IntKind::Char,
        b'a' => IntKind::SChar,
        b'h' => IntKind::UChar,
        b's' => IntKind::Short,
        b't' => IntKind::UShort,
        b'i' => IntKind::Int,
        b'j' => IntKind::UInt,
        b'l' => IntKind::Long,
        _ => IntKind::ULong,
    }
}

/// The last type of a stack.
fn last(rt: &impl Abort, stack: &mut Vec<QType>) -> QType {
    stack.pop().expect(rt, "a type before")
}

/// The last type of a stack in a box.
fn boxed(rt: &impl Abort, alloc: Global, stack: &mut Vec<QType>) -> Box<QType> {
    Box::new(alloc, last(rt, stack)).expect(rt, "memory for a type")
}

/// A function of the last `count` types that returns the one before them.
fn function(rt: &impl Abort, alloc: Global, stack: &mut Vec<QType>, count: u32) -> CType {
    let mut params = Vec::new(alloc);
    for _param in 0..count {
        params.push(last(rt, stack)).expect(rt, "memory for a type");
    }
    params.reverse();
    let result = last(rt, stack);
    let signature = Box::new(alloc, Signature { result, params });
    CType::Function(signature.expect(rt, "memory for a type"))
}

fn plain(ty: CType) -> QType {
    QType {
        ty,
        constant: false,
        volatile: false,
    }
}

/// The type of a letter behind others, where the number before the letter is `number`; for `k` and `!` the last
/// type.
fn type_of(
    rt: &impl Abort,
    alloc: Global,
    stack: &mut Vec<QType>,
    number: u32,
    letter: u8,
) -> QType {
    match letter {
        b'k' | b'!' => last(rt, stack),
        b'v' => plain(CType::Void),
        b'p' => plain(CType::Pointer(boxed(rt, alloc, stack))),
        b']' => plain(CType::Array(boxed(rt, alloc, stack), Some(number))),
        b'o' => plain(CType::Array(boxed(rt, alloc, stack), None)),
        b'f' => plain(function(rt, alloc, stack, number)),
        b'r' => plain(CType::Record(number)),
        other => plain(CType::Int(kind_of(other))),
    }
}

/// Puts the type of a letter behind others; `k` and `!` make the last type `const` and `volatile`.
fn put(rt: &impl Abort, alloc: Global, stack: &mut Vec<QType>, number: u32, letter: u8) {
    let mut ty = type_of(rt, alloc, stack, number, letter);
    ty.constant = ty.constant || letter == b'k';
    ty.volatile = ty.volatile || letter == b'!';
    stack.push(ty).expect(rt, "memory for a type");
}

/// The types of a text, each written behind what it is made of: `c a h s t i j l m` are the integer
/// types, as shapes have them, and `v` is void; `p` is a pointer to the type before it, `12]` an array
/// of it and `o` one of unknown length, `2f` a function of the two types before it that returns the one
/// before them, `2r` the record of number 2.
fn types_of(rt: &impl Abort, alloc: Global, text: &str) -> Vec<QType> {
    let mut stack = Vec::new(alloc);
    let mut number: u32 = 0;
    for letter in text.as_bytes() {
        if letter.is_ascii_digit() {
            number = number
                .wrapping_mul(10)
                .wrapping_add(u32::from(letter.wrapping_sub(b'0')));
        } else {
            put(rt, alloc, &mut stack, number, *letter);
            number = 0;
        }
    }
    stack
}

/// A size and an alignment.
fn pair(laid: Option<Layout>) -> Option<(u32, u32)> {
    match laid {
        Some(laid) => Some((laid.size, laid.align)),
        None => None,
    }
}

/// Adds the shape of a type.
fn push_shape(rt: &impl Abort, text: &mut Text, types: &Types, ty: &QType) {
    let shape = shape(text.alloc(), types, ty).expect(rt, "a shape");
    text.push(shape.as_bytes());
    text.push(b" ");
}

/// Adds what is asked of a type.
fn push_facts(rt: &impl Abort, text: &mut Text, types: &Types, ty: &QType) {
    push_shape(rt, text, types, ty);
    text.debug(&(
        size(types, &ty.ty),
        pair(layout(types, &ty.ty)),
        depth(types, &ty.ty),
        oversize(types, &ty.ty),
        is_object_type(types, &ty.ty),
    ));
}

/// Adds what is asked of the type of a text, in a module without records.
fn push_type(rt: &impl Abort, text: &mut Text, of: &str) {
    let types = Types::new(text.alloc());
    let mut stack = types_of(rt, text.alloc(), of);
    let ty = last(rt, &mut stack);
    push_facts(rt, text, &types, &ty);
}

/// Members of these types.
fn members_of(rt: &impl Abort, alloc: Global, types: Vec<QType>) -> Vec<Member> {
    let mut members = Vec::new(alloc);
    for ty in types {
        let name = Name::new(alloc, b"m").expect(rt, "a name");
        members
            .push(Member { name, ty })
            .expect(rt, "memory for a member");
    }
    members
}

/// Declares one more record and defines it. One whose content is refused stays undefined, and so its row fails.
fn define(rt: &impl Abort, alloc: Global, types: &mut Types, kind: RecordKind, of: &str) -> u32 {
    let members = members_of(rt, alloc, types_of(rt, alloc, of));
    let number = types.declare(kind).expect(rt, "a record");
    assert!(rt; are_object_types(types, &members));
    if let Ok(content) = record_content(alloc, types, kind, members) {
        types.define(number, content);
    }
    number
}

/// The offsets of the members of a record.
fn offsets_of(types: &Types, number: u32) -> &[u32] {
    match types.record(number) {
        Some(record) => match &record.content {
            Some(content) => content.offsets.as_slice(),
            None => &[],
        },
        None => &[],
    }
}

/// Adds what is asked of a record.
fn push_record(rt: &impl Abort, text: &mut Text, types: &Types, number: u32) {
    let ty = plain(CType::Record(number));
    push_shape(rt, text, types, &ty);
    text.debug(&(
        pair(layout(types, &ty.ty)),
        offsets_of(types, number),
        depth(types, &ty.ty),
    ));
    text.push(b"\n");
}

/// Adds what is asked of the records, of each as soon as it is defined.
fn push_records(rt: &impl Abort, text: &mut Text) {
    let mut types = Types::new(text.alloc());
    for (kind, of) in RECORDS.iter() {
        let number = define(rt, text.alloc(), &mut types, *kind, *of);
        push_record(rt, text, &types, number);
    }
}
