//! Cases of the fields of files: what the bytes are, and where faults are told. Bytes are written by hand, and the
//! digest is that of `sha256sum`.

use crate::cases::{Case, push_made};
use pw_fields::frame::{check_digest, open, seal};
use pw_fields::names::{read_name, read_names, table_of};
use pw_fields::writing::{push_flag, push_text, push_u8, push_u32, push_u64};
use pw_fields::{read_flag, read_text, read_u8, read_u32, read_u64};
use pw_rows::Text;
use pw_value::Name;
use std::alloc::Global;
use std::process::Abort;

/// What is asked of the fields of files.
pub(crate) enum FieldCase {
    /// The bytes of the fields 171 of one byte, 0x01020304 of four, 0x05060708090a0b0c of eight, true and `hi`.
    Written,
    /// The number of one byte at the beginning of these, and what is behind it; so the next four with their fields.
    U8(&'static [u8]),
    /// The number of four bytes at the beginning of these, and what is behind it.
    U32(&'static [u8]),
    /// The number of eight bytes at the beginning of these, and what is behind it.
    U64(&'static [u8]),
    /// The truth value at the beginning of these, and what is behind it.
    Flag(&'static [u8]),
    /// The text at the beginning of these, and what is behind it.
    Text(&'static [u8]),
    /// The table of the name `b` and twice the name `a`.
    Table,
    /// The table of names at the beginning of these bytes, and what is behind it.
    Names(&'static [u8]),
    /// The name of `TABLE` whose index is at the beginning of these bytes, and what is behind it.
    Index(&'static [u8]),
    /// The file of the kind `KIND`, of version 1, with the payload `abc`.
    Sealed,
    /// The version, the payload and the end of the payload of the first bytes of `FILE`, so many, where the byte at a
    /// place is turned by a number.
    Opened(usize, usize, u8),
    /// Whether the digest of `FILE` is right, where the byte at a place is turned by a number.
    Digest(usize, u8),
}

/// The table of the names `a` and `b`.
const TABLE: [u8; 14] = [0, 0, 0, 2, 0, 0, 0, 1, 97, 0, 0, 0, 1, 98];

const KIND: u32 = 0x5445_5354;

/// The file of the kind `KIND`, of version 1, with the payload `abc`.
static FILE: [u8; 47] = [
    84, 69, 83, 84, 0, 0, 0, 47, 0, 0, 0, 1, 97, 98, 99, 105, 132, 108, 223, 110, 252, 241, 13,
    242, 192, 176, 60, 97, 133, 59, 164, 184, 77, 101, 199, 132, 64, 201, 180, 105, 222, 163, 94,
    225, 189, 89, 186,
];

/// Cases and their answers.
pub(crate) static CASES: [(FieldCase, &str); 33] = [
    (
        FieldCase::Written,
        "[171, 1, 2, 3, 4, 5, 6, 7, 8, 9, 10, 11, 12, 1, 0, 0, 0, 2, 104, 105]",
    ),
    (
        FieldCase::U8(&[
            171, 1, 2, 3, 4, 5, 6, 7, 8, 9, 10, 11, 12, 1, 0, 0, 0, 2, 104, 105,
        ]),
        "Ok((171, [1, 2, 3, 4, 5, 6, 7, 8, 9, 10, 11, 12, 1, 0, 0, 0, 2, 104, 105]))",
    ),
    (
        FieldCase::U32(&[
            1, 2, 3, 4, 5, 6, 7, 8, 9, 10, 11, 12, 1, 0, 0, 0, 2, 104, 105,
        ]),
        "Ok((16909060, [5, 6, 7, 8, 9, 10, 11, 12, 1, 0, 0, 0, 2, 104, 105]))",
    ),
    (
        FieldCase::U64(&[5, 6, 7, 8, 9, 10, 11, 12, 1, 0, 0, 0, 2, 104, 105]),
        "Ok((361984551142689548, [1, 0, 0, 0, 2, 104, 105]))",
    ),
    (
        FieldCase::Flag(&[1, 0, 0, 0, 2, 104, 105]),
        "Ok((true, [0, 0, 0, 2, 104, 105]))",
    ),
    (
        FieldCase::Text(&[0, 0, 0, 2, 104, 105]),
        "Ok(([104, 105], []))",
    ),
    (FieldCase::Flag(&[2, 1]), "Err(Fault { left: 2 })"),
    (FieldCase::U32(&[2, 1]), "Err(Fault { left: 2 })"),
    (
        FieldCase::Text(&[0, 0, 0, 3, 1, 2]),
        "Err(Fault { left: 6 })",
    ),
    (
        FieldCase::Table,
        "[Name { bytes: [97] }, Name { bytes: [98] }]",
    ),
    (
        FieldCase::Names(&TABLE),
        "Ok(([Name { bytes: [97] }, Name { bytes: [98] }], []))",
    ),
    (
        FieldCase::Names(&[0, 0, 0, 2, 0, 0, 0, 1, 98, 0, 0, 0, 1, 97]),
        "Err(Fault { left: 5 })",
    ),
    (
        FieldCase::Names(&[0, 0, 0, 2, 0, 0, 0, 1, 97, 0, 0, 0, 1, 97]),
        "Err(Fault { left: 5 })",
    ),
    (
        FieldCase::Names(&[0, 0, 0, 2, 0, 0, 0, 0, 97, 0, 0, 0, 1, 98]),
        "Err(Fault { left: 10 })",
    ),
    (
        FieldCase::Names(&[0, 0, 0, 3, 0, 0, 0, 1, 97, 0, 0, 0, 1, 98]),
        "Err(Fault { left: 0 })",
    ),
    (
        FieldCase::Index(&[0, 0, 0, 0, 9]),
        "Ok((Name { bytes: [97] }, [9]))",
    ),
    (
        FieldCase::Index(&[0, 0, 0, 1, 9]),
        "Ok((Name { bytes: [98] }, [9]))",
    ),
    (FieldCase::Index(&[0, 0, 0, 2, 9]), "Err(Fault { left: 5 })"),
    (
        FieldCase::Sealed,
        "Ok([84, 69, 83, 84, 0, 0, 0, 47, 0, 0, 0, 1, 97, 98, 99, 105, 132, 108, 223, 110, 252, 241, 13, 242, 192, 176, 60, 97, 133, 59, 164, 184, 77, 101, 199, 132, 64, 201, 180, 105, 222, 163, 94, 225, 189, 89, 186])",
    ),
    (FieldCase::Opened(47, 0, 0), "(1, [97, 98, 99], 15)"),
    (FieldCase::Opened(47, 3, 3), "FileFault { at: 0 }"),
    (FieldCase::Opened(47, 7, 3), "FileFault { at: 4 }"),
    (FieldCase::Opened(47, 4, 3), "FileFault { at: 4 }"),
    (FieldCase::Opened(47, 11, 3), "FileFault { at: 8 }"),
    (FieldCase::Opened(47, 8, 3), "FileFault { at: 8 }"),
    (FieldCase::Opened(0, 0, 0), "FileFault { at: 0 }"),
    (FieldCase::Opened(3, 0, 0), "FileFault { at: 0 }"),
    (FieldCase::Opened(11, 0, 0), "FileFault { at: 4 }"),
    (FieldCase::Opened(46, 0, 0), "FileFault { at: 4 }"),
    (FieldCase::Digest(0, 0), "Ok(())"),
    (FieldCase::Digest(12, 1), "Err(FileFault { at: 15 })"),
    (FieldCase::Digest(15, 1), "Err(FileFault { at: 15 })"),
    (FieldCase::Digest(46, 1), "Err(FileFault { at: 15 })"),
];

impl Case for FieldCase {
    fn answer<R: Abort>(&self, rt: &R, text: &mut Text) {
        let alloc = text.alloc();
        match self {
            FieldCase::Written => push_made(text, written(rt, alloc)),
            FieldCase::U8(bytes) => push_made(text, read_u8(*bytes)),
            FieldCase::U32(bytes) => push_made(text, read_u32(*bytes)),
            FieldCase::U64(bytes) => push_made(text, read_u64(*bytes)),
            FieldCase::Flag(bytes) => push_made(text, read_flag(*bytes)),
            FieldCase::Text(bytes) => push_made(text, read_text(alloc, *bytes)),
            FieldCase::Table => push_made(text, table(rt, alloc)),
            FieldCase::Names(bytes) => push_made(text, read_names(alloc, *bytes)),
            FieldCase::Index(bytes) => push_name_at(rt, text, *bytes),
            FieldCase::Sealed => push_made(text, seal(alloc, KIND, 1, b"abc")),
            FieldCase::Opened(len, place, turned) => push_opened(text, *len, *place, *turned),
            FieldCase::Digest(place, turned) => {
                push_made(text, check_digest(&damaged(*place, *turned), 15))
            }
        }
    }
}

fn written(rt: &impl Abort, alloc: Global) -> Vec<u8> {
    let mut out = Vec::new(alloc);
    push_u8(&mut out, 171).expect(rt, "memory");
    push_u32(&mut out, 0x0102_0304).expect(rt, "memory");
    push_u64(&mut out, 0x0506_0708_090a_0b0c).expect(rt, "memory");
    push_flag(&mut out, true).expect(rt, "memory");
    push_text(&mut out, b"hi").expect(rt, "memory");
    out
}

fn table(rt: &impl Abort, alloc: Global) -> Vec<Name> {
    let a = Name::new(alloc, b"a").expect(rt, "a name");
    let b = Name::new(alloc, b"b").expect(rt, "a name");
    let used = vec![in alloc; &b, &a, &a].expect(rt, "memory");
    table_of(alloc, used).expect(rt, "memory")
}

/// Adds the name of `TABLE` whose index is at the beginning of these bytes, and what is behind it.
fn push_name_at(rt: &impl Abort, text: &mut Text, bytes: &[u8]) {
    let (names, _behind) = read_names(text.alloc(), &TABLE).expect(rt, "a table");
    text.debug(&read_name(&names, bytes));
}

/// `FILE` with the byte at a place turned.
fn damaged(place: usize, turned: u8) -> [u8; 47] {
    let mut damaged = FILE;
    damaged[place % 47] ^= turned;
    damaged
}

/// Adds what is opened of the first bytes of `FILE` with the byte at a place turned.
fn push_opened(text: &mut Text, len: usize, place: usize, turned: u8) {
    let file = damaged(place, turned);
    match open(KIND, 1, 1, &file[..len.min(47)]) {
        Ok(opened) => text.debug(&(opened.version, opened.payload, opened.end)),
        Err(fault) => text.debug(&fault),
    }
}
