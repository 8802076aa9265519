//! Cases of pw_image: that an image is read and written again, and where the faults of damaged files are told.
//! The payload is written by hand.

use crate::cases::Case;
use pw_fields::frame::seal;
use pw_image::{DataItem, Image, KIND, Map, Memory, read_image, read_map, write_image};
use pw_rows::Text;
use pw_value::Name;
use std::process::Abort;

/// What is asked of files.
pub(crate) enum ImageCase {
    /// The image and then the map of the first bytes, so many, of the file of the payload, by the file's version and
    /// what its last byte is turned by.
    Framed(u32, usize, u8),
    /// The image of the file of the payload in which a byte is another.
    Damaged(usize, u8),
    /// The image of the file of the first bytes of the payload.
    Cut(usize),
    /// The image, and the map, in bytes.
    Image(&'static [u8]),
    /// The map of the image whose file these bytes are, in bytes.
    Map(&'static [u8]),
}

/// Two words, 16 bytes of data with `ab` at 0 and `cd` at 4, the names `exit`, `g` and `main`, the
/// functions `main` at 4,096 and `exit` at 4,100, and the object `g` at 4,104.
const PAYLOAD: [u8; 117] = [
    0, 0, 16, 0, 0, 0, 16, 0, 0, 0, 33, 0, 0, 0, 0, 2, 8, 0, 2, 64, 52, 28, 0, 2, 0, 0, 0, 16, 0,
    0, 0, 2, 0, 0, 0, 0, 0, 0, 0, 2, 97, 98, 0, 0, 0, 4, 0, 0, 0, 2, 99, 100, 0, 0, 0, 3, 0, 0, 0,
    4, 101, 120, 105, 116, 0, 0, 0, 1, 103, 0, 0, 0, 4, 109, 97, 105, 110, 0, 0, 0, 2, 0, 0, 0, 2,
    0, 0, 16, 0, 0, 0, 0, 64, 0, 0, 0, 0, 0, 0, 16, 4, 0, 0, 0, 0, 0, 0, 0, 1, 0, 0, 0, 1, 0, 0,
    16, 8,
];

/// The first bytes of a file of eleven bytes: its length is right, and its version is short.
const SHORT: [u8; 11] = [80, 65, 87, 73, 0, 0, 0, 11, 0, 0, 0];

/// Cases and their answers.
pub(crate) static CASES: [(ImageCase, &str); 29] = [
    (
        ImageCase::Framed(1, 161, 0),
        "true (4096, 4096, 8448, 16, [134218304, 874250242]) (0, [97, 98]) (4, [99, 100]) main [4096, 64] exit [4100, 0] g [4104];  main [4096, 64] exit [4100, 0] g [4104]",
    ),
    (ImageCase::Damaged(3, 1), "FileFault { at: 12 }"),
    (ImageCase::Damaged(8, 5), "FileFault { at: 20 }"),
    (ImageCase::Damaged(13, 1), "FileFault { at: 24 }"),
    (ImageCase::Damaged(25, 1), "FileFault { at: 36 }"),
    (ImageCase::Damaged(45, 1), "FileFault { at: 54 }"),
    (ImageCase::Damaged(45, 15), "FileFault { at: 58 }"),
    (ImageCase::Damaged(68, 97), "FileFault { at: 76 }"),
    (ImageCase::Damaged(84, 3), "FileFault { at: 93 }"),
    (ImageCase::Damaged(88, 8), "FileFault { at: 97 }"),
    (ImageCase::Damaged(96, 2), "FileFault { at: 68 }"),
    (ImageCase::Damaged(112, 0), "FileFault { at: 76 }"),
    (ImageCase::Damaged(29, 3), "FileFault { at: 64 }"),
    (ImageCase::Damaged(49, 13), "FileFault { at: 58 }"),
    (ImageCase::Damaged(55, 2), "FileFault { at: 85 }"),
    (ImageCase::Damaged(59, 0), "FileFault { at: 68 }"),
    (ImageCase::Damaged(58, 2), "FileFault { at: 68 }"),
    (ImageCase::Damaged(108, 2), "FileFault { at: 129 }"),
    (ImageCase::Damaged(112, 3), "FileFault { at: 121 }"),
    (ImageCase::Cut(0), "FileFault { at: 12 }"),
    (ImageCase::Cut(15), "FileFault { at: 12 }"),
    (ImageCase::Cut(16), "FileFault { at: 28 }"),
    (ImageCase::Cut(116), "FileFault { at: 125 }"),
    (
        ImageCase::Framed(1, 161, 1),
        "FileFault { at: 129 }; LoadFault { at: 129 }",
    ),
    (
        ImageCase::Framed(2, 161, 0),
        "FileFault { at: 8 }; LoadFault { at: 8 }",
    ),
    (
        ImageCase::Framed(1, 11, 0),
        "FileFault { at: 4 }; LoadFault { at: 4 }",
    ),
    (
        ImageCase::Framed(1, 3, 0),
        "FileFault { at: 0 }; LoadFault { at: 0 }",
    ),
    (ImageCase::Image(&SHORT), "FileFault { at: 8 }"),
    (ImageCase::Map(&PAYLOAD), "LoadFault { at: 0 }"),
];

impl Case for ImageCase {
    fn answer<R: Abort>(&self, rt: &R, text: &mut Text) {
        match self {
            ImageCase::Framed(version, len, turned) => {
                push_framed(rt, text, *version, *len, *turned)
            }
            ImageCase::Damaged(place, value) => push_damaged(rt, text, *place, *value),
            ImageCase::Cut(len) => push_sealed(rt, text, &PAYLOAD[..(*len).min(117)]),
            ImageCase::Image(file) => push_image(rt, text, *file),
            ImageCase::Map(file) => push_map(text, *file),
        }
    }
}

/// Adds the image and the map of the first bytes of the payload's file with its last byte turned.
fn push_framed(rt: &impl Abort, text: &mut Text, version: u32, len: usize, turned: u8) {
    let mut file = seal(text.alloc(), KIND, version, &PAYLOAD).expect(rt, "a file");
    if let Some(last) = file.last_mut() {
        *last ^= turned;
    }
    file.truncate(len);
    push_image(rt, text, &file);
    text.push(b"; ");
    push_map(text, &file);
}

/// Adds the image of the file of the payload in which a byte is another.
fn push_damaged(rt: &impl Abort, text: &mut Text, place: usize, value: u8) {
    let mut damaged = PAYLOAD;
    damaged[place % 117] = value;
    push_sealed(rt, text, &damaged);
}

/// Adds the image of the file of a payload.
fn push_sealed(rt: &impl Abort, text: &mut Text, payload: &[u8]) {
    assert!(rt; payload.len() <= 117);
    let file = seal(text.alloc(), KIND, 1, payload).expect(rt, "a file");
    push_image(rt, text, &file);
}

/// Adds the image in a file, and whether it is written as that file, or the fault.
fn push_image(rt: &impl Abort, text: &mut Text, file: &[u8]) {
    match read_image(text.alloc(), file) {
        Ok(image) => {
            let written = write_image(text.alloc(), &image).expect(rt, "a file");
            text.debug(&(written.as_slice() == file));
            push_content(text, &image);
        }
        Err(fault) => text.debug(&fault),
    }
}

/// Adds a name and its numbers.
fn push_place(text: &mut Text, name: &Name, numbers: &[u32]) {
    text.push(b" ");
    text.push(name.as_bytes());
    text.push(b" ");
    text.debug(&numbers);
}

/// Adds an item of the data: its offset and its bytes.
fn push_item(text: &mut Text, item: &DataItem) {
    text.push(b" ");
    text.debug(&(item.offset, item.bytes.as_slice()));
}

/// Adds the numbers and the words of a memory.
fn push_memory(text: &mut Text, memory: &Memory) {
    text.push(b" ");
    text.debug(&(
        memory.entry,
        memory.stack,
        memory.stack_end,
        memory.data_size,
        memory.words.as_slice(),
    ));
}

/// Adds what an image is, where it has as many items and names as the payload's.
fn push_content(text: &mut Text, image: &Image) {
    push_memory(text, &image.memory);
    let items = image.memory.items.as_slice();
    match (items, image.functions.as_slice(), image.globals.as_slice()) {
        ([first, second], [main, exit], [g]) => {
            push_item(text, first);
            push_item(text, second);
            push_place(text, &main.name, &[main.address, main.frame]);
            push_place(text, &exit.name, &[exit.address, exit.frame]);
            push_place(text, &g.name, &[g.address]);
        }
        _ => text.push(b" other counts"),
    }
}

/// Adds the map in a file, or the fault.
fn push_map(text: &mut Text, file: &[u8]) {
    match read_map(text.alloc(), file) {
        Ok(map) => push_places(text, &map),
        Err(fault) => text.debug(&fault),
    }
}

/// Adds what a map is, where it has as many names as the payload's.
fn push_places(text: &mut Text, map: &Map) {
    match (map.functions.as_slice(), map.globals.as_slice()) {
        ([main, exit], [g]) => {
            push_place(text, &main.0, &[main.1, main.2]);
            push_place(text, &exit.0, &[exit.1, exit.2]);
            push_place(text, &g.0, &[g.1]);
        }
        _ => text.push(b" other counts"),
    }
}
