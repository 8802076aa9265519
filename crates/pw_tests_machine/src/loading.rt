//! Cases of pw_machine: images that are loaded and run, and damaged files. The files were written by hand, with
//! digests by another implementation of SHA-256.

use crate::cases::Case;
use crate::machines::{push_run, push_words};
use pw_machine::Machine;
use pw_rows::Text;
use std::process::Abort;

/// What is asked of files.
pub(crate) enum LoadCase {
    /// Where the program in a file begins, what it does in turns of so many steps, and the word at 4,136 then.
    Ran(&'static [u8], u64),
    /// The front, the steps, the stack and the words at `ADDRESSES` of the file `PROGRAM` in which a byte is another.
    Damaged(usize, u8),
    /// The same of the first bytes of a file of eleven.
    Short(usize),
}

/// One word, `BREAK 1,0`, and nothing else.
const BAD_BREAK: [u8; 84] = [
    80, 65, 87, 73, 0, 0, 0, 84, 0, 0, 0, 1, 0, 0, 16, 0, 0, 0, 16, 0, 0, 0, 32, 64, 0, 0, 0, 1, 0,
    0, 0, 1, 0, 0, 0, 0, 0, 0, 0, 0, 0, 0, 0, 0, 0, 0, 0, 0, 0, 0, 0, 0, 0, 42, 4, 251, 5, 187, 99,
    96, 109, 209, 246, 25, 44, 45, 111, 169, 222, 175, 61, 214, 34, 77, 5, 65, 63, 233, 49, 81, 21,
    221, 16, 87,
];

/// Eight words, entered at the second, and 16 bytes of data from 4,128 on, which have `ab` at 0 and the
/// word 42 at 4. The names are `g` at 4,128 and `main` at 4,100.
///   BREAK 1,0; LDIL 2,1; LDB 32(1),26; BREAK 0,2; LDW 36(1),26; STW 26,40(1); BREAK 0,3; NOP
const PROGRAM: [u8; 167] = [
    80, 65, 87, 73, 0, 0, 0, 167, 0, 0, 0, 1, 0, 0, 16, 4, 0, 0, 16, 0, 0, 0, 33, 0, 0, 0, 0, 8, 0,
    0, 0, 1, 32, 32, 32, 0, 64, 58, 0, 64, 0, 0, 64, 0, 72, 58, 0, 72, 104, 58, 0, 80, 0, 0, 96, 0,
    8, 0, 2, 64, 0, 0, 0, 16, 0, 0, 0, 2, 0, 0, 0, 0, 0, 0, 0, 2, 97, 98, 0, 0, 0, 4, 0, 0, 0, 4,
    0, 0, 0, 42, 0, 0, 0, 2, 0, 0, 0, 1, 103, 0, 0, 0, 4, 109, 97, 105, 110, 0, 0, 0, 1, 0, 0, 0,
    1, 0, 0, 16, 4, 0, 0, 0, 0, 0, 0, 0, 1, 0, 0, 0, 0, 0, 0, 16, 32, 254, 153, 27, 139, 13, 37,
    237, 88, 239, 98, 9, 115, 203, 42, 245, 242, 195, 125, 255, 247, 165, 190, 60, 228, 5, 239,
    102, 198, 75, 107, 201, 212,
];

/// The kind of an image's file, its length, 11, and three bytes of the version.
static SHORT: [u8; 11] = [80, 65, 87, 73, 0, 0, 0, 11, 0, 0, 0];

/// Addresses in the text, the data, and on both sides.
static ADDRESSES: [u32; 8] = [4092, 4096, 4100, 4124, 4128, 4132, 4136, 67_108_860];

/// Cases and their answers. The data start at 4,128 and end at 4,144, so that the stack begins at 4,224.
pub(crate) static CASES: [(LoadCase, &str); 39] = [
    (
        LoadCase::Ran(&BAD_BREAK, 100),
        "4096 Halted(BadBreak, 4096) 1 [] Some(0)",
    ),
    (LoadCase::Ran(&PROGRAM, 1), "4100 Ended(42) 6 [97] Some(42)"),
    (
        LoadCase::Ran(&PROGRAM, 100),
        "4100 Ended(42) 6 [97] Some(42)",
    ),
    (
        LoadCase::Damaged(0, 80),
        "(4100, 0, 4224) Some(0) Some(1) Some(538976256) Some(134218304) Some(1633812480) Some(42) Some(0) Some(0)",
    ),
    // kind, length, version
    (LoadCase::Damaged(0, 81), "LoadFault { at: 0 }"),
    (LoadCase::Damaged(7, 166), "LoadFault { at: 4 }"),
    (LoadCase::Damaged(11, 2), "LoadFault { at: 8 }"),
    // the entry is 4,097; the stack ends above the memory, and below the data
    (LoadCase::Damaged(15, 1), "LoadFault { at: 12 }"),
    (LoadCase::Damaged(20, 5), "LoadFault { at: 20 }"),
    (LoadCase::Damaged(22, 16), "LoadFault { at: 60 }"),
    // 65,544 words; a word, and the stack, that only the digest keeps
    (LoadCase::Damaged(25, 1), "LoadFault { at: 24 }"),
    (LoadCase::Damaged(31, 2), "LoadFault { at: 135 }"),
    (LoadCase::Damaged(19, 8), "LoadFault { at: 135 }"),
    // the data, the count of items, their offsets and their counts
    (LoadCase::Damaged(61, 1), "LoadFault { at: 60 }"),
    (LoadCase::Damaged(67, 3), "LoadFault { at: 90 }"),
    (LoadCase::Damaged(71, 18), "LoadFault { at: 68 }"),
    (LoadCase::Damaged(75, 17), "LoadFault { at: 72 }"),
    (LoadCase::Damaged(81, 1), "LoadFault { at: 78 }"),
    (LoadCase::Damaged(81, 17), "LoadFault { at: 78 }"),
    (LoadCase::Damaged(85, 13), "LoadFault { at: 82 }"),
    // the names: their count, an empty one, a long one, `z` before `main`, and none of `g`
    (LoadCase::Damaged(93, 1), "LoadFault { at: 103 }"),
    (LoadCase::Damaged(97, 0), "LoadFault { at: 94 }"),
    (LoadCase::Damaged(96, 2), "LoadFault { at: 94 }"),
    (LoadCase::Damaged(98, 122), "LoadFault { at: 99 }"),
    (LoadCase::Damaged(130, 1), "LoadFault { at: 94 }"),
    // the functions: their count, a name, an address, a frame
    (LoadCase::Damaged(110, 2), "LoadFault { at: 127 }"),
    (LoadCase::Damaged(114, 2), "LoadFault { at: 111 }"),
    (LoadCase::Damaged(118, 6), "LoadFault { at: 115 }"),
    (LoadCase::Damaged(122, 8), "LoadFault { at: 135 }"),
    // the global objects: their count, a name, an address
    (LoadCase::Damaged(126, 0), "LoadFault { at: 127 }"),
    (LoadCase::Damaged(126, 2), "LoadFault { at: 135 }"),
    (LoadCase::Damaged(130, 2), "LoadFault { at: 127 }"),
    (LoadCase::Damaged(134, 0), "LoadFault { at: 135 }"),
    // the digest
    (LoadCase::Damaged(166, 0), "LoadFault { at: 135 }"),
    // files that are too short
    (LoadCase::Short(0), "LoadFault { at: 0 }"),
    (LoadCase::Short(3), "LoadFault { at: 0 }"),
    (LoadCase::Short(7), "LoadFault { at: 4 }"),
    (LoadCase::Short(10), "LoadFault { at: 4 }"),
    (LoadCase::Short(11), "LoadFault { at: 8 }"),
];

impl Case for LoadCase {
    fn answer<R: Abort>(&self, rt: &R, text: &mut Text) {
        match self {
            LoadCase::Ran(file, budget) => push_ran(rt, text, *file, *budget),
            LoadCase::Damaged(place, byte) => push_damaged(text, *place, *byte),
            LoadCase::Short(len) => push_loaded(text, &SHORT[..(*len).min(11)]),
        }
    }
}

/// Adds where the program in a file begins, what it does, and a word of its memory then.
fn push_ran(rt: &impl Abort, text: &mut Text, file: &[u8], budget: u64) {
    let mut machine = Machine::load(text.alloc(), file).expect(rt, "a program");
    text.display(&machine.front());
    text.push(b" ");
    push_run(rt, text, &mut machine, "", budget);
    push_words(text, &machine, &[4136]);
}

/// Adds the machine that is loaded from `PROGRAM` in which a byte is another.
fn push_damaged(text: &mut Text, place: usize, byte: u8) {
    let mut damaged = PROGRAM;
    damaged[place % 167] = byte;
    push_loaded(text, &damaged);
}

/// Adds the machine that is loaded from bytes, or the fault.
fn push_loaded(text: &mut Text, file: &[u8]) {
    match Machine::load(text.alloc(), file) {
        Ok(machine) => {
            text.debug(&(machine.front(), machine.steps(), machine.reg(30)));
            push_words(text, &machine, &ADDRESSES);
        }
        Err(fault) => text.debug(&fault),
    }
}
