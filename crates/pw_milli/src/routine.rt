// The list of the routines.

ghost use Rattle.std.specs.Prelude.{◌≡◌, map};
ghost use Rattle.pw_milli.specs.Library.{listed, routines};

use crate::words;
use pw_value::program_names::{EXIT, GETCHAR, PUTCHAR};

/// A routine: its name, and its words in order.
#[derive(Clone, Copy)]
pub struct Routine {
    pub name: &'static [u8],
    pub words: &'static [u32],
}

static LIBRARY: [Routine; 8] = [
    Routine {
        name: EXIT,
        words: &words::EXIT,
    },
    Routine {
        name: GETCHAR,
        words: &words::GETCHAR,
    },
    Routine {
        name: PUTCHAR,
        words: &words::PUTCHAR,
    },
    Routine {
        name: b"$divs",
        words: &words::DIVS,
    },
    Routine {
        name: b"$divu",
        words: &words::DIVU,
    },
    Routine {
        name: b"$mul",
        words: &words::MUL,
    },
    Routine {
        name: b"$rems",
        words: &words::REMS,
    },
    Routine {
        name: b"$remu",
        words: &words::REMU,
    },
];

/// The eight routines, in the order in which a linked program has them. Takes no memory.
pub fn library() -> &'static [Routine]
    ensures { map listed result.now ≡ routines }
{
    &LIBRARY
}
