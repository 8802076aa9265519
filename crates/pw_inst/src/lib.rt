//! Instruction words of PA-RISC 1.1, as far as this system's code uses them: 26 forms of instruction, the
//! word of each and the instruction of a word; the registers of the calling convention; and what stands
//! between instructions and words: the lines of a function, and relocations.
#![tactic(auto)]

mod computing;
mod decoding;
mod encoding;
mod fields;
mod limits;
mod line;
mod listing;
mod registers;
mod relocation;
mod setting;

pub use computing::actions_go_by_registers;
pub use decoding::{decode, word_is_decoded_again, words_differ};
pub use encoding::{NOP, encode, nop_is_an_instruction};
pub use limits::{NEAR_LEAST, NEAR_LIMIT, ROUTINE_COUNT, limits_of_instructions};
pub use line::Line;
pub use listing::{target, text};
pub use registers::{
    ANSWER, ARGUMENT, FIRST, HELP, RESULT, RETURN_ADDRESS, ROUTINE_LINK, SECOND, STACK_POINTER,
    registers_of_the_convention,
};
pub use relocation::{Fix, FixKind, Symbol};
pub use setting::{
    left_part, parts_make_the_address, right_part, set_branch, set_displacement,
    set_long_immediate, set_words_are_encodings,
};
pub use std::alloc::AllocError as NoMemory;

/// An instruction of PA-RISC 1.1, in one of the 26 forms that this system knows.
///
/// `b`, `t`, `r`, `r1` and `r2` are numbers of general registers, below 32: a base, a target and sources.
/// `c` is a condition on `r1` and `r2`, from 0 to 5: never, equal, signed less, signed less or equal,
/// unsigned less, unsigned less or equal. A displacement `disp` counts words: the target is the
/// instruction's own address + 8 + 4 * disp. A set `n` nullifies the next instruction.
#[derive(Clone, Copy)]
pub enum Inst {
    /// Loads the byte at `b` + `im`, extended by zeros. `im` is from -8192 to 8191.
    Ldb {
        im: i32,
        b: u8,
        t: u8,
    },
    /// Loads the half word at `b` + `im`, extended by zeros.
    Ldh {
        im: i32,
        b: u8,
        t: u8,
    },
    /// Loads the word at `b` + `im`.
    Ldw {
        im: i32,
        b: u8,
        t: u8,
    },
    /// Puts the sum `b` + `im` into `t`.
    Ldo {
        im: i32,
        b: u8,
        t: u8,
    },
    /// Stores the low byte of `r` at `b` + `im`.
    Stb {
        r: u8,
        im: i32,
        b: u8,
    },
    /// Stores the low half word of `r` at `b` + `im`.
    Sth {
        r: u8,
        im: i32,
        b: u8,
    },
    /// Stores `r` at `b` + `im`.
    Stw {
        r: u8,
        im: i32,
        b: u8,
    },
    /// Puts `im` * 2048 into `t`. `im` has 21 bits.
    Ldil {
        im: u32,
        t: u8,
    },
    /// Bitwise and.
    And {
        r1: u8,
        r2: u8,
        t: u8,
    },
    /// Bitwise or.
    Or {
        r1: u8,
        r2: u8,
        t: u8,
    },
    /// Bitwise exclusive or.
    Xor {
        r1: u8,
        r2: u8,
        t: u8,
    },
    /// `r1` - `r2`.
    Sub {
        r1: u8,
        r2: u8,
        t: u8,
    },
    /// `r1` + `r2`.
    Addl {
        r1: u8,
        r2: u8,
        t: u8,
    },
    /// The low word of the double word `r1`, `r2`, shifted right by the shift amount register.
    Vshd {
        r1: u8,
        r2: u8,
        t: u8,
    },
    /// Puts the low five bits of `r` into the shift amount register, control register 11.
    Mtctl {
        r: u8,
    },
    /// Puts 0 into `t`, and nullifies the next instruction where the condition, negated by `f`, holds.
    Comclr {
        c: u8,
        f: bool,
        r1: u8,
        r2: u8,
        t: u8,
    },
    /// `im` - `r`. `im` is from -1024 to 1023.
    Subi {
        im: i32,
        r: u8,
        t: u8,
    },
    /// The `len` bits of `r` that end at bit `p`, extended by zeros. `p` is below 32, and `len` from 1 to `p` + 1.
    Extru {
        r: u8,
        p: u8,
        len: u8,
        t: u8,
    },
    /// The `len` bits of `r` that end at bit `p`, extended by the sign.
    Extrs {
        r: u8,
        p: u8,
        len: u8,
        t: u8,
    },
    /// The low `len` bits of `r`, so that they end at bit `p`, the rest 0.
    Zdep {
        r: u8,
        p: u8,
        len: u8,
        t: u8,
    },
    /// Branches where the condition holds. `disp` is from -2048 to 2047.
    Combt {
        c: u8,
        r1: u8,
        r2: u8,
        disp: i32,
    },
    /// Branches where the condition does not hold.
    Combf {
        c: u8,
        r1: u8,
        r2: u8,
        disp: i32,
    },
    /// Branches, and puts the address to return to into `t`. `disp` is from -65536 to 65535.
    Bl {
        disp: i32,
        t: u8,
        n: bool,
    },
    /// Branches to the address in `b`.
    Bv {
        b: u8,
        n: bool,
    },
    /// Branches to the address in `b`, and puts the address to return to into register 31.
    Ble {
        b: u8,
        n: bool,
    },
    /// Stops or asks the system. `im5` is below 32 and `im13` below 8192.
    Break {
        im5: u8,
        im13: u16,
    },
}
