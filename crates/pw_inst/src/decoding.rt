// The instruction of a word.
ghost use Rattle.std.specs.Prelude.{◌≡◌, ◌↔◌, IsNone, IfSome};
ghost use Rattle.pw_inst.specs.declared.Inst.{Inst};
ghost use Rattle.pw_inst.specs.InstructionTable.{IsInRange, IsWordOf, word_of, decoded, system, three_register, long_immediate, compare, subtract_immediate, extract, deposit, branch_external, branch, memory};

use crate::Inst;
use crate::fields::{low_signed, read, register, signed};

/// The instruction of a word: the one whose fields are in range and whose word it is, and `None` exactly
/// where there is none. Takes no memory.
pub fn decode(word: u32) -> Option<Inst>
    ensures table { result ≡ decoded word }
    ensures found { IfSome result (IsWordOf word) }
    ensures none { IsNone result ↔ ((inst : Inst) → ¬ IsWordOf word inst) }
{
    decode_by_opcode(word)
}

/// Every instruction whose fields are in range is the one that its word is decoded to.
pub fn word_is_decoded_again()
    ensures { (inst : Inst) → IsInRange inst → decoded (word_of inst) ≡ Some inst }
{}

/// No two instructions whose fields are in range have one word.
pub fn words_differ()
    ensures { (a b : Inst) → IsInRange a → IsInRange b → word_of a ≡ word_of b → a ≡ b }
{}

#[tactic(auto, unfolding(crate::specs::InstructionTable::decoded, crate::specs::InstructionTable::form_of))]
fn decode_by_opcode(word: u32) -> Option<Inst>
    ensures { result ≡ decoded word }
{
    match read(word, 0, 6) {
        0x00 => decode_system(word),
        0x02 => decode_three_register(word),
        0x08 => Some(Inst::Ldil {
            im: decode_long_immediate(word),
            t: register(word, 6),
        }),
        opcode @ (0x20 | 0x22) => decode_compare(opcode, word),
        0x25 => decode_subtract_immediate(word),
        0x34 => decode_extract(word),
        0x35 => decode_deposit(word),
        0x39 => decode_branch_external(word),
        0x3a => decode_branch(word),
        opcode => decode_memory(opcode, word),
    }
}

#[tactic(auto, unfolding(crate::specs::InstructionTable::system))]
fn decode_system(word: u32) -> Option<Inst>
    ensures { result ≡ system word }
{
    if read(word, 19, 8) == 0 {
        Some(Inst::Break {
            im5: register(word, 27),
            im13: read(word, 6, 13) as u16,
        })
    } else if read(word, 6, 5) == 11 && read(word, 16, 16) == 0x1840 {
        Some(Inst::Mtctl {
            r: register(word, 11),
        })
    } else {
        None
    }
}

#[tactic(auto, unfolding(crate::specs::InstructionTable::three_register))]
fn decode_three_register(word: u32) -> Option<Inst>
    ensures { result ≡ three_register word }
{
    let r1 = register(word, 11);
    let r2 = register(word, 6);
    let t = register(word, 27);
    let c = read(word, 16, 3);
    match read(word, 20, 7) {
        0x44 if c < 6 => Some(Inst::Comclr {
            c: c as u8,
            f: read(word, 19, 1) == 1,
            r1,
            r2,
            t,
        }),
        0x44 => None,
        _ if read(word, 16, 4) != 0 => None,
        0x10 => Some(Inst::And { r1, r2, t }),
        0x12 => Some(Inst::Or { r1, r2, t }),
        0x14 => Some(Inst::Xor { r1, r2, t }),
        0x20 => Some(Inst::Sub { r1, r2, t }),
        0x50 => Some(Inst::Addl { r1, r2, t }),
        _ => None,
    }
}

#[tactic(auto, unfolding(crate::specs::InstructionTable::long_immediate))]
fn decode_long_immediate(word: u32) -> u32
    ensures value { result ≡ long_immediate word }
{
    (read(word, 31, 1) << 20)
        + (read(word, 20, 11) << 9)
        + (read(word, 16, 2) << 7)
        + (read(word, 11, 5) << 2)
        + read(word, 18, 2)
}

#[tactic(auto, unfolding(crate::specs::InstructionTable::compare))]
fn decode_compare(opcode: u32, word: u32) -> Option<Inst>
    ensures { result ≡ compare opcode word }
{
    let c = read(word, 16, 3);
    if c >= 6 || read(word, 30, 1) != 0 {
        return None;
    }
    let c = c as u8;
    let r1 = register(word, 11);
    let r2 = register(word, 6);
    let bits = (read(word, 31, 1) << 11) + (read(word, 29, 1) << 10) + read(word, 19, 10);
    let disp = signed(bits, 12);
    Some(if opcode == 0x20 {
        Inst::Combt { c, r1, r2, disp }
    } else {
        Inst::Combf { c, r1, r2, disp }
    })
}

#[tactic(auto, unfolding(crate::specs::InstructionTable::subtract_immediate))]
fn decode_subtract_immediate(word: u32) -> Option<Inst>
    ensures { result ≡ subtract_immediate word }
{
    if read(word, 16, 5) != 0 {
        return None;
    }
    let im = low_signed(read(word, 21, 11), 11);
    Some(Inst::Subi {
        im,
        r: register(word, 6),
        t: register(word, 11),
    })
}

#[tactic(auto, unfolding(crate::specs::InstructionTable::extract))]
fn decode_extract(word: u32) -> Option<Inst>
    ensures { result ≡ extract word }
{
    let r = register(word, 6);
    let t = register(word, 11);
    let p = register(word, 22);
    let len = 32 - register(word, 27);
    match read(word, 16, 6) {
        0 if p == 0 => Some(Inst::Vshd {
            r1: t,
            r2: r,
            t: register(word, 27),
        }),
        6 if len <= p + 1 => Some(Inst::Extru { r, p, len, t }),
        7 if len <= p + 1 => Some(Inst::Extrs { r, p, len, t }),
        _ => None,
    }
}

#[tactic(auto, unfolding(crate::specs::InstructionTable::deposit))]
fn decode_deposit(word: u32) -> Option<Inst>
    ensures { result ≡ deposit word }
{
    let p = 31 - register(word, 22);
    let len = 32 - register(word, 27);
    if read(word, 16, 6) == 2 && len <= p + 1 {
        Some(Inst::Zdep {
            r: register(word, 11),
            p,
            len,
            t: register(word, 6),
        })
    } else {
        None
    }
}

#[tactic(auto, unfolding(crate::specs::InstructionTable::branch_external))]
fn decode_branch_external(word: u32) -> Option<Inst>
    ensures { result ≡ branch_external word }
{
    if read(word, 11, 8) == 1 && read(word, 19, 11) == 0 && read(word, 31, 1) == 0 {
        Some(Inst::Ble {
            b: register(word, 6),
            n: read(word, 30, 1) == 1,
        })
    } else {
        None
    }
}

#[tactic(auto, unfolding(crate::specs::InstructionTable::branch))]
fn decode_branch(word: u32) -> Option<Inst>
    ensures { result ≡ branch word }
{
    let n = read(word, 30, 1) == 1;
    if read(word, 16, 3) == 0 {
        let bits = (read(word, 31, 1) << 16)
            + (read(word, 11, 5) << 11)
            + (read(word, 29, 1) << 10)
            + read(word, 19, 10);
        Some(Inst::Bl {
            disp: signed(bits, 17),
            t: register(word, 6),
            n,
        })
    } else if read(word, 11, 8) == 6 && read(word, 19, 11) == 0 && read(word, 31, 1) == 0 {
        Some(Inst::Bv {
            b: register(word, 6),
            n,
        })
    } else {
        None
    }
}

#[tactic(auto, unfolding(crate::specs::InstructionTable::memory))]
fn decode_memory(opcode: u32, word: u32) -> Option<Inst>
    ensures { result ≡ memory opcode word }
{
    if read(word, 16, 2) != 0 {
        return None;
    }
    let im = low_signed(read(word, 18, 14), 14);
    let b = register(word, 6);
    let r = register(word, 11);
    match opcode {
        0x0d => Some(Inst::Ldo { im, b, t: r }),
        0x10 => Some(Inst::Ldb { im, b, t: r }),
        0x11 => Some(Inst::Ldh { im, b, t: r }),
        0x12 => Some(Inst::Ldw { im, b, t: r }),
        0x18 => Some(Inst::Stb { r, im, b }),
        0x19 => Some(Inst::Sth { r, im, b }),
        0x1a => Some(Inst::Stw { r, im, b }),
        _ => None,
    }
}
