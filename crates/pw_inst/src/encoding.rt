// The word of an instruction.
ghost use Rattle.std.specs.Prelude.{◌≡◌, ◌+◌, ◌^◌, ◌<◌, ◌≤◌};
ghost use Rattle.pw_inst.specs.Fields.{at, IsSigned};
ghost use Rattle.pw_inst.specs.InstructionTable.{decoded, word_of, memory_word, long_immediate_word, three_register_word, extract_word, deposit_word, compare_word, branch_word, IsRegister, IsCondition, IsBitField, IsInRange, nop};

use crate::Inst;
use crate::fields::{low_sign, place, twos_complement};

/// The instruction that does nothing.
pub const NOP: Inst = Inst::Or { r1: 0, r2: 0, t: 0 };

/// It is the one of the instruction table, and its fields are in range.
#[tactic(auto, unfolding(crate::specs::InstructionTable::IsInRange))]
pub fn nop_is_an_instruction()
    ensures nop { NOP ≡ nop }
    ensures in_range { IsInRange nop }
{}

/// The word of an instruction whose fields are in range. Takes no memory.
pub fn encode(inst: Inst) -> u32
    requires { IsInRange inst }
    ensures table { result ≡ word_of inst }
    ensures again { decoded result ≡ Some inst }
{
    word(inst)
}

#[tactic(auto, unfolding(crate::specs::InstructionTable::word_of, crate::specs::InstructionTable::IsInRange))]
fn word(inst: Inst) -> u32
    requires { IsInRange inst }
    ensures { result ≡ word_of inst }
{
    match inst {
        Inst::Ldb { im, b, t } => encode_memory(0x10, b, t, im),
        Inst::Ldh { im, b, t } => encode_memory(0x11, b, t, im),
        Inst::Ldw { im, b, t } => encode_memory(0x12, b, t, im),
        Inst::Ldo { im, b, t } => encode_memory(0x0d, b, t, im),
        Inst::Stb { r, im, b } => encode_memory(0x18, b, r, im),
        Inst::Sth { r, im, b } => encode_memory(0x19, b, r, im),
        Inst::Stw { r, im, b } => encode_memory(0x1a, b, r, im),
        Inst::Ldil { im, t } => encode_long_immediate(im, t),
        Inst::And { r1, r2, t } => encode_three_register(0x10, 0, false, r1, r2, t),
        Inst::Or { r1, r2, t } => encode_three_register(0x12, 0, false, r1, r2, t),
        Inst::Xor { r1, r2, t } => encode_three_register(0x14, 0, false, r1, r2, t),
        Inst::Sub { r1, r2, t } => encode_three_register(0x20, 0, false, r1, r2, t),
        Inst::Addl { r1, r2, t } => encode_three_register(0x50, 0, false, r1, r2, t),
        Inst::Vshd { r1, r2, t } => place(0, 6, 0x34)
            + place_register(6, r2)
            + place_register(11, r1)
            + place_register(27, t),
        Inst::Mtctl { r } => place(6, 5, 11) + place_register(11, r) + place(16, 16, 0x1840),
        Inst::Comclr { c, f, r1, r2, t } => encode_three_register(0x44, c, f, r1, r2, t),
        Inst::Subi { im, r, t } => place(0, 6, 0x25)
            + place_register(6, r)
            + place_register(11, t)
            + place(21, 11, low_sign(im, 11)),
        Inst::Extru { r, p, len, t } => encode_extract(6, r, p, len, t),
        Inst::Extrs { r, p, len, t } => encode_extract(7, r, p, len, t),
        Inst::Zdep { r, p, len, t } => encode_deposit(r, p, len, t),
        Inst::Combt { c, r1, r2, disp } => encode_compare(0x20, c, r1, r2, disp),
        Inst::Combf { c, r1, r2, disp } => encode_compare(0x22, c, r1, r2, disp),
        Inst::Bl { disp, t, n } => encode_branch(disp, t, n),
        Inst::Bv { b, n } => place(0, 6, 0x3a)
            + place_register(6, b)
            + place(16, 3, 6)
            + place(30, 1, u32::from(n)),
        Inst::Ble { b, n } => place(0, 6, 0x39)
            + place_register(6, b)
            + place(16, 3, 1)
            + place(30, 1, u32::from(n)),
        Inst::Break { im5, im13 } => place(6, 13, u32::from(im13)) + place(27, 5, u32::from(im5)),
    }
}

/// The register's number in the five bits from bit `first` on.
#[inline(always)]
fn place_register(first: u32, r: u8) -> u32
    requires begins { first + 5 ≤ 32 }
    requires register { IsRegister r }
    ensures { result ≡ at first 5 r }
{
    place(first, 5, u32::from(r))
}

fn encode_memory(opcode: u32, b: u8, r: u8, im: i32) -> u32
    requires opcode { opcode < 64 }
    requires fields { IsSigned 14 im × IsRegister b × IsRegister r }
    ensures { result ≡ memory_word opcode b r im }
{
    place(0, 6, opcode)
        + place_register(6, b)
        + place_register(11, r)
        + place(18, 14, low_sign(im, 14))
}

fn encode_long_immediate(im: u32, t: u8) -> u32
    requires { (im < 2 ^ 21) × IsRegister t }
    ensures { result ≡ long_immediate_word im t }
{
    place(0, 6, 0x08)
        + place_register(6, t)
        + place(11, 5, im >> 2 & 31)
        + place(16, 2, im >> 7 & 3)
        + place(18, 2, im & 3)
        + place(20, 11, im >> 9 & 0x7ff)
        + place(31, 1, im >> 20)
}

fn encode_three_register(extension: u32, c: u8, f: bool, r1: u8, r2: u8, t: u8) -> u32
    requires extension { extension < 128 }
    requires fields { IsCondition c × IsRegister r1 × IsRegister r2 × IsRegister t }
    ensures { result ≡ three_register_word extension c f r1 r2 t }
{
    place(0, 6, 0x02)
        + place_register(6, r2)
        + place_register(11, r1)
        + place(16, 3, u32::from(c))
        + place(19, 1, u32::from(f))
        + place(20, 7, extension)
        + place_register(27, t)
}

fn encode_extract(extension: u32, r: u8, p: u8, len: u8, t: u8) -> u32
    requires extension { extension < 8 }
    requires fields { IsBitField p len × IsRegister r × IsRegister t }
    ensures { result ≡ extract_word extension r p len t }
{
    place(0, 6, 0x34)
        + place_register(6, r)
        + place_register(11, t)
        + place(19, 3, extension)
        + place_register(22, p)
        + place_register(27, 32 - len)
}

fn encode_deposit(r: u8, p: u8, len: u8, t: u8) -> u32
    requires { IsBitField p len × IsRegister r × IsRegister t }
    ensures { result ≡ deposit_word r p len t }
{
    place(0, 6, 0x35)
        + place_register(6, t)
        + place_register(11, r)
        + place(19, 3, 2)
        + place_register(22, 31 - p)
        + place_register(27, 32 - len)
}

fn encode_compare(opcode: u32, c: u8, r1: u8, r2: u8, disp: i32) -> u32
    requires opcode { opcode < 64 }
    requires fields { IsCondition c × IsRegister r1 × IsRegister r2 × IsSigned 12 disp }
    ensures { result ≡ compare_word opcode c r1 r2 disp }
{
    let w = twos_complement(disp, 12);
    place(0, 6, opcode)
        + place_register(6, r2)
        + place_register(11, r1)
        + place(16, 3, u32::from(c))
        + place(19, 10, w & 0x3ff)
        + place(29, 1, w >> 10 & 1)
        + place(31, 1, w >> 11)
}

fn encode_branch(disp: i32, t: u8, n: bool) -> u32
    requires { IsSigned 17 disp × IsRegister t }
    ensures { result ≡ branch_word disp t n }
{
    let w = twos_complement(disp, 17);
    place(0, 6, 0x3a)
        + place_register(6, t)
        + place(11, 5, w >> 11 & 31)
        + place(19, 10, w & 0x3ff)
        + place(29, 1, w >> 10 & 1)
        + place(30, 1, u32::from(n))
        + place(31, 1, w >> 16)
}
