// The text of an instruction in a listing.
ghost use Rattle.std.specs.Prelude.{◌≡◌, IfOk};
ghost use Rattle.std.specs.String.{string_bytes};
ghost use Rattle.pw_inst.specs.InstructionTable.{IsInRange, IsCondition};
ghost use Rattle.pw_inst.specs.Listing.{target, condition, negated, nullification, load, store, registers, bit_field, compare_clear, compare_branch, branch_and_link, pair, subtract, register_branch, listed, mnemonic};

use crate::{Inst, NoMemory};
use std::alloc::Global;

/// The address to which a branch at an address goes, modulo 2^32: 8 further than its own, and four times
/// the displacement. Takes no memory.
pub fn target(address: u32, disp: i32) -> u32
    ensures { result ≡ target address disp }
{
    address
        .wrapping_add(8)
        .wrapping_add(disp.cast_unsigned().wrapping_mul(4))
}

/// The name of an instruction's form.
#[tactic(auto, unfolding(crate::specs::Listing::mnemonic))]
fn mnemonic(inst: Inst) -> &'static str
    ensures { result.now ≡ mnemonic inst }
{
    match inst {
        Inst::Ldb { .. } => "LDB",
        Inst::Ldh { .. } => "LDH",
        Inst::Ldw { .. } => "LDW",
        Inst::Ldo { .. } => "LDO",
        Inst::Stb { .. } => "STB",
        Inst::Sth { .. } => "STH",
        Inst::Stw { .. } => "STW",
        Inst::Ldil { .. } => "LDIL",
        Inst::And { .. } => "AND",
        Inst::Or { .. } => "OR",
        Inst::Xor { .. } => "XOR",
        Inst::Sub { .. } => "SUB",
        Inst::Addl { .. } => "ADDL",
        Inst::Vshd { .. } => "VSHD",
        Inst::Mtctl { .. } => "MTCTL",
        Inst::Comclr { .. } => "COMCLR",
        Inst::Subi { .. } => "SUBI",
        Inst::Extru { .. } => "EXTRU",
        Inst::Extrs { .. } => "EXTRS",
        Inst::Zdep { .. } => "ZDEP",
        Inst::Combt { .. } => "COMBT",
        Inst::Combf { .. } => "COMBF",
        Inst::Bl { .. } => "BL",
        Inst::Bv { .. } => "BV",
        Inst::Ble { .. } => "BLE",
        Inst::Break { .. } => "BREAK",
    }
}

/// The text of an instruction at an address, as a listing has it: `LDW -20(30),2`.
///
/// A branch shows its target as eight hexadecimal digits. Fails only where memory runs out.
#[tactic(auto, unfolding(crate::specs::Listing::listed, crate::specs::Listing::line, crate::specs::InstructionTable::IsInRange))]
pub fn text(alloc: Global, inst: Inst, address: u32) -> Result<String, NoMemory>
    requires { IsInRange inst }
    ensures { IfOk result (λ s. string_bytes s ≡ listed inst address) }
{
    let name = mnemonic(inst);
    match inst {
        Inst::Ldb { im, b, t } => load_text(alloc, name, im, b, t),
        Inst::Ldh { im, b, t } => load_text(alloc, name, im, b, t),
        Inst::Ldw { im, b, t } => load_text(alloc, name, im, b, t),
        Inst::Ldo { im, b, t } => load_text(alloc, name, im, b, t),
        Inst::Stb { r, im, b } => store_text(alloc, name, r, im, b),
        Inst::Sth { r, im, b } => store_text(alloc, name, r, im, b),
        Inst::Stw { r, im, b } => store_text(alloc, name, r, im, b),
        Inst::Ldil { im, t } => pair_text(alloc, name, im, u32::from(t)),
        Inst::And { r1, r2, t } => registers_text(alloc, name, r1, r2, t),
        Inst::Or { r1, r2, t } => registers_text(alloc, name, r1, r2, t),
        Inst::Xor { r1, r2, t } => registers_text(alloc, name, r1, r2, t),
        Inst::Sub { r1, r2, t } => registers_text(alloc, name, r1, r2, t),
        Inst::Addl { r1, r2, t } => registers_text(alloc, name, r1, r2, t),
        Inst::Vshd { r1, r2, t } => registers_text(alloc, name, r1, r2, t),
        Inst::Mtctl { r } => pair_text(alloc, name, u32::from(r), 11),
        Inst::Comclr { c, f, r1, r2, t } => compare_clear_text(alloc, name, c, f, r1, r2, t),
        Inst::Subi { im, r, t } => subtract_text(alloc, name, im, r, t),
        Inst::Extru { r, p, len, t } => bit_field_text(alloc, name, r, p, len, t),
        Inst::Extrs { r, p, len, t } => bit_field_text(alloc, name, r, p, len, t),
        Inst::Zdep { r, p, len, t } => bit_field_text(alloc, name, r, p, len, t),
        Inst::Combt { c, r1, r2, disp } => compare_branch_text(
            alloc,
            name,
            c,
            r1,
            r2,
            target(address, disp),
        ),
        Inst::Combf { c, r1, r2, disp } => compare_branch_text(
            alloc,
            name,
            c,
            r1,
            r2,
            target(address, disp),
        ),
        Inst::Bl { disp, t, n } => branch_and_link_text(alloc, name, n, target(address, disp), t),
        Inst::Bv { b, n } => register_branch_text(alloc, name, n, "", b),
        Inst::Ble { b, n } => register_branch_text(alloc, name, n, "4,", b),
        Inst::Break { im5, im13 } => pair_text(alloc, name, u32::from(im5), u32::from(im13)),
    }
}

fn pair_text(alloc: Global, name: &str, first: u32, second: u32) -> Result<String, NoMemory>
    ensures { IfOk result (λ s. string_bytes s ≡ pair name.now first second) }
{
    format!(in alloc; "{name} {first},{second}")
}

fn subtract_text(alloc: Global, name: &str, im: i32, r: u8, t: u8) -> Result<String, NoMemory>
    ensures { IfOk result (λ s. string_bytes s ≡ subtract name.now im r t) }
{
    format!(in alloc; "{name} {im},{r},{t}")
}

fn register_branch_text(
    alloc: Global,
    name: &str,
    n: bool,
    space: &str,
    b: u8,
) -> Result<String, NoMemory>
    ensures { IfOk result (λ s. string_bytes s ≡ register_branch name.now n space.now b) }
{
    format!(in alloc; "{name}{} 0({space}{b})", nullification_name(n))
}

fn load_text(alloc: Global, name: &str, im: i32, b: u8, t: u8) -> Result<String, NoMemory>
    ensures { IfOk result (λ s. string_bytes s ≡ load name.now im b t) }
{
    format!(in alloc; "{name} {im}({b}),{t}")
}

fn store_text(alloc: Global, name: &str, r: u8, im: i32, b: u8) -> Result<String, NoMemory>
    ensures { IfOk result (λ s. string_bytes s ≡ store name.now r im b) }
{
    format!(in alloc; "{name} {r},{im}({b})")
}

fn registers_text(alloc: Global, name: &str, r1: u8, r2: u8, t: u8) -> Result<String, NoMemory>
    ensures { IfOk result (λ s. string_bytes s ≡ registers name.now r1 r2 t) }
{
    format!(in alloc; "{name} {r1},{r2},{t}")
}

fn bit_field_text(
    alloc: Global,
    name: &str,
    r: u8,
    p: u8,
    len: u8,
    t: u8,
) -> Result<String, NoMemory>
    ensures { IfOk result (λ s. string_bytes s ≡ bit_field name.now r p len t) }
{
    format!(in alloc; "{name} {r},{p},{len},{t}")
}

fn compare_clear_text(
    alloc: Global,
    name: &str,
    c: u8,
    f: bool,
    r1: u8,
    r2: u8,
    t: u8,
) -> Result<String, NoMemory>
    requires { IsCondition c }
    ensures { IfOk result (λ s. string_bytes s ≡ compare_clear name.now c f r1 r2 t) }
{
    let condition = if f {
        negated_name(c)
    } else {
        condition_name(c)
    };
    format!(in alloc; "{name},{condition} {r1},{r2},{t}")
}

#[tactic(auto, using(crate::proofs::HexadecimalLemmas::hexadecimal_of_word))]
fn compare_branch_text(
    alloc: Global,
    name: &str,
    c: u8,
    r1: u8,
    r2: u8,
    to: u32,
) -> Result<String, NoMemory>
    requires { IsCondition c }
    ensures { IfOk result (λ s. string_bytes s ≡ compare_branch name.now c r1 r2 to) }
{
    format!(in alloc; "{name},{} {r1},{r2},{to:08x}", condition_name(c))
}

#[tactic(auto, using(crate::proofs::HexadecimalLemmas::hexadecimal_of_word))]
fn branch_and_link_text(
    alloc: Global,
    name: &str,
    n: bool,
    to: u32,
    t: u8,
) -> Result<String, NoMemory>
    ensures { IfOk result (λ s. string_bytes s ≡ branch_and_link name.now n to t) }
{
    format!(in alloc; "{name}{} {to:08x},{t}", nullification_name(n))
}

fn condition_name(c: u8) -> &'static str
    requires { IsCondition c }
    ensures { result.now ≡ condition c }
{
    match c {
        0 => "nv",
        1 => "=",
        2 => "<",
        3 => "<=",
        4 => "<<",
        _ => "<<=",
    }
}

fn negated_name(c: u8) -> &'static str
    requires { IsCondition c }
    ensures { result.now ≡ negated c }
{
    match c {
        0 => "tr",
        1 => "<>",
        2 => ">=",
        3 => ">",
        4 => ">>=",
        _ => ">>",
    }
}

fn nullification_name(n: bool) -> &'static str
    ensures { result.now ≡ nullification n }
{
    if n { ",n" } else { "" }
}
