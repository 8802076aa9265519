//! Arithmetic on registers.

ghost use Rattle.std.specs.Prelude.{◌≡◌, ◌++◌, OnOk};
ghost use Rattle.pw_select_lines.specs.Arithmetic.{unary_word, compared, routine_of, binary_lines, extension_word, with_two, routine_result, by_routine, binary_by};

use crate::registers::{put, put_copy, put_loaded, put_operand, put_result, result_register};
use pw_alloc::Place;
use pw_flow::{BinKind, ExtKind, UnKind};
use pw_inst::{ARGUMENT, FIRST, HELP, Inst, Line, RESULT, ROUTINE_LINK, SECOND, Symbol};
use pw_items::Items;
use std::alloc::AllocError;

/// The instruction of an operation on one number.
pub fn unary_word(kind: UnKind, a: u8, d: u8) -> Inst
    ensures { result ≡ unary_word kind a d }
{
    match kind {
        UnKind::Neg => Inst::Sub { r1: 0, r2: a, t: d },
        UnKind::Not => Inst::Subi { im: -1, r: a, t: d },
    }
}

/// The instruction that extends the low bits of a number.
pub fn extension_word(kind: ExtKind, a: u8, d: u8) -> Inst
    ensures { result ≡ extension_word kind a d }
{
    match kind {
        ExtKind::S8 => Inst::Extrs {
            r: a,
            p: 31,
            len: 8,
            t: d,
        },
        ExtKind::U8 => Inst::Extru {
            r: a,
            p: 31,
            len: 8,
            t: d,
        },
        ExtKind::S16 => Inst::Extrs {
            r: a,
            p: 31,
            len: 16,
            t: d,
        },
        ExtKind::U16 => Inst::Extru {
            r: a,
            p: 31,
            len: 16,
            t: d,
        },
    }
}

/// 1 where a comparison holds, and else 0. The condition of the comparison is `c`, negated by `f`.
fn put_comparison(
    out: &mut Items<Line>,
    c: u8,
    f: bool,
    r1: u8,
    r2: u8,
    t: u8,
) -> Result<(), AllocError>
    ensures { OnOk result (out.new ≡ out.old ++ compared c f r1 r2 t) }
{
    put(out, Inst::Comclr { c, f, r1, r2, t })?;
    put(out, Inst::Ldo { im: 1, b: 0, t })
}

fn put_shift_left(out: &mut Items<Line>, a: u8, b: u8, d: u8) -> Result<(), AllocError>
    ensures { OnOk result (out.new ≡ out.old ++ binary_lines BinKind.Shl a b d) }
{
    let t = HELP;
    put(out, Inst::Subi { im: 31, r: b, t })?;
    put(out, Inst::Mtctl { r: t })?;
    let (p, len) = (30, 31);
    put(out, Inst::Extru { r: a, p, len, t })?;
    let (p, len) = (0, 1);
    put(
        out,
        Inst::Zdep {
            r: a,
            p,
            len,
            t: RESULT,
        },
    )?;
    put(
        out,
        Inst::Vshd {
            r1: t,
            r2: RESULT,
            t: d,
        },
    )
}

fn put_signed_shift(out: &mut Items<Line>, a: u8, b: u8, d: u8) -> Result<(), AllocError>
    ensures { OnOk result (out.new ≡ out.old ++ binary_lines BinKind.ShrS a b d) }
{
    put(out, Inst::Mtctl { r: b })?;
    let (p, len) = (0, 1);
    put(
        out,
        Inst::Extrs {
            r: a,
            p,
            len,
            t: HELP,
        },
    )?;
    put(
        out,
        Inst::Vshd {
            r1: HELP,
            r2: a,
            t: d,
        },
    )
}

fn put_unsigned_shift(out: &mut Items<Line>, a: u8, b: u8, d: u8) -> Result<(), AllocError>
    ensures { OnOk result (out.new ≡ out.old ++ binary_lines BinKind.ShrU a b d) }
{
    put(out, Inst::Mtctl { r: b })?;
    put(out, Inst::Vshd { r1: 0, r2: a, t: d })
}

/// Arithmetic on two registers into a third, where the machine has it.
fn put_arithmetic(
    out: &mut Items<Line>,
    kind: BinKind,
    r1: u8,
    r2: u8,
    t: u8,
) -> Result<(), AllocError>
    ensures { OnOk result (out.new ≡ out.old ++ binary_lines kind r1 r2 t) }
{
    match kind {
        BinKind::Add => put(out, Inst::Addl { r1, r2, t }),
        BinKind::Sub => put(out, Inst::Sub { r1, r2, t }),
        BinKind::And => put(out, Inst::And { r1, r2, t }),
        BinKind::Or => put(out, Inst::Or { r1, r2, t }),
        BinKind::Xor => put(out, Inst::Xor { r1, r2, t }),
        BinKind::Shl => put_shift_left(out, r1, r2, t),
        BinKind::ShrU => put_unsigned_shift(out, r1, r2, t),
        BinKind::ShrS => put_signed_shift(out, r1, r2, t),
        BinKind::Eq => put_comparison(out, 1, true, r1, r2, t),
        BinKind::Ne => put_comparison(out, 1, false, r1, r2, t),
        BinKind::LtS => put_comparison(out, 2, true, r1, r2, t),
        BinKind::LeS => put_comparison(out, 3, true, r1, r2, t),
        BinKind::LtU => put_comparison(out, 4, true, r1, r2, t),
        BinKind::LeU => put_comparison(out, 5, true, r1, r2, t),
        BinKind::Mul | BinKind::DivS | BinKind::DivU | BinKind::RemS | BinKind::RemU => Ok(()),
    }
}

/// The number of the routine of an operation that the machine has none for.
fn routine_of(kind: BinKind) -> Option<u8>
    ensures { result ≡ routine_of kind }
{
    match kind {
        BinKind::DivS => Some(0),
        BinKind::DivU => Some(1),
        BinKind::Mul => Some(2),
        BinKind::RemS => Some(3),
        BinKind::RemU => Some(4),
        _ => None,
    }
}

/// A routine's result goes to its place.
fn put_routine_result(out: &mut Items<Line>, t: Place) -> Result<(), AllocError>
    ensures { OnOk result (out.new ≡ out.old ++ routine_result t) }
{
    let d = result_register(t);
    if d != RESULT {
        put_copy(out, RESULT, d)?;
    }
    put_result(out, t)
}

fn put_by_routine(
    out: &mut Items<Line>,
    routine: u8,
    a: Place,
    b: Place,
    t: Place,
) -> Result<(), AllocError>
    ensures { OnOk result (out.new ≡ out.old ++ by_routine routine a b t) }
{
    put_loaded(out, a, ARGUMENT)?;
    put_loaded(out, b, ARGUMENT - 1)?;
    out.push(Line::CallTo(Symbol::Routine(routine), ROUTINE_LINK))?;
    put_routine_result(out, t)
}

fn put_by_words(
    out: &mut Items<Line>,
    kind: BinKind,
    a: Place,
    b: Place,
    t: Place,
) -> Result<(), AllocError>
    ensures { OnOk result (out.new ≡ out.old ++ with_two a b t (binary_lines kind)) }
{
    let r1 = put_operand(out, a, FIRST)?;
    let r2 = put_operand(out, b, SECOND)?;
    put_arithmetic(out, kind, r1, r2, result_register(t))?;
    put_result(out, t)
}

/// An operation on two numbers.
pub fn put_binary(
    out: &mut Items<Line>,
    kind: BinKind,
    a: Place,
    b: Place,
    t: Place,
) -> Result<(), AllocError>
    ensures { OnOk result (out.new ≡ out.old ++ binary_by (routine_of kind) kind a b t) }
{
    match routine_of(kind) {
        Some(routine) => put_by_routine(out, routine, a, b, t),
        None => put_by_words(out, kind, a, b, t),
    }
}
