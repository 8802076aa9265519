//! Lines that move words between the registers of the calling convention and the frame.

ghost use Rattle.std.specs.Prelude.{◌≡◌, ◌++◌, ◌∷◌, [], IfOk, OnOk};
ghost use Rattle.pw_inst.specs.declared.line.Line.TheVariants.{Fixed};
ghost use Rattle.pw_select_lines.specs.Registers.{word, copied, is_near, long_constant, constant, address_of, reach, load_from, store_to, frame_address, place_of, operand_register, operand_lines, loaded, result_register, result_lines, load_scalar, store_scalar, sign_spread, read_global, write_global};

use pw_alloc::Place;
use pw_delay::copy_symbol;
use pw_inst::{
    FixKind, HELP, Inst, Line, NEAR_LEAST, NEAR_LIMIT, RESULT, STACK_POINTER, Symbol, left_part,
    right_part,
};
use pw_items::Items;
use pw_value::{Kind, Name};
use std::alloc::{AllocError, Global};

// ---- words

/// Puts an instruction behind the other lines.
pub fn put(out: &mut Items<Line>, inst: Inst) -> Result<(), AllocError>
    ensures { OnOk result (out.new ≡ out.old ++ word inst) }
{
    out.push(Line::Plain(inst))
}

/// Puts an instruction whose word takes the address of a symbol plus a number.
pub fn put_fixed(
    alloc: Global,
    out: &mut Items<Line>,
    inst: Inst,
    kind: FixKind,
    symbol: &Symbol,
    addend: u32,
) -> Result<(), AllocError>
    ensures { OnOk result (out.new ≡ out.old ++ Fixed inst kind symbol.now addend ∷ []) }
{
    let symbol = copy_symbol(alloc, symbol)?;
    out.push(Line::Fixed(inst, kind, symbol, addend))
}

/// A register's word in another.
pub fn put_copy(out: &mut Items<Line>, a: u8, d: u8) -> Result<(), AllocError>
    ensures { OnOk result (out.new ≡ out.old ++ copied a d) }
{
    put(out, Inst::Or { r1: a, r2: 0, t: d })
}

/// Whether a memory instruction can hold the displacement.
fn is_near(n: i32) -> bool
    ensures { result ≡ is_near n }
{
    -(NEAR_LEAST as i32) <= n && n <= NEAR_LIMIT as i32
}

/// A word in a register, by its left and right parts.
fn put_long_constant(out: &mut Items<Line>, n: u32, d: u8) -> Result<(), AllocError>
    ensures { OnOk result (out.new ≡ out.old ++ long_constant n d) }
{
    let left = left_part(n);
    put(out, Inst::Ldil { im: left, t: d })?;
    let right = right_part(n) as i32;
    put(
        out,
        Inst::Ldo {
            im: right,
            b: d,
            t: d,
        },
    )
}

/// A word in a register.
pub fn put_constant(out: &mut Items<Line>, n: u32, d: u8) -> Result<(), AllocError>
    ensures { OnOk result (out.new ≡ out.old ++ constant n d) }
{
    let signed = n.cast_signed();
    if is_near(signed) {
        put(
            out,
            Inst::Ldo {
                im: signed,
                b: 0,
                t: d,
            },
        )
    } else {
        put_long_constant(out, n, d)
    }
}

/// The address of a symbol plus a number in a register.
pub fn put_address(
    alloc: Global,
    out: &mut Items<Line>,
    symbol: &Symbol,
    n: u32,
    d: u8,
) -> Result<(), AllocError>
    ensures { OnOk result (out.new ≡ out.old ++ address_of symbol.now n d) }
{
    let left = Inst::Ldil { im: 0, t: d };
    put_fixed(alloc, out, left, FixKind::Ldil, symbol, n)?;
    let right = Inst::Ldo { im: 0, b: d, t: d };
    put_fixed(alloc, out, right, FixKind::Im14, symbol, n)
}

// ---- the frame

/// Puts the lines before an access to a word of the frame, and gives its base and displacement.
fn put_reach(out: &mut Items<Line>, offset: i32) -> Result<(u8, i32), AllocError>
    ensures lines { OnOk result (out.new ≡ out.old ++ (reach offset).before) }
    ensures base { IfOk result (λ r. r.0 ≡ (reach offset).base) }
    ensures displacement { IfOk result (λ r. r.1 ≡ (reach offset).displacement) }
{
    if is_near(offset) {
        return Ok((STACK_POINTER, offset));
    }
    put_long_constant(out, offset.cast_unsigned(), HELP)?;
    put(
        out,
        Inst::Addl {
            r1: STACK_POINTER,
            r2: HELP,
            t: HELP,
        },
    )?;
    Ok((HELP, 0))
}

/// Loads a word of the frame.
pub fn put_load(out: &mut Items<Line>, offset: i32, r: u8) -> Result<(), AllocError>
    ensures { OnOk result (out.new ≡ out.old ++ load_from offset r) }
{
    let (b, im) = put_reach(out, offset)?;
    put(out, Inst::Ldw { im, b, t: r })
}

/// Stores a word of the frame.
pub fn put_store(out: &mut Items<Line>, offset: i32, r: u8) -> Result<(), AllocError>
    ensures { OnOk result (out.new ≡ out.old ++ store_to offset r) }
{
    let (b, im) = put_reach(out, offset)?;
    put(out, Inst::Stw { r, im, b })
}

/// The address of a word of the frame in a register.
pub fn put_frame_address(out: &mut Items<Line>, offset: i32, d: u8) -> Result<(), AllocError>
    ensures { OnOk result (out.new ≡ out.old ++ frame_address offset d) }
{
    let (b, im) = put_reach(out, offset)?;
    put(out, Inst::Ldo { im, b, t: d })
}

// ---- places

/// Where a temporary stands.
pub fn place_of(places: &[Place], t: u32) -> Place
    ensures { result ≡ place_of places.now t }
{
    match places.get(t as usize) {
        Some(place) => *place,
        None => Place::Reg(0),
    }
}

/// The register in which an operand is: its own, or the other one, into which it is loaded.
pub fn put_operand(out: &mut Items<Line>, place: Place, other: u8) -> Result<u8, AllocError>
    ensures lines { OnOk result (out.new ≡ out.old ++ operand_lines place other) }
    ensures register { IfOk result (λ r. r ≡ operand_register place other) }
{
    match place {
        Place::Reg(r) => Ok(r),
        Place::Slot(offset) => {
            put_load(out, offset, other)?;
            Ok(other)
        }
    }
}

/// A temporary's word into a register.
pub fn put_loaded(out: &mut Items<Line>, place: Place, d: u8) -> Result<(), AllocError>
    ensures { OnOk result (out.new ≡ out.old ++ loaded place d) }
{
    match place {
        Place::Reg(r) => put_copy(out, r, d),
        Place::Slot(offset) => put_load(out, offset, d),
    }
}

/// The register in which a result is made: that of its place, or the one from which it is stored into the frame.
pub fn result_register(place: Place) -> u8
    ensures { result ≡ result_register place }
{
    match place {
        Place::Reg(r) => r,
        Place::Slot(_) => RESULT,
    }
}

/// The result goes to its place.
pub fn put_result(out: &mut Items<Line>, place: Place) -> Result<(), AllocError>
    ensures { OnOk result (out.new ≡ out.old ++ result_lines place) }
{
    match place {
        Place::Reg(_) => Ok(()),
        Place::Slot(offset) => put_store(out, offset, RESULT),
    }
}

// ---- scalars in memory

/// The load of a scalar of a kind into register `t`, from so many bytes behind register `b`; a signed one comes without
/// its sign.
pub fn load_scalar(kind: Kind, im: i32, b: u8, t: u8) -> Inst
    ensures { result ≡ load_scalar kind im b t }
{
    match kind {
        Kind::S8 | Kind::U8 => Inst::Ldb { im, b, t },
        Kind::S16 | Kind::U16 => Inst::Ldh { im, b, t },
        Kind::W32 => Inst::Ldw { im, b, t },
    }
}

/// The store of register `r` as a scalar of a kind, so many bytes behind register `b`.
pub fn store_scalar(kind: Kind, r: u8, im: i32, b: u8) -> Inst
    ensures { result ≡ store_scalar kind r im b }
{
    match kind {
        Kind::S8 | Kind::U8 => Inst::Stb { r, im, b },
        Kind::S16 | Kind::U16 => Inst::Sth { r, im, b },
        Kind::W32 => Inst::Stw { r, im, b },
    }
}

/// What was loaded of a signed kind is extended by its sign.
pub fn put_sign(out: &mut Items<Line>, kind: Kind, t: u8) -> Result<(), AllocError>
    ensures { OnOk result (out.new ≡ out.old ++ sign_spread kind t) }
{
    let len = match kind {
        Kind::S8 => 8,
        Kind::S16 => 16,
        _ => return Ok(()),
    };
    put(
        out,
        Inst::Extrs {
            r: t,
            p: 31,
            len,
            t,
        },
    )
}

/// A scalar global is read into a register.
pub fn put_read(
    alloc: Global,
    out: &mut Items<Line>,
    global: &Name,
    kind: Kind,
    t: u8,
) -> Result<(), AllocError>
    ensures { OnOk result (out.new ≡ out.old ++ read_global global.now kind t) }
{
    let symbol = Symbol::Named(global.copy(alloc)?);
    let left = Inst::Ldil { im: 0, t: HELP };
    put_fixed(alloc, out, left, FixKind::Ldil, &symbol, 0)?;
    let load = load_scalar(kind, 0, HELP, t);
    put_fixed(alloc, out, load, FixKind::Im14, &symbol, 0)?;
    put_sign(out, kind, t)
}

/// A scalar global is written from a register.
pub fn put_write(
    alloc: Global,
    out: &mut Items<Line>,
    global: &Name,
    kind: Kind,
    r: u8,
) -> Result<(), AllocError>
    ensures { OnOk result (out.new ≡ out.old ++ write_global global.now kind r) }
{
    let symbol = Symbol::Named(global.copy(alloc)?);
    let left = Inst::Ldil { im: 0, t: HELP };
    put_fixed(alloc, out, left, FixKind::Ldil, &symbol, 0)?;
    let store = store_scalar(kind, r, 0, HELP);
    put_fixed(alloc, out, store, FixKind::Im14, &symbol, 0)
}
