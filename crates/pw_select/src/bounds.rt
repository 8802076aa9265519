//! The prologue and the epilogue.

ghost use Rattle.std.specs.Prelude.{◌≡◌, ◌<◌, ◌+◌, ◌*◌, ◌^◌, ◌++◌, length, OnOk};
ghost use Rattle.pw_alloc.specs.Frames.{first_stacked, head_size};
ghost use Rattle.pw_select_lines.specs.Registers.{load_from, store_to};
ghost use Rattle.pw_select.specs.Selection.{saved_lines, incoming, parameter_in, parameters_in, frame_end, frame_left, entry_lines, prologue, epilogue};
ghost use Rattle.pw_select.specs.Selectable.{IsFrame};

use crate::webs::{put_webs_loaded, put_webs_stored};
use pw_alloc::{FIRST_STACKED, LINK_PLACE, Located, Place, below, head_size};
use pw_inst::{
    ARGUMENT, FIRST, HELP, Inst, Line, NEAR_LEAST, NEAR_LIMIT, RETURN_ADDRESS, SECOND,
    STACK_POINTER, Symbol,
};
use pw_items::Items;
use pw_select_lines::{place_of, put, put_address, put_constant, put_copy, put_load, put_store};
use std::alloc::{AllocError, Global};

/// The saved registers go into the frame.
fn put_saves(out: &mut Items<Line>, head: u32, saved: &[u8]) -> Result<(), AllocError>
    requires { head + 4 * length saved.now < 2 ^ 31 }
    ensures { OnOk result (out.new ≡ out.old ++ saved_lines store_to head 0 saved.now) }
{
    let mut k = 0;
    let mut rest = saved;
    while let [r, after @ ..] = rest {
        put_store(out, below(head + 4 * (k + 1)), *r)?;
        k += 1;
        rest = after;
    }
    Ok(())
}

/// The saved registers come back from the frame.
fn put_restores(out: &mut Items<Line>, head: u32, saved: &[u8]) -> Result<(), AllocError>
    requires { head + 4 * length saved.now < 2 ^ 31 }
    ensures { OnOk result (out.new ≡ out.old ++ saved_lines load_from head 0 saved.now) }
{
    let mut k = 0;
    let mut rest = saved;
    while let [r, after @ ..] = rest {
        put_load(out, below(head + 4 * (k + 1)), *r)?;
        k += 1;
        rest = after;
    }
    Ok(())
}

/// A parameter comes to a register: the first four from registers, the others from the caller's frame.
fn put_incoming(out: &mut Items<Line>, frame: u32, k: u32, d: u8) -> Result<(), AllocError>
    requires { frame + first_stacked + 4 * k < 2 ^ 31 }
    ensures { OnOk result (out.new ≡ out.old ++ incoming frame k d) }
{
    if k < 4 {
        put_copy(out, ARGUMENT - k as u8, d)
    } else {
        put_load(out, below(frame + FIRST_STACKED + 4 * (k - 4)), d)
    }
}

/// A parameter comes to its place.
fn put_parameter(out: &mut Items<Line>, frame: u32, k: u32, place: Place) -> Result<(), AllocError>
    requires { frame + first_stacked + 4 * k < 2 ^ 31 }
    ensures { OnOk result (out.new ≡ out.old ++ parameter_in frame k place) }
{
    match place {
        Place::Reg(r) => put_incoming(out, frame, k, r),
        Place::Slot(offset) => {
            put_incoming(out, frame, k, FIRST)?;
            put_store(out, offset, FIRST)
        }
    }
}

fn put_parameters(
    out: &mut Items<Line>,
    frame: u32,
    places: &[Place],
    count: u32,
) -> Result<(), AllocError>
    requires { frame + first_stacked + 4 * count < 2 ^ 31 }
    ensures { OnOk result (out.new ≡ out.old ++ parameters_in frame places.now 0 count) }
{
    for k in 0..count {
        put_parameter(out, frame, k, place_of(places, k))?;
    }
    Ok(())
}

/// The end of the frame in the help register.
fn put_frame_end(out: &mut Items<Line>, frame: u32) -> Result<(), AllocError>
    requires { frame < 2 ^ 31 }
    ensures { OnOk result (out.new ≡ out.old ++ frame_end frame) }
{
    let t = HELP;
    if frame > NEAR_LIMIT {
        put_constant(out, frame, t)?;
        put(
            out,
            Inst::Addl {
                r1: STACK_POINTER,
                r2: t,
                t,
            },
        )
    } else {
        put(
            out,
            Inst::Ldo {
                im: frame as i32,
                b: STACK_POINTER,
                t,
            },
        )
    }
}

/// The stack is checked, and the return address and the stack pointer are set.
fn put_entry(alloc: Global, out: &mut Items<Line>, frame: u32) -> Result<(), AllocError>
    requires { frame < 2 ^ 31 }
    ensures { OnOk result (out.new ≡ out.old ++ entry_lines frame) }
{
    put_address(alloc, out, &Symbol::StackLimit, 0, SECOND)?;
    put_frame_end(out, frame)?;
    let (r1, r2) = (HELP, SECOND);
    put(
        out,
        Inst::Comclr {
            c: 5,
            f: false,
            r1,
            r2,
            t: 0,
        },
    )?;
    put(out, Inst::Break { im5: 0, im13: 4 })?;
    let b = STACK_POINTER;
    put(
        out,
        Inst::Stw {
            r: RETURN_ADDRESS,
            im: below(LINK_PLACE),
            b,
        },
    )?;
    put_copy(out, HELP, STACK_POINTER)
}

/// Puts a function's first lines: the test of the stack and the frame, the registers that it saves, the globals that
/// it loads into registers, and its parameters brought to their places.
pub fn put_prologue(alloc: Global, out: &mut Items<Line>, f: &Located) -> Result<(), AllocError>
    requires { IsFrame f.now }
    ensures { OnOk result (out.new ≡ out.old ++ prologue f.now) }
{
    put_entry(alloc, out, f.frame)?;
    put_saves(out, head_size(&f.body), f.saved.as_slice())?;
    put_webs_loaded(alloc, out, f.body.directives.webs.as_slice())?;
    put_parameters(out, f.frame, f.places.as_slice(), f.body.params)
}

/// The stack pointer goes back over the frame.
fn put_frame_left(out: &mut Items<Line>, frame: u32) -> Result<(), AllocError>
    requires { frame < 2 ^ 31 }
    ensures { OnOk result (out.new ≡ out.old ++ frame_left frame) }
{
    let t = STACK_POINTER;
    if frame > NEAR_LEAST {
        put_constant(out, frame, HELP)?;
        put(out, Inst::Sub { r1: t, r2: HELP, t })
    } else {
        put(
            out,
            Inst::Ldo {
                im: below(frame),
                b: t,
                t,
            },
        )
    }
}

/// The epilogue, by the size of the frame's head.
pub fn put_epilogue(
    alloc: Global,
    out: &mut Items<Line>,
    f: &Located,
    head: u32,
) -> Result<(), AllocError>
    requires frame { IsFrame f.now }
    requires head { head ≡ head_size f.now.body }
    ensures { OnOk result (out.new ≡ out.old ++ epilogue f.now) }
{
    put_webs_stored(alloc, out, f.body.directives.webs.as_slice())?;
    put_restores(out, head, f.saved.as_slice())?;
    put_load(out, below(f.frame + LINK_PLACE), RETURN_ADDRESS)?;
    put_frame_left(out, f.frame)?;
    out.push(Line::Leave)
}
