//! Lowering of functions.

ghost use Rattle.std.specs.Prelude.{◌≡◌, ◌+◌, ◌<◌, ◌≤◌, ◌^◌, length, IfOk, OnErr, OnOk};
ghost use Rattle.pw_lower.specs.Modules as spec;
ghost use Rattle.pw_lower.specs.Places.{places_of as placed, temps_from};
ghost use Rattle.pw_typed.specs.Views.{view_function, view_locals};

use crate::statements::lower_statement;
use pw_flow::{End, FlowFn};
use pw_items::Items;
use pw_lexpr::blocks::{bare, in_order};
use pw_lexpr::{Frame, Home, full_name};
use pw_lower::{Code, LocalPlace, Numbered, Ways};
use pw_lower_places::{places_of, slots_of, store_parameters, temps_of};
use pw_typed::TFunction;
use pw_types::{Types, shape};
use pw_value::words::word_of;
use pw_value::{Name, NoMemory};
use std::alloc::Global;

/// What is closed at the start: behind the blocks of the labels that a `goto` can name, where there are
/// any, a block to which nothing goes, so that each of them is another block than the next by number.
fn closed_at_start(alloc: Global, named: &[u32]) -> Result<Items<Numbered>, NoMemory>
    requires { 1 + length named.now < 2 ^ 32 }
    ensures { IfOk result (λ closed. closed ≡ spec.closed_at_start named.now) }
{
    let mut closed = Items::new(alloc);
    if let [_, rest @ ..] = named {
        closed.push(Numbered {
            number: rest.len() as u32 + 2,
            block: bare(alloc),
        })?;
    }
    Ok(closed)
}

/// How many blocks are numbered at the start. There is no memory for more than 32 bits can count, and for no fewer.
fn blocks_at_start(named: &[u32]) -> Result<u32, NoMemory>
    ensures value { IfOk result (λ n. n ≡ spec.blocks_at_start named.now) }
    ensures fits { OnOk result (1 + length named.now < 2 ^ 32) }
    ensures wanting { OnErr result (2 ^ 32 ≤ spec.blocks_at_start named.now) }
{
    match named {
        [] => Ok(1),
        [_, rest @ ..] => word_of(rest.len() + 3),
    }
}

/// The code at the start. The labels that a `goto` can name have the blocks behind the first, in the order
/// of the text.
fn start_code(alloc: Global, f: &TFunction, temps: u32) -> Result<Code, NoMemory>
    ensures { IfOk result (λ code. code ≡ spec.start_code (view_function f.now) temps) }
{
    let blocks = blocks_at_start(&f.named)?;
    let mut code = Code {
        closed: closed_at_start(alloc, &f.named)?,
        cur: 0,
        depth: 0,
        ops: Items::new(alloc),
        blocks,
        temps,
        labels: Items::from_vec(vec![in alloc; 0; f.labels as usize]?),
    };
    code.name_blocks(alloc, &f.named, 1);
    Ok(code)
}

/// The code at the beginning of a function whose locals have places: the parameters are where they stand.
pub fn entered(alloc: Global, f: &TFunction, places: &[LocalPlace]) -> Result<Code, NoMemory>
    ensures { IfOk result (λ code. code
        ≡ spec.parameters_stored (view_locals f.now.locals.items) places.now 0 f.now.params (spec.start_code (view_function f.now) (temps_from f.now.params places.now))) }
{
    let mut code = start_code(alloc, f, temps_of(f.params, places)?)?;
    store_parameters(&f.locals, places, f.params, &mut code)?;
    Ok(code)
}

/// The code of a function whose locals have places, its last block closed.
fn function_code<'a>(
    alloc: Global,
    name: &'a Name,
    types: &'a Types,
    f: &'a TFunction,
    places: &'a [LocalPlace],
) -> Result<Code, NoMemory>
    requires { places.now ≡ placed (view_function f.now) }
    ensures { IfOk result (λ code. code ≡ spec.function_code name.now types.now (view_function f.now)) }
{
    let mut code = entered(alloc, f, places)?;
    let frame = Frame {
        home: Home {
            name,
            types,
            places,
        },
        locals: &f.locals,
    };
    lower_statement(alloc, frame, Ways { out: 0, on: 0 }, &f.body, &mut code)?;
    code.cut_here(alloc, End::Return(None), 0)?;
    Ok(code)
}

/// The code of a function, and the sizes of its slots.
fn code_and_slots(
    alloc: Global,
    name: &Name,
    types: &Types,
    f: &TFunction,
) -> Result<(Code, Items<u32>), NoMemory>
    ensures code { IfOk result (λ made. made.0 ≡ spec.function_code name.now types.now (view_function f.now)) }
    ensures slots { IfOk result (λ made. made.1
        ≡ spec.slots_of types.now (view_locals f.now.locals.items) (placed (view_function f.now))) }
{
    let places = places_of(alloc, f)?;
    let code = function_code(alloc, name, types, f, &places)?;
    let slots = slots_of(alloc, types, &f.locals, &places)?;
    Ok((code, slots))
}

/// The flow graph of a function.
#[tactic(auto, unfolding(pw_lower::specs::Modules::lowered_function))]
pub fn lower_function(
    alloc: Global,
    name: &Name,
    types: &Types,
    f: &TFunction,
) -> Result<FlowFn, NoMemory>
    ensures { IfOk result (λ flow. flow ≡ spec.lowered_function name.now types.now (view_function f.now)) }
{
    let (code, slots) = code_and_slots(alloc, name, types, f)?;
    let blocks = in_order(alloc, code.closed, code.blocks)?;
    Ok(FlowFn {
        name: full_name(alloc, name, &f.name)?,
        shape: shape(alloc, types, &f.ty)?,
        params: f.params,
        temps: code.temps,
        slots,
        blocks,
    })
}
