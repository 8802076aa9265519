//! The functions and the routines of a linked program, and where they stand.

ghost use Rattle.std.specs.Prelude.{◌≡◌, ◌++◌, ◌+◌, ◌*◌, ◌≤◌, ◌<◌, ◌^◌, map, length, IfOk, OnOk};
ghost use Rattle.std.specs.List.{flat_map, sum_by};
ghost use Rattle.pw_value.specs.Caps.{capped};
ghost use Rattle.pw_value.specs.Limits.{word_limit, text_start};
ghost use Rattle.pw_milli.specs.Library.{routines};
ghost use Rattle.pw_link.specs.Layout.{piece_of, routine_piece, routine_pieces, function_pieces, placed_from};
ghost use Rattle.pw_link.specs.Views.{piece_view, placed_view};

use pw_inst::Fix;
use pw_link_interface::{Object, ObjectFn};
use pw_milli::library;
use pw_value::Name;
use pw_value::limits::TEXT_START;
use std::alloc::{AllocError, Global};

/// A function or a routine, with its words before linking.
#[derive(Clone, Copy)]
pub(crate) struct Piece<'a> {
    pub name: &'a Name,
    pub frame: u32,
    pub words: &'a [u32],
    pub fixes: &'a [Fix],
}

/// A function or a routine at its address.
#[derive(Clone, Copy)]
pub(crate) struct Placed<'a> {
    pub address: u32,
    pub piece: Piece<'a>,
}

/// The names of the routines.
pub(crate) fn routine_names(alloc: Global) -> Result<Vec<Name>, AllocError>
    ensures { IfOk result (λ names. names.items ≡ map (λ r. r.0) routines) }
{
    let mut names = Vec::new(alloc);
    for routine in library() {
        names.push(Name::within(alloc, routine.name)?)?;
    }
    Ok(names)
}

/// Adds the functions of a module.
fn add_functions<'a>(
    pieces: &mut Vec<Piece<'a>>,
    functions: &'a [ObjectFn],
) -> Result<(), AllocError>
    ensures { OnOk result (map piece_view pieces.new.items ≡ map piece_view pieces.old.items ++ map piece_of functions.now) }
{
    for each in functions {
        pieces.push(Piece {
            name: &each.name,
            frame: each.frame,
            words: each.words.as_slice(),
            fixes: each.fixes.as_slice(),
        })?;
    }
    Ok(())
}

/// Adds the routines, whose names are given.
fn add_routines<'a>(pieces: &mut Vec<Piece<'a>>, names: &'a [Name]) -> Result<(), AllocError>
    requires { names.now ≡ map (λ r. r.0) routines }
    ensures { OnOk result (map piece_view pieces.new.items ≡ map piece_view pieces.old.items ++ routine_pieces) }
{
    let routines = library();
    for k in 0..names.len() {
        pieces.push(Piece {
            name: &names[k],
            frame: 0,
            words: routines[k].words,
            fixes: &[],
        })?;
    }
    Ok(())
}

/// The functions of the modules.
pub(crate) fn functions_of<'a>(
    alloc: Global,
    order: &[&'a Object],
) -> Result<Vec<Piece<'a>>, AllocError>
    ensures { IfOk result (λ pieces. map piece_view pieces.items ≡ function_pieces (map (λ o. o.now) order.now)) }
{
    let mut pieces = Vec::new(alloc);
    for object in order {
        add_functions(&mut pieces, object.functions.as_slice())?;
    }
    Ok(pieces)
}

/// The functions of the modules, and behind them the routines.
pub(crate) fn pieces<'a>(
    alloc: Global,
    order: &[&'a Object],
    names: &'a [Name],
) -> Result<Vec<Piece<'a>>, AllocError>
    requires { names.now ≡ map (λ r. r.0) routines }
    ensures { IfOk result (λ pieces. map piece_view pieces.items ≡ function_pieces (map (λ o. o.now) order.now) ++ routine_pieces) }
{
    let mut pieces = functions_of(alloc, order)?;
    add_routines(&mut pieces, names)?;
    Ok(pieces)
}

/// How many words pieces have, as far as the number goes.
pub(crate) fn count_words(pieces: &[Piece]) -> u64
    ensures { result ≡ capped (sum_by (λ p. length p.words) (map piece_view pieces.now)) }
{
    let mut count: u64 = 0;
    for each in pieces {
        count = count.saturating_add(each.words.len() as u64);
    }
    count
}

/// The pieces at their addresses.
#[tactic(auto, using(crate::proofs::Growing::placed_from_push))]
pub(crate) fn at_addresses<'a>(
    alloc: Global,
    pieces: &[Piece<'a>],
) -> Result<Vec<Placed<'a>>, AllocError>
    requires { sum_by (λ p. length p.words) (map piece_view pieces.now) ≤ word_limit }
    ensures { IfOk result (λ text. map placed_view text.items ≡ placed_from text_start (map piece_view pieces.now)) }
{
    let mut text = Vec::new(alloc);
    let mut address = TEXT_START;
    for piece in pieces {
        text.push(Placed {
            address,
            piece: *piece,
        })?;
        address += 4 * piece.words.len() as u32;
    }
    Ok(text)
}
