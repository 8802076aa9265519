//! Moves within an object of static lifetime (ISO C90 6.3.6, 6.4): each stays within the object or directly behind it.

ghost use Rattle.std.specs.Prelude.{◌≡◌, option_map, option_and_then};
ghost use Rattle.pw_check_constants.specs.Moves as spec;
ghost use Rattle.pw_check_constants.specs.Views.{view_place};
ghost use Rattle.pw_check_rules.specs.Constants as rules;

use crate::place::Place;
use pw_types::IntKind;
use pw_value::words::{is_negative, magnitude};

/// A move of an address: so many bytes on or back, or to no place, because the number is not known.
#[derive(Clone, Copy)]
pub enum Move {
    /// So many bytes on.
    On(u128),
    /// So many bytes back.
    Back(u128),
    /// To no place: the number is not known.
    Nowhere,
}

/// The place so many bytes on.
pub fn moved_on(bytes: u128, place: Place) -> Option<Place>
    ensures { option_map view_place result ≡ rules.moved_on bytes (view_place place.entry) }
{
    let offset = u128::from(place.offset).checked_add(bytes)?;
    let is_within = match place.size {
        Some(size) => offset <= u128::from(size),
        None => offset == 0,
    };
    if !is_within {
        return None;
    }
    Some(Place {
        base: place.base,
        offset: offset as u64,
        size: place.size,
    })
}

/// The place so many bytes back.
pub fn moved_back(bytes: u128, place: Place) -> Option<Place>
    ensures { option_map view_place result ≡ rules.moved_back bytes (view_place place.entry) }
{
    if bytes > u128::from(place.offset) {
        return None;
    }
    Some(Place {
        base: place.base,
        offset: place.offset - bytes as u64,
        size: place.size,
    })
}

/// The move by so many elements, of which each has this size, where the count is a word of its type.
pub fn move_by(kind: IntKind, size: u64, count: u32) -> Move
    ensures on { (p : rules.Place) → spec.taken result p ≡ rules.moved kind size count p }
    ensures back { (p : rules.Place) → spec.taken (spec.reversed result) p ≡ rules.moved_against kind size count p }
{
    let negative = is_negative(kind.is_signed(), count);
    let bytes = u128::from(size) * u128::from(magnitude(negative, count));
    if negative {
        Move::Back(bytes)
    } else {
        Move::On(bytes)
    }
}

impl Move {
    /// The move the other way.
    pub fn reversed(self) -> Move
        ensures { result ≡ spec.reversed self }
    {
        match self {
            Move::On(bytes) => Move::Back(bytes),
            Move::Back(bytes) => Move::On(bytes),
            Move::Nowhere => Move::Nowhere,
        }
    }

    /// The place to which the move leads from another: none from none, and none where the move is not known or leaves
    /// the object.
    pub fn taken(self, place: Option<Place>) -> Option<Place>
        ensures { option_map view_place result ≡ option_and_then (spec.taken self) (option_map view_place place.entry) }
    {
        let place = place?;
        match self {
            Move::On(bytes) => moved_on(bytes, place),
            Move::Back(bytes) => moved_back(bytes, place),
            Move::Nowhere => None,
        }
    }
}

/// Where the moves lead from a place, the last one first.
#[tactic(auto, using(crate::proofs::MoveLemmas::replayed_push))]
pub fn replay<'t>(mut moves: Vec<Move>, start: Option<Place<'t>>) -> Option<Place<'t>>
    ensures { option_map view_place result ≡ spec.replayed moves.items (option_map view_place start.entry) }
{
    let mut place = start;
    while let Some(way) = moves.pop() {
        place = way.taken(place);
    }
    place
}
