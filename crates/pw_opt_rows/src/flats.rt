//! What is known of one temporary.

ghost use Rattle.std.specs.Prelude.{◌≡◌, ◌↔◌, IsTrue};
ghost use Rattle.pw_opt_rules.specs.declared.flat.Flat.TheVariants.{One};
ghost use Rattle.pw_opt_rules.specs.Flat.{IsBelow};
ghost use Rattle.pw_opt_rows.specs.Joins.{joined, flat_rank};

use pw_opt_rules::Flat;

/// What is known where two paths meet.
pub(crate) fn join_flats(a: Flat, b: Flat) -> Flat
    ensures { result ≡ joined a b }
{
    match a {
        Flat::Bottom => b,
        Flat::One(n) => join_one(n, b),
        Flat::Many => Flat::Many,
    }
}

/// What is known where a path on which it is one thing meets another.
fn join_one(n: u32, b: Flat) -> Flat
    ensures { result ≡ joined (One n) b }
{
    match b {
        Flat::Bottom => Flat::One(n),
        Flat::One(m) => { if n == m { Flat::One(n) } else { Flat::Many } }
        Flat::Many => Flat::Many,
    }
}

/// How far up it is: 0 for Bottom, 2 for Many.
pub(crate) fn rank_of(a: Flat) -> u8
    ensures { result ≡ flat_rank a }
{
    match a {
        Flat::Bottom => 0,
        Flat::One(_) => 1,
        Flat::Many => 2,
    }
}

/// Whether one thing is at or below the other.
fn one_below(n: u32, b: Flat) -> bool
    ensures { IsTrue result ↔ IsBelow (One n) b }
{
    match b {
        Flat::Bottom => false,
        Flat::One(m) => n == m,
        Flat::Many => true,
    }
}

/// Whether the first is at or below the second.
pub(crate) fn flat_below(a: Flat, b: Flat) -> bool
    ensures { IsTrue result ↔ IsBelow a b }
{
    match a {
        Flat::Bottom => true,
        Flat::One(n) => one_below(n, b),
        Flat::Many => match b {
            Flat::Many => true,
            _ => false,
        },
    }
}
