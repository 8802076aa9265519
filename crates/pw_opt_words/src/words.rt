//! Operations on words that are known to the optimiser: what comes of them, where one is known.

ghost use Rattle.std.specs.Prelude.{ℕ, ◌≡◌, ◌<◌, true};
ghost use Rattle.pw_value.specs.Values.{extended};
ghost use Rattle.pw_opt_rules.specs.declared.flat.Flat.TheVariants.{One, Many};
ghost use Rattle.pw_opt_rules.specs.declared.flat.Flat.{Flat as FlatValue};
ghost use Rattle.pw_opt_rules.specs.Flat.{of_one, of_two};
ghost use Rattle.pw_opt_rules.specs.Constants.{truth, un_word, ext_word, word_or_many, bin_word};

use pw_flow::{BinKind, ExtKind, UnKind};
use pw_opt_rules::Flat;
use pw_value::{WordFault, words};

/// 1 where it holds, and else 0.
fn truth_of(holds: bool) -> Flat
    ensures { result ≡ One (truth holds) }
{
    Flat::One(u32::from(holds))
}

/// A word, unless the operation has none.
fn word_of(word: Result<u32, WordFault>) -> Flat
    ensures { result ≡ word_or_many word }
{
    match word {
        Ok(n) => Flat::One(n),
        Err(_) => Flat::Many,
    }
}

/// An operation on one word.
fn unary(kind: UnKind, a: u32) -> u32
    ensures { result ≡ un_word kind a }
{
    match kind {
        UnKind::Neg => words::unsigned_negation(a),
        UnKind::Not => words::complement(a),
    }
}

/// A byte extended by its sign.
fn signed_byte(low: u32) -> u32
    requires { low < 256 }
    ensures { result ≡ extended 1 true low }
{
    if 256 <= 2 * low {
        u32::MAX - 255 + low
    } else {
        low
    }
}

/// Two bytes extended by their sign.
fn signed_half(low: u32) -> u32
    requires { low < 65536 }
    ensures { result ≡ extended 2 true low }
{
    if 65536 <= 2 * low {
        u32::MAX - 65535 + low
    } else {
        low
    }
}

/// The low bits of a word, extended.
fn extension(kind: ExtKind, a: u32) -> u32
    ensures { result ≡ ext_word kind a }
{
    match kind {
        ExtKind::S8 => signed_byte(a % 256),
        ExtKind::U8 => a % 256,
        ExtKind::S16 => signed_half(a % 65536),
        ExtKind::U16 => a % 65536,
    }
}

/// Arithmetic and shifts of two words, or comparisons of them.
fn binary(kind: BinKind, a: u32, b: u32) -> Flat
    ensures { result ≡ bin_word kind a b }
{
    match kind {
        BinKind::Add => Flat::One(words::unsigned_sum(a, b)),
        BinKind::Sub => Flat::One(words::unsigned_difference(a, b)),
        BinKind::And => Flat::One(a & b),
        BinKind::Or => Flat::One(a | b),
        BinKind::Xor => Flat::One(a ^ b),
        BinKind::Mul => Flat::One(words::unsigned_product(a, b)),
        BinKind::DivS => word_of(words::signed_quotient(a, b)),
        BinKind::DivU => word_of(words::unsigned_quotient(a, b)),
        BinKind::RemS => word_of(words::signed_remainder(a, b)),
        BinKind::RemU => word_of(words::unsigned_remainder(a, b)),
        BinKind::Shl => word_of(words::shift_left(a, b)),
        BinKind::ShrS => word_of(words::signed_shift_right(a, b)),
        BinKind::ShrU => word_of(words::unsigned_shift_right(a, b)),
        BinKind::Eq => truth_of(a == b),
        BinKind::Ne => truth_of(a != b),
        BinKind::LtS => truth_of(words::signed_less(a, b)),
        BinKind::LeS => truth_of(words::signed_at_most(a, b)),
        BinKind::LtU => truth_of(words::unsigned_less(a, b)),
        BinKind::LeU => truth_of(words::unsigned_at_most(a, b)),
    }
}

/// What comes of a word and another that is known.
fn with_second(kind: BinKind, m: u32, b: Flat) -> Flat
    ensures { result ≡ of_two (bin_word kind) (One m) b }
{
    match b {
        Flat::Bottom => Flat::Bottom,
        Flat::One(n) => binary(kind, m, n),
        Flat::Many => Flat::Many,
    }
}

/// What comes of one that is known, beside one that may be anything.
fn beside_many(b: Flat) -> Flat
    ensures { (g : ℕ → ℕ → FlatValue) → result ≡ of_two g Many b }
{
    match b {
        Flat::Bottom => Flat::Bottom,
        _ => Flat::Many,
    }
}

/// What comes of one that is known.
pub fn of_unary(kind: UnKind, a: Flat) -> Flat
    ensures { result ≡ of_one (λ x. One (un_word kind x)) a }
{
    match a {
        Flat::Bottom => Flat::Bottom,
        Flat::One(n) => Flat::One(unary(kind, n)),
        Flat::Many => Flat::Many,
    }
}

/// What comes of one that is known.
pub fn of_extension(kind: ExtKind, a: Flat) -> Flat
    ensures { result ≡ of_one (λ x. One (ext_word kind x)) a }
{
    match a {
        Flat::Bottom => Flat::Bottom,
        Flat::One(n) => Flat::One(extension(kind, n)),
        Flat::Many => Flat::Many,
    }
}

/// What comes of two that are known.
pub fn of_binary(kind: BinKind, a: Flat, b: Flat) -> Flat
    ensures { result ≡ of_two (bin_word kind) a b }
{
    match a {
        Flat::Bottom => Flat::Bottom,
        Flat::One(m) => with_second(kind, m, b),
        Flat::Many => beside_many(b),
    }
}
