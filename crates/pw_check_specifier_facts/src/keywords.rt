//! Keywords of types (C90 6.5.2).

ghost use Rattle.std.specs.Prelude.{◌≡◌, ◌==◌, option_map, map};
ghost use Rattle.std.specs.List.{list_all};
ghost use Rattle.pw_check_specifier_facts.specs.Rows.{row_found};
ghost use Rattle.pw_check_rules.specs.SpecifierLists as spec;
ghost use Rattle.pw_types.specs.Views.{view_qtype};

use pw_check_types::plain;
use pw_tree::BasicType;
use pw_types::{CType, IntKind, QType};

/// The lists of keywords that say a type (C90 6.5.2), each with its integer type, `void` with none. A plain `char` is a
/// type of its own, and a list without keywords is `int`.
const TABLE: [(&[BasicType], Option<IntKind>); 22] = [
    (&[BasicType::Void], None),
    (&[BasicType::Char], Some(IntKind::Char)),
    (&[BasicType::Signed, BasicType::Char], Some(IntKind::SChar)),
    (
        &[BasicType::Unsigned, BasicType::Char],
        Some(IntKind::UChar),
    ),
    (&[BasicType::Short], Some(IntKind::Short)),
    (&[BasicType::Signed, BasicType::Short], Some(IntKind::Short)),
    (&[BasicType::Short, BasicType::Int], Some(IntKind::Short)),
    (
        &[BasicType::Signed, BasicType::Short, BasicType::Int],
        Some(IntKind::Short),
    ),
    (
        &[BasicType::Unsigned, BasicType::Short],
        Some(IntKind::UShort),
    ),
    (
        &[BasicType::Unsigned, BasicType::Short, BasicType::Int],
        Some(IntKind::UShort),
    ),
    (&[BasicType::Int], Some(IntKind::Int)),
    (&[BasicType::Signed], Some(IntKind::Int)),
    (&[BasicType::Signed, BasicType::Int], Some(IntKind::Int)),
    (&[], Some(IntKind::Int)),
    (&[BasicType::Unsigned], Some(IntKind::UInt)),
    (&[BasicType::Unsigned, BasicType::Int], Some(IntKind::UInt)),
    (&[BasicType::Long], Some(IntKind::Long)),
    (&[BasicType::Signed, BasicType::Long], Some(IntKind::Long)),
    (&[BasicType::Long, BasicType::Int], Some(IntKind::Long)),
    (
        &[BasicType::Signed, BasicType::Long, BasicType::Int],
        Some(IntKind::Long),
    ),
    (
        &[BasicType::Unsigned, BasicType::Long],
        Some(IntKind::ULong),
    ),
    (
        &[BasicType::Unsigned, BasicType::Long, BasicType::Int],
        Some(IntKind::ULong),
    ),
];

/// The place of a keyword in the list of them.
fn number_of_word(word: BasicType) -> u8
    ensures { result ≡ spec.number_of_word word }
{
    match word {
        BasicType::Void => 0,
        BasicType::Char => 1,
        BasicType::Short => 2,
        BasicType::Int => 3,
        BasicType::Long => 4,
        BasicType::Float => 5,
        BasicType::Double => 6,
        BasicType::Signed => 7,
        BasicType::Unsigned => 8,
    }
}

/// How often a keyword stands in a list.
fn times(word: BasicType, words: &[BasicType]) -> usize
    ensures { result ≡ spec.times word words.now }
{
    let number = number_of_word(word);
    words
        .iter()
        .filter(|other| number_of_word(**other) == number)
        .count()
}

/// Whether a keyword stands in two lists as often.
fn is_as_often(word: BasicType, a: &[BasicType], b: &[BasicType]) -> bool
    ensures { result ≡ (spec.times word a.now == spec.times word b.now) }
{
    times(word, a) == times(word, b)
}

/// Whether each keyword of the first list stands in the second as often.
fn are_as_often(a: &[BasicType], b: &[BasicType]) -> bool
    ensures { result ≡ list_all (λ w. spec.times w a.now == spec.times w b.now) a.now }
{
    for word in a {
        if !is_as_often(*word, a, b) {
            return false;
        }
    }
    true
}

/// Whether two lists have the same keywords, in whatever order.
fn same_words(a: &[BasicType], b: &[BasicType]) -> bool
    ensures { result ≡ spec.same_words a.now b.now }
{
    a.len() == b.len() && are_as_often(a, b)
}

/// The first row of a table with these keywords.
fn row_of_words(
    table: &[(&[BasicType], Option<IntKind>)],
    words: &[BasicType],
) -> Option<Option<IntKind>>
    ensures { result ≡ row_found (map (λ row. (row.0.now, row.1)) table.now) words.now }
{
    let mut rest = table;
    while let [row, after @ ..] = rest {
        if same_words(row.0, words) {
            return Some(row.1);
        }
        rest = after;
    }
    None
}

/// The first row of the table with these keywords.
fn kind_of_words(words: &[BasicType]) -> Option<Option<IntKind>>
    ensures { result ≡ row_found (map (λ row. (row.0.now, row.1)) TABLE) words.now }
{
    row_of_words(&TABLE, words)
}

/// The type that keywords say.
#[tactic(auto, unfolding(pw_types::specs::Views::view_type), using(crate::proofs::RowLemmas::table_says))]
fn type_of_words(words: &[BasicType]) -> Option<QType>
    ensures { option_map view_qtype result ≡ spec.type_of_words words.now }
{
    match kind_of_words(words)? {
        Some(kind) => Some(plain(CType::Int(kind))),
        None => Some(plain(CType::Void)),
    }
}

/// One type, said by keywords or else.
pub(crate) fn type_listed(words: &[BasicType], others: Vec<QType>) -> Option<QType>
    ensures { option_map view_qtype result ≡ spec.type_listed words.now (map view_qtype others.items) }
{
    let mut others = others;
    if others.is_empty() {
        return type_of_words(words);
    }
    if words.is_empty() && others.len() == 1 {
        others.pop()
    } else {
        None
    }
}
