//! The functions of an object file.

ghost use Rattle.std.specs.Prelude.{◌≡◌, ◌≢◌, List, length, IfErr};
ghost use Rattle.pw_fields.specs.Fields.{u32_at, repeated};
ghost use Rattle.pw_fields.specs.FieldFaults.{AnswersField};
ghost use Rattle.pw_files.specs.Rising.{counted_at};
ghost use Rattle.pw_flow_ops.specs.Reading.{one_of_at};
ghost use Rattle.pw_object.specs.Functions.{fix_kinds, symbol_forms};
ghost use Rattle.pw_object.specs.Reading.{named_at, word_at, routine_at, symbol_of_form_at, symbol_at, fix_at, function_at};

use pw_fields::names::read_name;
use pw_fields::{FieldFault, read_choice, read_u32};
use pw_flow_ops::{read_below, read_one_of};
use pw_inst::{Fix, FixKind, ROUTINE_COUNT, Symbol};
use pw_items::Items;
use pw_value::Name;
use std::alloc::Global;

/// A function: its name, the bytes of its frame, its words and its fixes.
#[derive(Drop)]
pub struct ObjectFn {
    pub name: Name,
    pub frame: u32,
    pub words: Items<u32>,
    pub fixes: Items<Fix>,
}

/// Which symbol follows, in the order of their bytes.
#[derive(Clone, Copy)]
pub enum SymbolForm {
    Named,
    Word,
    StackLimit,
    Routine,
}

const SYMBOL_FORMS: [SymbolForm; 4] = [
    SymbolForm::Named,
    SymbolForm::Word,
    SymbolForm::StackLimit,
    SymbolForm::Routine,
];

const FIX_KINDS: [FixKind; 3] = [FixKind::Ldil, FixKind::Im14, FixKind::Bl];

/// A fix's kind.
fn read_kind(bytes: &[u8]) -> Result<(FixKind, &[u8]), FieldFault>
    ensures found { AnswersField (λ x. (x.0, x.1.now)) result (one_of_at fix_kinds bytes.now) }
    ensures no_memory { IfErr result (λ e. e ≢ FieldFault.NoMemory) }
{
    read_one_of(&FIX_KINDS, bytes)
}

/// Which symbol follows.
fn read_form(bytes: &[u8]) -> Result<(SymbolForm, &[u8]), FieldFault>
    ensures found { AnswersField (λ x. (x.0, x.1.now)) result (one_of_at symbol_forms bytes.now) }
    ensures no_memory { IfErr result (λ e. e ≢ FieldFault.NoMemory) }
{
    read_one_of(&SYMBOL_FORMS, bytes)
}

/// A symbol that is a name.
#[tactic(auto, unfolding(crate::specs::Reading::named_at))]
fn read_named<'a>(
    alloc: Global,
    names: &[Name],
    bytes: &'a [u8],
) -> Result<(Symbol, &'a [u8]), FieldFault>
    ensures { AnswersField (λ x. (x.0, x.1.now)) result (named_at names.now bytes.now) }
{
    let (name, rest) = read_name(names, bytes)?;
    Ok((Symbol::Named(name.copy(alloc)?), rest))
}

/// A symbol that is a word of the function.
#[tactic(auto, unfolding(crate::specs::Reading::word_at))]
fn read_word(bytes: &[u8]) -> Result<(Symbol, &[u8]), FieldFault>
    ensures found { AnswersField (λ x. (x.0, x.1.now)) result (word_at bytes.now) }
    ensures no_memory { IfErr result (λ e. e ≢ FieldFault.NoMemory) }
{
    let (word, rest) = read_u32(bytes)?;
    Ok((Symbol::Word(word), rest))
}

/// A symbol that is a routine.
#[tactic(auto, unfolding(crate::specs::Reading::routine_at))]
fn read_routine(bytes: &[u8]) -> Result<(Symbol, &[u8]), FieldFault>
    ensures found { AnswersField (λ x. (x.0, x.1.now)) result (routine_at bytes.now) }
    ensures no_memory { IfErr result (λ e. e ≢ FieldFault.NoMemory) }
{
    let (number, rest) = read_choice(ROUTINE_COUNT, bytes)?;
    Ok((Symbol::Routine(number), rest))
}

/// A symbol.
#[tactic(auto, unfolding(crate::specs::Reading::symbol_at))]
fn read_symbol<'a>(
    alloc: Global,
    names: &[Name],
    bytes: &'a [u8],
) -> Result<(Symbol, &'a [u8]), FieldFault>
    ensures { AnswersField (λ x. (x.0, x.1.now)) result (symbol_at names.now bytes.now) }
{
    let (form, rest) = read_form(bytes)?;
    match form {
        SymbolForm::Named => read_named(alloc, names, rest),
        SymbolForm::Word => read_word(rest),
        SymbolForm::StackLimit => Ok((Symbol::StackLimit, rest)),
        SymbolForm::Routine => read_routine(rest),
    }
}

/// A fix of a function of so many words.
#[tactic(auto, unfolding(crate::specs::Reading::fix_at))]
fn read_fix<'a>(
    alloc: Global,
    names: &[Name],
    words: usize,
    bytes: &'a [u8],
) -> Result<(Fix, &'a [u8]), FieldFault>
    ensures { AnswersField (λ x. (x.0, x.1.now)) result (fix_at names.now words bytes.now) }
{
    let (word, rest) = read_below(words, bytes)?;
    let (kind, rest) = read_kind(rest)?;
    let (symbol, rest) = read_symbol(alloc, names, rest)?;
    let (addend, rest) = read_u32(rest)?;
    let fix = Fix {
        word,
        kind,
        symbol,
        addend,
    };
    Ok((fix, rest))
}

/// So many words.
fn read_word_items(
    alloc: Global,
    count: u32,
    bytes: &[u8],
) -> Result<(Items<u32>, &[u8]), FieldFault>
    ensures { AnswersField (λ x. (x.0, x.1.now)) result (repeated u32_at count bytes.now) }
{
    let mut items = Items::new(alloc);
    let mut rest = bytes;
    for _ in 0..count {
        let (word, after) = read_u32(rest)?;
        items.push(word)?;
        rest = after;
    }
    Ok((items, rest))
}

/// So many fixes of a function of so many words.
fn read_fix_items<'a>(
    alloc: Global,
    names: &[Name],
    words: usize,
    count: u32,
    bytes: &'a [u8],
) -> Result<(Items<Fix>, &'a [u8]), FieldFault>
    ensures { AnswersField (λ x. (x.0, x.1.now)) result (repeated (fix_at names.now words) count bytes.now) }
{
    let mut items = Items::new(alloc);
    let mut rest = bytes;
    for _ in 0..count {
        let (fix, after) = read_fix(alloc, names, words, rest)?;
        items.push(fix)?;
        rest = after;
    }
    Ok((items, rest))
}

/// The count of words, and the words.
#[tactic(auto, unfolding(pw_files::specs::Rising::counted_at))]
fn read_words(alloc: Global, bytes: &[u8]) -> Result<(Items<u32>, &[u8]), FieldFault>
    ensures { AnswersField (λ x. (x.0, x.1.now)) result (counted_at u32_at bytes.now) }
{
    let (count, rest) = read_u32(bytes)?;
    read_word_items(alloc, count, rest)
}

/// The count of fixes, and the fixes.
#[tactic(auto, unfolding(pw_files::specs::Rising::counted_at))]
fn read_fixes<'a>(
    alloc: Global,
    names: &[Name],
    words: usize,
    bytes: &'a [u8],
) -> Result<(Items<Fix>, &'a [u8]), FieldFault>
    ensures { AnswersField (λ x. (x.0, x.1.now)) result (counted_at (fix_at names.now words) bytes.now) }
{
    let (count, rest) = read_u32(bytes)?;
    read_fix_items(alloc, names, words, count, rest)
}

/// A function of an object file, its name and those of its fixes in the table.
#[tactic(auto, unfolding(crate::specs::Reading::function_at))]
pub fn read_function<'a>(
    alloc: Global,
    names: &[Name],
    bytes: &'a [u8],
) -> Result<(ObjectFn, &'a [u8]), FieldFault>
    ensures { AnswersField (λ x. (x.0, x.1.now)) result (function_at names.now bytes.now) }
{
    let (name, rest) = read_name(names, bytes)?;
    let (frame, rest) = read_u32(rest)?;
    let (words, rest) = read_words(alloc, rest)?;
    let (fixes, rest) = read_fixes(alloc, names, words.len(), rest)?;
    let name = name.copy(alloc)?;
    Ok((
        ObjectFn {
            name,
            frame,
            words,
            fixes,
        },
        rest,
    ))
}
