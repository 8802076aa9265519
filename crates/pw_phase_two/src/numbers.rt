//! Numbers of 32 bits: what their type says of each of them, as it is read.

ghost use Rattle.std.specs.List.{AllByRecursion};
ghost use Rattle.pw_phase_two.specs.Numbers.{HasWordNumber, HasWordNumbers};
ghost use Rattle.pw_fields.specs.Fields.{FitsU32};

use pw_inst::{Fix, Symbol};
use pw_object::ObjectFn;

/// Words are numbers of 32 bits.
fn words_fit(words: &[u32])
    ensures { AllByRecursion FitsU32 words.now }
{}

/// The word that a symbol names has a number of 32 bits.
fn symbol_fits(symbol: &Symbol)
    ensures { HasWordNumber symbol.now }
{
    match symbol {
        Symbol::Word(word) => {
            let _word = *word;
        }
        Symbol::Named(_) | Symbol::StackLimit | Symbol::Routine(_) => {}
    }
}

/// The numbers of a relocation have 32 bits.
fn fix_fits(fix: &Fix)
    ensures { HasWordNumbers fix.now }
{
    let _addend = fix.addend;
    symbol_fits(&fix.symbol);
}

/// The numbers of relocations have 32 bits.
fn fixes_fit(fixes: &[Fix])
    ensures { AllByRecursion HasWordNumbers fixes.now }
{
    let mut rest = fixes;
    while let [fix, after @ ..] = rest {
        fix_fits(fix);
        rest = after;
    }
}

/// The numbers of a function have 32 bits.
pub fn numbers_fit(f: &ObjectFn)
    ensures frame { FitsU32 f.now.frame }
    ensures words { AllByRecursion FitsU32 f.now.words }
    ensures fixes { AllByRecursion HasWordNumbers f.now.fixes }
{
    let _frame = f.frame;
    words_fit(f.words.as_slice());
    fixes_fit(f.fixes.as_slice());
}
