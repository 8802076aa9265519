//! The code of an object's functions as text.

use pw_object::{Fix, FixKind, Object, ObjectFn, Symbol};
use pw_rows::Text;

/// Adds what a relocation is of.
fn push_symbol(text: &mut Text, symbol: &Symbol) {
    match symbol {
        Symbol::Named(name) => text.push(name.as_bytes()),
        Symbol::Word(word) => {
            text.push(b"@");
            text.display(word);
        }
        Symbol::StackLimit => text.push(b"$stacklim"),
        Symbol::Routine(number) => {
            text.push(b"$");
            text.display(number);
        }
    }
}

/// How a kind of relocation is called.
fn kind_text(kind: FixKind) -> &'static [u8] {
    match kind {
        FixKind::Ldil => b":LDIL:",
        FixKind::Im14 => b":im14:",
        FixKind::Bl => b":BL:",
    }
}

/// Adds a relocation: its word, its kind, what it is of, and what is added.
fn push_fix(text: &mut Text, fix: &Fix) {
    text.push(b" ");
    text.display(&fix.word);
    text.push(kind_text(fix.kind));
    push_symbol(text, &fix.symbol);
    text.push(b"+");
    text.display(&fix.addend);
}

/// Adds a function's words.
fn push_words(text: &mut Text, words: &[u32]) {
    for word in words {
        text.push(b" ");
        text.word(*word);
    }
}

/// Adds a function: its name, its frame, how many words it has, the words and the relocations.
fn push_function(text: &mut Text, f: &ObjectFn) {
    text.push(f.name.as_bytes());
    text.push(b" ");
    text.display(&f.frame);
    text.push(b" ");
    text.display(&f.words.as_slice().len());
    text.push(b":");
    push_words(text, f.words.as_slice());
    for fix in f.fixes.as_slice() {
        push_fix(text, fix);
    }
    text.push(b"; ");
}

/// Adds the functions of an object.
pub fn push_object(text: &mut Text, object: &Object) {
    for f in object.functions.as_slice() {
        push_function(text, f);
    }
}
