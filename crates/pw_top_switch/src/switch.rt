//! The switch of a command line, and its other words.

ghost use Rattle.std.specs.Prelude.{◌≡◌, ◌++◌, ◌∷◌, [], ◌&&◌, ◌<◌, Some, codes, not, false, drop, take, length, map, option_map, string_bytes, suc, IfOk, IfSome, OnOk};
ghost use Rattle.std.specs.Str.{bytes_eq};
ghost use Rattle.pw_top_switch.specs.Switch.{has_value, is_named, is_switched, switch, switch_from, unswitched, without_place};

use std::alloc::{AllocError, Global};

/// The word that asks for optimised flow graphs.
const SWITCH: &str = "-O";

/// The words of a command line but the switch, and whether that stood among them.
#[derive(Drop)]
pub struct Line {
    pub optimise: bool,
    pub words: Vec<String>,
}

/// Whether a word that is or is not the value of an option ends the options.
fn ends_options(is_value: bool, word: &str) -> bool
    ensures { result ≡ (not is_value && bytes_eq word.now (codes "--")) }
{
    !is_value && word == "--"
}

/// Whether it is the switch.
fn is_switch(is_value: bool, word: &str) -> bool
    ensures { result ≡ (not is_value && bytes_eq word.now switch) }
{
    !is_value && word == SWITCH
}

/// Whether a word is an option that waits for its value, the next word.
fn waits_for_value(word: &str) -> bool
    ensures { result ≡ (is_named word.now && not (has_value word.now)) }
{
    match word.as_bytes() {
        [b'-', b'-', rest @ ..] => !rest.contains(&b'='),
        _ => false,
    }
}

/// Whether the word behind a word that is or is not the value of an option is one.
fn is_next_value(is_value: bool, word: &str) -> bool
    ensures { result ≡ (not is_value && (is_named word.now && not (has_value word.now))) }
{
    !is_value && waits_for_value(word)
}

/// The place of the switch among words, the first of which is the command's name.
fn switch_at(words: &[String]) -> Option<usize>
    ensures place { result ≡ option_map suc (switch_from false (drop 1 (map string_bytes words.now))) }
    ensures bound { IfSome result (λ n. n < length words.now) }
{
    let mut is_value = false;
    for at in 1..words.len() {
        let word = words[at].as_str();
        if ends_options(is_value, word) {
            return None;
        }
        if is_switch(is_value, word) {
            return Some(at);
        }
        is_value = is_next_value(is_value, word);
    }
    None
}

/// So many of the first words.
fn words_before(words: &[String], count: usize) -> &[String]
    ensures { result.now ≡ take count words.now }
{
    if count < words.len() {
        &words[..count]
    } else {
        words
    }
}

/// The words from a place on.
fn words_from(words: &[String], at: usize) -> &[String]
    ensures { result.now ≡ drop at words.now }
{
    if at < words.len() { &words[at..] } else { &[] }
}

/// Puts a word behind others.
fn push_word(line: &mut Vec<String>, word: String) -> Result<(), AllocError>
    ensures { OnOk result (line.new.items ≡ line.old.items ++ word ∷ []) }
{
    line.push(word)?;
    Ok(())
}

/// Puts a word behind others, again.
#[tactic(auto, using(crate::proofs::Switches::copy_pushed))]
fn push_copy(alloc: Global, line: &mut Vec<String>, word: &str) -> Result<(), AllocError>
    ensures { OnOk result (map string_bytes line.new.items ≡ map string_bytes line.old.items ++ word.now ∷ []) }
{
    push_word(line, String::from_str(alloc, word)?)
}

/// Puts words behind others, again.
fn push_copies(alloc: Global, line: &mut Vec<String>, words: &[String]) -> Result<(), AllocError>
    ensures { OnOk result (map string_bytes line.new.items ≡ map string_bytes line.old.items ++ map string_bytes words.now) }
{
    for word in words {
        push_copy(alloc, line, word.as_str())?;
    }
    Ok(())
}

/// All words, again.
fn all_words(alloc: Global, words: &[String]) -> Result<Vec<String>, AllocError>
    ensures { IfOk result (λ line. map string_bytes line.items ≡ map string_bytes words.now) }
{
    let mut line = Vec::new(alloc);
    push_copies(alloc, &mut line, words)?;
    Ok(line)
}

/// The words but the one at a place, again.
fn words_but(alloc: Global, words: &[String], at: usize) -> Result<Vec<String>, AllocError>
    requires { at < length words.now }
    ensures { IfOk result (λ line. map string_bytes line.items ≡ without_place (Some at) (map string_bytes words.now)) }
{
    let mut line = all_words(alloc, words_before(words, at))?;
    push_copies(alloc, &mut line, words_from(words, at + 1))?;
    Ok(line)
}

/// The words but the one at a place, if one is given.
fn others(alloc: Global, words: &[String], place: Option<usize>) -> Result<Vec<String>, AllocError>
    requires { IfSome place (λ n. n < length words.now) }
    ensures { IfOk result (λ line. map string_bytes line.items ≡ without_place place (map string_bytes words.now)) }
{
    match place {
        None => all_words(alloc, words),
        Some(at) => words_but(alloc, words, at),
    }
}

/// The words of a command line but the switch, which stands behind the command's name: in front of `--`, and not as the value
/// of an option. A second one stays.
pub fn line_of(alloc: Global, words: &[String]) -> Result<Line, AllocError>
    ensures optimise { IfOk result (λ line. line.optimise ≡ is_switched (drop 1 (map string_bytes words.now))) }
    ensures words { IfOk result (λ line. drop 1 (map string_bytes line.words.items) ≡ unswitched (drop 1 (map string_bytes words.now))) }
{
    let place = switch_at(words);
    let others = others(alloc, words, place)?;
    Ok(Line {
        optimise: place.is_some(),
        words: others,
    })
}
