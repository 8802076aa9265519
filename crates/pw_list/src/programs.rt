//! The listing of a program.

ghost use Rattle.std.specs.Prelude.{◌≡◌, ◌++◌, ◌+◌, ◌*◌, ◌<◌, ◌≤◌, ◌^◌, List, All, length, map, IfOk, IfErr, OnOk};
ghost use Rattle.std.specs.List.Sorted.{IsPermutation};
ghost use Rattle.pw_value.specs.Limits.{text_start, word_limit};
ghost use Rattle.pw_image.specs.declared.image.Image.{Image as AnyImage};
ghost use Rattle.pw_image.specs.Image.{Contents, IsImage, IsImageFile, IsInText};
ghost use Rattle.pw_image.specs.Reading.{image_file_at};
ghost use Rattle.pw_image.specs.Loading.{FailsLoad};
ghost use Rattle.pw_list.specs.Listing.{IsByAddress, IsListing, IsListingOf, function_lines, lines_of, next_address, words_between};

use crate::lines::push_words;
use pw_image::{Function, Image, LoadError, read_image};
use pw_items::refs_of;
use pw_value::limits::TEXT_START;
use std::alloc::{AllocError, Global};

/// The functions in order of address; those of one address stay in their order.
fn by_address(alloc: Global, functions: &[Function]) -> Result<Vec<&Function>, AllocError>
    ensures order { IfOk result (λ v. IsByAddress functions.now (map (λ f. f.now) v.items)) }
    ensures same { IfOk result (λ v. IsPermutation functions.now (map (λ f. f.now) v.items)) }
{
    let mut ordered = refs_of(alloc, functions)?;
    ordered.sort_by_key(|function| function.address)?;
    Ok(ordered)
}

/// The words from one address up to another, as far as the text goes.
fn words_between(words: &[u32], from: u32, to: u32) -> &[u32]
    requires { IsInText (length words.now) from }
    ensures { result.now ≡ words_between words.now from to }
{
    let start = ((from - TEXT_START) / 4) as usize;
    let (_, behind) = words.split_at(start);
    let count = (to.saturating_sub(from) / 4) as usize;
    behind.split_at(count.min(behind.len())).0
}

/// Puts a function behind a text: its name and frame, and its words up to an address.
#[tactic(auto, unfolding(crate::specs::Listing::function_lines))]
fn push_function(
    alloc: Global,
    text: &mut Vec<u8>,
    words: &[u32],
    function: &Function,
    end: u32,
) -> Result<(), AllocError>
    requires few { length words.now ≤ word_limit }
    requires within { IsInText (length words.now) function.now.address }
    ensures { OnOk result (text.new.items ≡ text.old.items ++ function_lines words.now function.now end) }
{
    text.extend_from_slice(function.name.as_bytes())?;
    text.extend_from_slice(format!(in alloc; " frame {}\n", function.frame)?.as_bytes())?;
    let own = words_between(words, function.address, end);
    push_words(alloc, text, own, function.address)
}

/// Where the words of the next function begin; those of the last one end with the text.
fn next_address(words: &[u32], functions: &[&Function]) -> u32
    requires { length words.now ≤ word_limit }
    ensures { result ≡ next_address words.now (map (λ f. f.now) functions.now) }
{
    match functions.first() {
        Some(next) => next.address,
        None => TEXT_START + 4 * words.len() as u32,
    }
}

/// Puts functions behind a text, each with its words up to the next one.
fn push_functions(
    alloc: Global,
    text: &mut Vec<u8>,
    words: &[u32],
    functions: &[&Function],
) -> Result<(), AllocError>
    requires few { length words.now ≤ word_limit }
    requires within { All (λ f. IsInText (length words.now) f.now.address) functions.now }
    ensures { OnOk result (text.new.items ≡ text.old.items ++ lines_of words.now (map (λ f. f.now) functions.now)) }
{
    for (i, function) in functions.iter().enumerate() {
        let (_, later) = functions.split_at(i + 1);
        push_function(alloc, text, words, function, next_address(words, later))?;
    }
    Ok(())
}

/// The listing of an image: for each function of its map, in order of address, a line with its name and frame, and
/// a line for each word up to the next function.
///
/// A word's line has its address and the word as eight hexadecimal digits each, and its instruction, or `?` for a
/// word that is none. Fails only where memory runs out.
pub fn image_text(alloc: Global, image: &Image) -> Result<Vec<u8>, AllocError>
    requires { IsImage image.now }
    ensures { IfOk result (λ text. IsListing image.now text.items) }
{
    let ordered = by_address(alloc, image.functions.as_slice())?;
    let mut text = Vec::new(alloc);
    push_functions(alloc, &mut text, image.memory.words.as_slice(), &ordered)?;
    Ok(text)
}

/// The listing of the program in an image file, as of [`image_text`]. A fault is the first field of the file, in
/// order, that is short or breaks its rule.
pub fn listing(alloc: Global, bytes: &[u8]) -> Result<Vec<u8>, LoadError>
    // The bytes are an image's file, and the text is its listing.
    ensures found { IfOk result (λ text. (c : Contents AnyImage) × IsImageFile bytes.now c × IsListing c.value text.items) }
    // It is that of the image that reading finds.
    ensures exact { IfOk result (λ text. IsListingOf (image_file_at bytes.now) text.items) }
    // Which fault it is.
    ensures fault { IfErr result (λ e. FailsLoad e (image_file_at bytes.now)) }
{
    let image = read_image(alloc, bytes)?;
    Ok(image_text(alloc, &image)?)
}
