//! Reading an image file.

ghost use Rattle.std.specs.Prelude.{◌≡◌, ◌≢◌, ◌+◌, ℕ, nat_le, List, length, map, IfOk, IfErr, Ok};
ghost use Rattle.pw_fields.specs.Fields.{u32_at, items_at, repeated, checked};
ghost use Rattle.std.specs.Prelude.{◌<◌, ◌^◌};
ghost use Rattle.std.specs.List.{flat_map};
ghost use Rattle.pw_fields.specs.Fields.{text};
ghost use Rattle.pw_fields.specs.FieldFrame.{ended};
ghost use Rattle.pw_fields.specs.FieldNames.{first_unused};
ghost use Rattle.pw_fields.specs.FieldFaults.{AnswersField, GivesFile};
ghost use Rattle.pw_files.specs.Contents.{broken_at, value_of};
ghost use Rattle.pw_image.specs.declared.image.Image.{Image as AnyImage};
ghost use Rattle.pw_image.specs.Image.{Contents, data_start, free_behind, contents_view, names_of, IsImageFile};
ghost use Rattle.pw_image.specs.Reading.{is_in_text, item_at, map_at, next_free, memory_at, function_at, global_at, start_at, is_lawful_start, contents_at, payload_at, image_file_at};

use crate::image::{DataItem, Function, GlobalObject, Image, Memory, data_start};
use pw_fields::frame::{check_digest, open};
use pw_fields::names::{read_name, read_names};
use pw_fields::{FieldFault, read_bytes, read_u32};
use pw_files::late::check_used;
use pw_files::places::{read_item_bytes, read_offset};
use pw_items::Items;
use pw_value::limits::{MEMORY_SIZE, TEXT_START, WORD_LIMIT};
use pw_value::{FileError, Name};
use std::alloc::{AllocError, Global};

/// `PAWI`, the first four bytes of an image file.
pub const KIND: u32 = 0x5041_5749;

/// The version of the form of an image file.
pub const VERSION: u32 = 1;

/// Whether an address is that of a word, in a text of so many words.
fn is_word_address(words: u64, address: u32) -> bool
    ensures { result ≡ is_in_text words address }
{
    address % 4 == 0 && TEXT_START <= address && u64::from((address - TEXT_START) / 4) < words
}

/// A number, of at most so many.
fn read_at_most(most: u32, bytes: &[u8]) -> Result<(u32, &[u8]), FieldFault>
    ensures read { AnswersField (λ x. (x.0, x.1.now)) result (checked (λ n. nat_le n most) u32_at bytes.now) }
    ensures no_memory { IfErr result (λ e. e ≢ FieldFault.NoMemory) }
{
    let (number, rest) = read_u32(bytes)?;
    if number <= most {
        Ok((number, rest))
    } else {
        Err(FieldFault::Fault { left: bytes.len() })
    }
}

/// The words of the text.
fn read_words(alloc: Global, count: u32, bytes: &[u8]) -> Result<(Items<u32>, &[u8]), FieldFault>
    ensures { AnswersField (λ x. (x.0, x.1.now)) result (repeated u32_at count bytes.now) }
{
    let mut words = Items::new(alloc);
    let mut rest = bytes;
    for _ in 0..count {
        let (word, after) = read_u32(rest)?;
        words.push(word)?;
        rest = after;
    }
    Ok((words, rest))
}

/// The data's size, where the data end before the stack does.
fn read_data_size(words: u32, stack_end: u32, bytes: &[u8]) -> Result<(u32, &[u8]), FieldFault>
    ensures read { AnswersField (λ x. (x.0, x.1.now)) result (checked (λ s. nat_le (data_start words + s) stack_end) u32_at bytes.now) }
    ensures no_memory { IfErr result (λ e. e ≢ FieldFault.NoMemory) }
{
    let (size, rest) = read_u32(bytes)?;
    if data_start(words) + u64::from(size) <= u64::from(stack_end) {
        Ok((size, rest))
    } else {
        Err(FieldFault::Fault { left: bytes.len() })
    }
}

/// An item of the data, whose offset is at least `free`.
#[tactic(auto, unfolding(crate::specs::Reading::item_at))]
fn read_item(
    alloc: Global,
    size: u32,
    free: u64,
    bytes: &[u8],
) -> Result<(DataItem, &[u8]), FieldFault>
    ensures { AnswersField (λ x. (x.0, x.1.now)) result (item_at size free bytes.now) }
{
    let (offset, rest) = read_offset(size, free, bytes)?;
    let (text, rest) = read_item_bytes(size, offset, rest)?;
    let bytes = Items::from_slice(alloc, text)?;
    Ok((DataItem { offset, bytes }, rest))
}

/// The items of the data.
fn read_items(
    alloc: Global,
    size: u32,
    count: u32,
    bytes: &[u8],
) -> Result<(Items<DataItem>, &[u8]), FieldFault>
    ensures { AnswersField (λ x. (x.0, x.1.now)) result (items_at (item_at size) next_free count 0 bytes.now) }
{
    let mut items = Items::new(alloc);
    let mut rest = bytes;
    let mut free = 0u64;
    for _ in 0..count {
        let (item, after) = read_item(alloc, size, free, rest)?;
        free = free_after(&item);
        items.push(item)?;
        rest = after;
    }
    Ok((items, rest))
}

/// The least offset of an item behind this one.
fn free_after(item: &DataItem) -> u64
    ensures { result ≡ free_behind item.now }
{
    u64::from(item.offset) + (item.bytes.as_slice().len() as u64).max(1)
}

/// What a machine starts with, but for the rule of the entry.
#[tactic(auto, unfolding(crate::specs::Reading::memory_at))]
fn read_memory(alloc: Global, bytes: &[u8]) -> Result<(Memory, &[u8]), FieldFault>
    ensures { AnswersField (λ x. (x.0, x.1.now)) result (memory_at bytes.now) }
{
    let (entry, rest) = read_u32(bytes)?;
    let (stack, rest) = read_u32(rest)?;
    let (stack_end, rest) = read_at_most(MEMORY_SIZE, rest)?;
    let (count, rest) = read_at_most(WORD_LIMIT, rest)?;
    let (words, rest) = read_words(alloc, count, rest)?;
    let (data_size, rest) = read_data_size(count, stack_end, rest)?;
    let (item_count, rest) = read_u32(rest)?;
    let (items, rest) = read_items(alloc, data_size, item_count, rest)?;
    let memory = Memory {
        entry,
        stack,
        stack_end,
        words,
        data_size,
        items,
    };
    Ok((memory, rest))
}

/// A function of the map, whose address is that of a word.
#[tactic(auto, unfolding(crate::specs::Reading::function_at))]
fn read_function<'a>(
    alloc: Global,
    names: &[Name],
    words: u64,
    bytes: &'a [u8],
) -> Result<(Function, &'a [u8]), FieldFault>
    ensures { AnswersField (λ x. (x.0, x.1.now)) result (function_at names.now words bytes.now) }
{
    let (name, rest) = read_name(names, bytes)?;
    let (address, rest) = read_address(words, rest)?;
    let (frame, rest) = read_u32(rest)?;
    let name = name.copy(alloc)?;
    Ok((
        Function {
            name,
            address,
            frame,
        },
        rest,
    ))
}

/// A number that is a word's address.
fn read_address(words: u64, bytes: &[u8]) -> Result<(u32, &[u8]), FieldFault>
    ensures read { AnswersField (λ x. (x.0, x.1.now)) result (checked (is_in_text words) u32_at bytes.now) }
    ensures no_memory { IfErr result (λ e. e ≢ FieldFault.NoMemory) }
{
    let (address, rest) = read_u32(bytes)?;
    if is_word_address(words, address) {
        Ok((address, rest))
    } else {
        Err(FieldFault::Fault { left: bytes.len() })
    }
}

/// The functions of the map.
fn read_functions<'a>(
    alloc: Global,
    names: &[Name],
    words: u64,
    count: u32,
    bytes: &'a [u8],
) -> Result<(Items<Function>, &'a [u8]), FieldFault>
    ensures { AnswersField (λ x. (x.0, x.1.now)) result (repeated (function_at names.now words) count bytes.now) }
{
    let mut functions = Items::new(alloc);
    let mut rest = bytes;
    for _ in 0..count {
        let (function, after) = read_function(alloc, names, words, rest)?;
        functions.push(function)?;
        rest = after;
    }
    Ok((functions, rest))
}

/// A global object of the map.
#[tactic(auto, unfolding(crate::specs::Reading::global_at))]
fn read_global<'a>(
    alloc: Global,
    names: &[Name],
    bytes: &'a [u8],
) -> Result<(GlobalObject, &'a [u8]), FieldFault>
    ensures { AnswersField (λ x. (x.0, x.1.now)) result (global_at names.now bytes.now) }
{
    let (name, rest) = read_name(names, bytes)?;
    let (address, rest) = read_u32(rest)?;
    let name = name.copy(alloc)?;
    Ok((GlobalObject { name, address }, rest))
}

/// The global objects of the map.
fn read_globals<'a>(
    alloc: Global,
    names: &[Name],
    count: u32,
    bytes: &'a [u8],
) -> Result<(Items<GlobalObject>, &'a [u8]), FieldFault>
    ensures { AnswersField (λ x. (x.0, x.1.now)) result (repeated (global_at names.now) count bytes.now) }
{
    let mut globals = Items::new(alloc);
    let mut rest = bytes;
    for _ in 0..count {
        let (global, after) = read_global(alloc, names, rest)?;
        globals.push(global)?;
        rest = after;
    }
    Ok((globals, rest))
}

/// The entry and the count of words: whether the entry is a word's address.
#[tactic(auto, unfolding(crate::specs::Reading::start_at))]
fn read_start(bytes: &[u8]) -> Result<(bool, &[u8]), FieldFault>
    ensures found { AnswersField (λ x. (x.0, x.1.now)) result (start_at bytes.now) }
    ensures no_memory { IfErr result (λ e. e ≢ FieldFault.NoMemory) }
{
    let (entry, rest) = read_u32(bytes)?;
    let (_, rest) = read_bytes(8, rest)?;
    let (count, rest) = read_u32(rest)?;
    Ok((is_word_address(u64::from(count), entry), rest))
}

/// Whether the entry is a word's address.
fn is_start_lawful(bytes: &[u8]) -> bool
    ensures { result ≡ is_lawful_start (start_at bytes.now) }
{
    match read_start(bytes) {
        Ok((fits, _)) => fits,
        Err(_) => false,
    }
}

/// The names of the functions.
fn function_names(alloc: Global, functions: &[Function]) -> Result<Vec<&Name>, AllocError>
    ensures { IfOk result (λ v. map (λ name. name.now) v.items ≡ map (λ f. f.name) functions.now) }
{
    let mut used = Vec::new(alloc);
    for function in functions {
        used.push(&function.name)?;
    }
    Ok(used)
}

/// The names that an image uses.
pub(crate) fn used_names(alloc: Global, image: &Image) -> Result<Vec<&Name>, AllocError>
    ensures { IfOk result (λ v. map (λ name. name.now) v.items ≡ names_of image.now) }
{
    let mut used = function_names(alloc, image.functions.as_slice())?;
    for global in image.globals.as_slice() {
        used.push(&global.name)?;
    }
    Ok(used)
}

/// The table of names and the image, where no rule of the contents but that of the entry is broken.
#[tactic(auto, unfolding(crate::specs::Reading::contents_at))]
fn read_contents(alloc: Global, bytes: &[u8]) -> Result<((Vec<Name>, Image), &[u8]), FieldFault>
    ensures { AnswersField (λ x. (contents_view x.0, x.1.now)) result (contents_at bytes.now) }
{
    let (memory, rest) = read_memory(alloc, bytes)?;
    let (names, rest) = read_names(alloc, rest)?;
    read_behind_names(alloc, memory, names, rest)
}

/// The table of names and the image, whose functions and global objects the bytes are.
fn read_behind_names(
    alloc: Global,
    memory: Memory,
    names: Vec<Name>,
    bytes: &[u8],
) -> Result<((Vec<Name>, Image), &[u8]), FieldFault>
    requires { length (flat_map text names.items) + length bytes.now < 2 ^ 64 }
    ensures { AnswersField (λ x. (contents_view x.0, x.1.now)) result (map_at memory names.items bytes.now) }
{
    let (function_count, rest) = read_u32(bytes)?;
    let words = memory.words.len() as u64;
    let (functions, rest) = read_functions(alloc, &names, words, function_count, rest)?;
    let (global_count, rest) = read_u32(rest)?;
    let (globals, rest) = read_globals(alloc, &names, global_count, rest)?;
    let image = Image {
        memory,
        functions,
        globals,
    };
    end_contents(alloc, names, image, bytes.len(), rest)
}

/// The table of names and the image, where nothing is left behind them and no late rule is broken.
fn end_contents(
    alloc: Global,
    names: Vec<Name>,
    image: Image,
    behind: usize,
    rest: &[u8],
) -> Result<((Vec<Name>, Image), &[u8]), FieldFault>
    requires { length (flat_map text names.items) + behind < 2 ^ 64 }
    ensures { AnswersField (λ x. (contents_view x.0, x.1.now)) result (ended (first_unused names.items (names_of image) behind) (contents_view (names, image)) rest.now) }
{
    if !rest.is_empty() {
        return Err(FieldFault::Fault { left: rest.len() });
    }
    check_last(alloc, &names, &image, behind)?;
    Ok(((names, image), rest))
}

/// The rule that is looked at last: each name of the table is used, where so many bytes are left behind the table.
fn check_last(alloc: Global, names: &[Name], image: &Image, behind: usize) -> Result<(), FieldFault>
    requires { length (flat_map text names.now) + behind < 2 ^ 64 }
    ensures { AnswersField (λ x. x) result (broken_at (first_unused names.now (names_of image.now) behind)) }
{
    let used = used_names(alloc, image)?;
    check_used(alloc, names, used, behind)
}

/// The table of names and the image.
#[tactic(auto, unfolding(crate::specs::Reading::payload_at))]
fn read_payload(alloc: Global, bytes: &[u8]) -> Result<((Vec<Name>, Image), &[u8]), FieldFault>
    ensures { AnswersField (λ x. (contents_view x.0, x.1.now)) result (payload_at bytes.now) }
{
    if is_start_lawful(bytes) {
        read_contents(alloc, bytes)
    } else {
        Err(FieldFault::Fault { left: bytes.len() })
    }
}

/// The table of names and the image of a whole file.
#[tactic(auto, unfolding(crate::specs::Reading::image_file_at, pw_fields::specs::FieldFrame::file_at))]
fn read_file(alloc: Global, bytes: &[u8]) -> Result<(Vec<Name>, Image), FileError>
    ensures { GivesFile contents_view result (image_file_at bytes.now) }
{
    let opened = open(KIND, VERSION, VERSION, bytes)?;
    match read_payload(alloc, opened.payload) {
        Err(e) => Err(e.at(opened.end)),
        Ok((contents, _)) => {
            check_digest(bytes, opened.end)?;
            Ok(contents)
        }
    }
}

/// The image that the bytes are the file of. A fault is the first field, in order, that is short or
/// breaks its rule.
pub fn read_image(alloc: Global, bytes: &[u8]) -> Result<Image, FileError>
    // What is read is an image, and the bytes are its file.
    ensures found { IfOk result (λ image. (names : List (List ℕ)) × IsImageFile bytes.now (record { names = names; value = image })) }
    // A file of an image is read, unless memory runs out.
    ensures only { (c : Contents AnyImage) → IsImageFile bytes.now c → GivesFile (λ image. image) result (Ok c.value) }
    // Which fault it is.
    ensures exact { GivesFile (λ image. image) result (value_of (image_file_at bytes.now)) }
{
    read_alone(alloc, bytes)
}

/// The image of a whole file, without its table of names.
fn read_alone(alloc: Global, bytes: &[u8]) -> Result<Image, FileError>
    ensures { GivesFile (λ image. image) result (value_of (image_file_at bytes.now)) }
{
    let (_names, image) = read_file(alloc, bytes)?;
    Ok(image)
}
