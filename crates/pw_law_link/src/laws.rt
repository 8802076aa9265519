//! Laws of linked programs.

ghost use Rattle.std.specs.Prelude.{◌≡◌, ℕ, ◌+◌, ◌<◌, ◌≤◌, ◌^◌, List, map};
ghost use Rattle.std.specs.List.{AllByRecursion, filter};
ghost use Rattle.std.specs.Str.{bytes_eq};
ghost use Rattle.pw_value.specs.declared.fault.LinkFault.{LinkFault};
ghost use Rattle.pw_value.specs.Limits.{text_start, memory_size};
ghost use Rattle.pw_files.specs.Rising.{IsRising};
ghost use Rattle.pw_object.specs.declared.object.Object.{Object};
ghost use Rattle.pw_object.specs.Object.{IsObject};
ghost use Rattle.pw_image.specs.Image.{IsImage, IsMemory};
ghost use Rattle.pw_machine.specs.Core.{byte_at};
ghost use Rattle.pw_machine.specs.Start.{image_start, IsOutside};
ghost use Rattle.pw_link.specs.Layout.{in_order, pieces_of, globals_of, text_of, data_of, data_begin, data_size, stack_end};
ghost use Rattle.pw_link.specs.Linking.{linked, piece_words, function_of, global_of, AreLinked, IsRefusal};
ghost use Rattle.pw_law_link.specs.Parts.{AreLawfulParts};
ghost use Rattle.pw_law_link.specs.Standing.{AreInOrder, sites, StandsInText, ItemsStand, AreApart, OwnTheirBytes, HasWords, HasItems};

use pw_link_rules::laws::modules_have_one_answer;
use pw_machine::{data_bytes, text_words};

/// Objects that are linked are not refused, and others are refused for one reason.
pub fn objects_have_one_answer()
    ensures not_both { (objects : List Object) (stack : ℕ) (fault : LinkFault) → AreLinked objects stack → ¬ IsRefusal objects stack fault }
    ensures one_fault { (objects : List Object) (stack : ℕ) (fault other : LinkFault) → IsRefusal objects stack fault → IsRefusal objects stack other → fault ≡ other }
{
    modules_have_one_answer();
}

/// The image of objects that are lawful for their files is lawful for its own.
pub fn linked_images_are_lawful()
    ensures { (objects : List Object) (stack : ℕ) → AllByRecursion IsObject objects → AreLinked objects stack → stack < 2 ^ 32 → IsImage (linked objects stack) }
{}

/// The modules stand in byte order of their names, and the objects of one name in the order given; objects whose names
/// rise stand as they are given.
pub fn modules_stand_in_order()
    ensures order { (objects : List Object) → AreInOrder (in_order objects) }
    ensures names { (objects : List Object) (name : List ℕ) → filter (λ o. bytes_eq name o.module) (in_order objects) ≡ filter (λ o. bytes_eq name o.module) objects }
    ensures stay { (objects : List Object) → IsRising (map (λ o. o.module) objects) → in_order objects ≡ objects }
{}

/// The words of each function and routine, its relocations done, stand in the text at its address, which the
/// map tells; none but the functions of the modules and the routines stand there, each at a multiple of 4 behind
/// the words of the one before it.
pub fn words_stand_at_their_addresses()
    ensures words { (objects : List Object) (stack : ℕ) → AllByRecursion (λ p. StandsInText (linked objects stack).memory.words p.address (piece_words (sites objects stack) p)) (text_of objects) }
    ensures map { (objects : List Object) (stack : ℕ) → (linked objects stack).functions ≡ map function_of (text_of objects) }
    ensures pieces { (objects : List Object) → map (λ p. p.piece) (text_of objects) ≡ pieces_of objects }
    ensures apart { (objects : List Object) → AreApart text_start (text_of objects) }
{}

/// The items of each object stand in the data at the object's offset, and the map tells its address; each object
/// has a multiple of 8 and bytes of its own, one more than its size, and all end 64 bytes below the stack.
pub fn data_stand_at_their_addresses()
    ensures items { (objects : List Object) (stack : ℕ) → AllByRecursion (ItemsStand objects stack (linked objects stack).memory.items) (data_of objects) }
    ensures map { (objects : List Object) (stack : ℕ) → (linked objects stack).globals ≡ map (global_of (data_begin objects)) (data_of objects) }
    ensures globals { (objects : List Object) → map (λ s. s.global) (data_of objects) ≡ globals_of objects }
    ensures apart { (objects : List Object) → OwnTheirBytes (data_size objects) 0 (data_of objects) }
    ensures below { (objects : List Object) (stack : ℕ) → data_begin objects + data_size objects + 64 + stack ≤ stack_end objects stack }
{}

/// The memory of linked objects is lawful where their parts are: where the words of functions have 32 bits, the global
/// objects are lawful, `$start` is one of the functions, and text and memory are large enough. So it is of objects that
/// are lawful for their files and make a program.
pub fn linked_memories_are_lawful()
    ensures memory { (objects : List Object) (stack : ℕ) → AreLawfulParts objects stack → IsMemory (linked objects stack).memory }
    ensures parts { (objects : List Object) (stack : ℕ) → AllByRecursion IsObject objects → AreLinked objects stack → stack < 2 ^ 32 → AreLawfulParts objects stack }
{}

/// In the memory in which a machine begins the program of lawful parts, the words of each function and routine,
/// its relocations done, stand at its address, the items of each global object at theirs, and every other byte
/// from the beginning of the data on is 0.
pub fn the_memory_holds_the_program()
    ensures words { (objects : List Object) (stack : ℕ) → AreLawfulParts objects stack →
        AllByRecursion (λ p. HasWords (image_start (linked objects stack).memory).memory p.address (piece_words (sites objects stack) p)) (text_of objects) }
    ensures items { (objects : List Object) (stack : ℕ) → AreLawfulParts objects stack →
        AllByRecursion (HasItems objects stack (image_start (linked objects stack).memory).memory) (data_of objects) }
    ensures zero { (objects : List Object) (stack place : ℕ) → AreLawfulParts objects stack →
        data_begin objects ≤ place → place < memory_size →
        AllByRecursion (IsOutside (data_begin objects) place) (linked objects stack).memory.items →
        byte_at (image_start (linked objects stack).memory).memory place ≡ 0 }
{
    text_words();
    data_bytes();
}
