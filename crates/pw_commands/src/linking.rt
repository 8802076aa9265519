//! The command `link`.

ghost use Rattle.std.specs.Prelude.{◌≤◌, ℕ, List, [], ◌∷◌, IfErr, IfSome};
ghost use Rattle.std.specs.List.{AllByRecursion};
ghost use Rattle.pw_io.specs.Files.{Keeps};
ghost use Rattle.pw_value.specs.Limits.{stack_least, stack_limit};
ghost use Rattle.pw_object.specs.Object.{IsObject};
ghost use Rattle.pw_store_modules.specs.FileNames.{image_name};
ghost use Rattle.pw_top_answer.specs.Effects.{PutsFiles};
ghost use Rattle.pw_top_answer.specs.Outcomes.{StoreCount};
ghost use Rattle.pw_commands.specs.Linking.{LinkEffect, LinksInto, LinksOver, objects_of};
ghost use Rattle.pw_commands.specs.Others.{KeepsOthers};
ghost use Rattle.pw_commands.specs.Outcome.{IsPutAnswer, IsStop, IsStoreAnswer, Obeys, StopCount};

use crate::kept::kept_of_modules;
use pw_image::laws::images_and_files_are_one_to_one;
use pw_image::write_image;
use pw_io::{Store, StoreError};
use pw_law_link::laws::{linked_images_are_lawful, objects_have_one_answer};
use pw_link::link;
use pw_object::Object;
use pw_store_modules::{IMAGE_NAME, OBJECT_ENDING};
use pw_top_answer::Answer;
use pw_value::LinkFault;
use std::alloc::Global;

/// Puts one file into the store, and answers `Done`, `StoreFault` where the store failed, or `NoMemory`.
pub fn put_file<S: Store>(alloc: Global, store: &mut S, name: &str, bytes: &[u8]) -> Answer
    ensures put { IfSome (S.told store.old) (λ told. PutsFiles ((name.now, bytes.now) ∷ []) result told (S.told store.new)) }
    ensures answer { IsPutAnswer result }
    ensures count { StoreCount (S.faults store.old) (S.faults store.new) result }
{
    match store.put(alloc, name, bytes) {
        Ok(()) => Answer::Done,
        Err(StoreError::Failed) => Answer::StoreFault,
        Err(StoreError::NoMemory) => Answer::NoMemory,
    }
}

/// The file of the image of objects; or the refusal.
fn image_file(alloc: Global, objects: &[Object], stack: u32) -> Result<Vec<u8>, Answer>
    requires lawful { AllByRecursion IsObject objects.now }
    ensures image { LinksInto objects.now stack result }
    ensures stop { IfErr result IsStop }
{
    linked_images_are_lawful();
    match link(alloc, objects, stack) {
        Ok(image) => Ok(write_image(alloc, &image)?),
        Err(LinkFault::NoMemory) => Err(Answer::NoMemory),
        Err(fault) => Err(Answer::LinkRefused(fault)),
    }
}

/// The file of the image of all modules; or the answer in its place.
fn linked_file<S: Store>(alloc: Global, store: &mut S, stack: u32) -> Result<Vec<u8>, Answer>
    ensures image { IfSome (S.told store.old) (λ told. LinksOver (objects_of told.files) stack result) }
    ensures same { Keeps (S.told store.old) (S.told store.new) }
    ensures count { StopCount (S.faults store.old) (S.faults store.new) result }
    ensures stop { IfErr result IsStop }
{
    match kept_of_modules(alloc, store, OBJECT_ENDING) {
        Ok(objects) => image_file(alloc, &objects, stack),
        Err(answer) => Err(answer),
    }
}

/// Links the objects of all modules into `prog.img`, with a stack of so many bytes.
///
/// The modules are those of the files `NAME.i`, in byte order; the object of each is read from `NAME.obj`. The answer is
/// `Done` where the image was put; `LinkRefused` where there are too many modules or the objects are refused together;
/// `BadFile` for the first object's file that is absent or refused; nothing is put then.
pub fn link_modules<S: Store>(alloc: Global, store: &mut S, stack: u32) -> Answer
    requires least { stack_least ≤ stack }
    requires most { stack ≤ stack_limit }
    ensures obeys { IfSome (S.told store.old) (λ told. (input : List ℕ) → Obeys (LinkEffect told.files stack input) result told (S.told store.new)) }
    ensures others { KeepsOthers (image_name ∷ []) result (S.told store.old) (S.told store.new) }
    ensures answer { IsStoreAnswer result }
    ensures count { StoreCount (S.faults store.old) (S.faults store.new) result }
{
    images_and_files_are_one_to_one();
    objects_have_one_answer();
    match linked_file(alloc, store, stack) {
        Ok(bytes) => put_file(alloc, store, IMAGE_NAME, &bytes),
        Err(answer) => answer,
    }
}
