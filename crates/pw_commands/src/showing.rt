//! The commands `list` and `db`.

ghost use Rattle.std.specs.Prelude.{ℕ, List, Option, IfErr, IfSome};
ghost use Rattle.pw_io.specs.Files.{Keeps};
ghost use Rattle.pw_top_answer.specs.Outcomes.{LeavesStreams, OutputCount, StoreCount};
ghost use Rattle.pw_commands.specs.Needed.{Needs};
ghost use Rattle.pw_commands.specs.Outcome.{IsFileStop, StopCount};
ghost use Rattle.pw_commands.specs.Showing.{DatabaseEffect, IsShowAnswer, ListEffect, ListsOver, Shows, database_text, image_in};

use crate::needed::{bad_file, read_needed, refused};
use pw_image::LoadError;
use pw_io::{Sink, Store};
use pw_list::laws::an_image_has_one_listing;
use pw_list::{db_text, listing};
use pw_store_modules::{DATABASE_NAME, IMAGE_NAME};
use pw_top_answer::{Answer, print};
use pw_value::Name;
use std::alloc::Global;

/// The listing of the program that stands in `prog.img`.
fn listed<S: Store>(alloc: Global, store: &mut S) -> Result<Vec<u8>, Answer>
    ensures text { IfSome (S.told store.old) (λ told. ListsOver (image_in told.files) result) }
    ensures same { Keeps (S.told store.old) (S.told store.new) }
    ensures count { StopCount (S.faults store.old) (S.faults store.new) result }
    ensures stop { IfErr result IsFileStop }
{
    match read_needed(alloc, store, IMAGE_NAME) {
        Err(answer) => Err(answer),
        Ok(bytes) => match listing(alloc, &bytes) {
            Ok(text) => Ok(text),
            Err(LoadError::LoadFault { at }) => Err(bad_file(alloc, IMAGE_NAME, Some(at))),
            Err(LoadError::NoMemory) => Err(Answer::NoMemory),
        },
    }
}

/// The text of the database that stands in `prog.db`.
fn texted<S: Store>(alloc: Global, store: &mut S) -> Result<Vec<u8>, Answer>
    ensures text { IfSome (S.told store.old) (λ told. Needs (λ text. text.items) result (database_text told.files)) }
    ensures same { Keeps (S.told store.old) (S.told store.new) }
    ensures count { StopCount (S.faults store.old) (S.faults store.new) result }
    ensures stop { IfErr result IsFileStop }
{
    match read_needed(alloc, store, DATABASE_NAME) {
        Err(answer) => Err(answer),
        Ok(bytes) => match pw_db_file::read(alloc, &bytes) {
            Ok(db) => match db_text(alloc, &db) {
                Ok(text) => Ok(text),
                Err(_none) => Err(Answer::NoMemory),
            },
            Err(error) => Err(refused(Name::within(alloc, DATABASE_NAME.as_bytes())?, error)),
        },
    }
}

/// Prints the program in `prog.img` as text: each function with its frame, its words and their instructions.
///
/// The answer is `Done` where all was printed; or `BadFile` where `prog.img` is absent or refused, and then nothing was.
pub fn list_image<S: Store, O: Sink>(alloc: Global, store: &mut S, out: &mut O) -> Answer
    ensures shows { IfSome (S.told store.old) (λ told. (input : List ℕ) → Shows (ListEffect told.files input) result (O.taken out.old) (O.taken out.new)) }
    ensures same { Keeps (S.told store.old) (S.told store.new) }
    ensures count { StoreCount (S.faults store.old) (S.faults store.new) result }
    ensures write { OutputCount (O.faults out.old) (O.faults out.new) result }
    ensures streams { (input : Option (List ℕ)) → LeavesStreams result input input (O.taken out.old) (O.taken out.new) }
    ensures answer { IsShowAnswer result }
{
    an_image_has_one_listing();
    match listed(alloc, store) {
        Ok(text) => print(out, &text),
        Err(answer) => answer,
    }
}

/// Prints the database in `prog.db` as text: a line for each web, and lines for the registers that functions share.
///
/// The answer is `Done` where all was printed; or `BadFile` where `prog.db` is absent or refused, and then nothing was.
pub fn show_database<S: Store, O: Sink>(alloc: Global, store: &mut S, out: &mut O) -> Answer
    ensures shows { IfSome (S.told store.old) (λ told. (input : List ℕ) → Shows (DatabaseEffect told.files input) result (O.taken out.old) (O.taken out.new)) }
    ensures same { Keeps (S.told store.old) (S.told store.new) }
    ensures count { StoreCount (S.faults store.old) (S.faults store.new) result }
    ensures write { OutputCount (O.faults out.old) (O.faults out.new) result }
    ensures streams { (input : Option (List ℕ)) → LeavesStreams result input input (O.taken out.old) (O.taken out.new) }
    ensures answer { IsShowAnswer result }
{
    match texted(alloc, store) {
        Ok(text) => print(out, &text),
        Err(answer) => answer,
    }
}
