//! The command `analyse`.

ghost use Rattle.std.specs.Prelude.{◌≤◌, ℕ, List, [], ◌∷◌, All, IfErr, IfSome};
ghost use Rattle.pw_io.specs.Files.{Keeps};
ghost use Rattle.pw_store_modules.specs.FileNames.{database_name};
ghost use Rattle.pw_top_answer.specs.Outcomes.{StoreCount};
ghost use Rattle.pw_summary.specs.Summary.{IsSummary};
ghost use Rattle.pw_commands.specs.Analysing.{AnalyseEffect, AnalysesInto, AnalysesOver, summaries_of};
ghost use Rattle.pw_commands.specs.Others.{KeepsOthers};
ghost use Rattle.pw_commands.specs.Outcome.{IsStop, IsStoreAnswer, Obeys, StopCount};
ghost use Rattle.pw_db.specs.Limits.{colour_limit};

use crate::kept::kept_of_modules;
use crate::linking::put_file;
use pw_colour::analyse;
use pw_colour::laws::{databases_are_lawful, databases_are_one};
use pw_db_file::laws::databases_and_files_are_one_to_one;
use pw_db_file::write_functions;
use pw_io::Store;
use pw_link_rules::laws::modules_have_one_answer;
use pw_store_modules::{DATABASE_NAME, SUMMARY_ENDING};
use pw_summary::Summary;
use pw_top_answer::Answer;
use pw_value::LinkFault;
use std::alloc::Global;

/// The file of the database of summaries; or the refusal.
fn database_file(alloc: Global, summaries: &[Summary], colours: u8) -> Result<Vec<u8>, Answer>
    requires lawful { All IsSummary summaries.now }
    requires few { colours ≤ colour_limit }
    ensures file { AnalysesInto summaries.now colours result }
    ensures stop { IfErr result IsStop }
{
    databases_are_lawful();
    match analyse(alloc, summaries, colours) {
        Ok(db) => match write_functions(alloc, db.functions.as_slice()) {
            Ok(bytes) => Ok(bytes),
            Err(_none) => Err(Answer::NoMemory),
        },
        Err(LinkFault::NoMemory) => Err(Answer::NoMemory),
        Err(fault) => Err(Answer::LinkRefused(fault)),
    }
}

/// The file of the database of all modules; or the answer in its place.
fn analysed_file<S: Store>(alloc: Global, store: &mut S, colours: u8) -> Result<Vec<u8>, Answer>
    requires { colours ≤ colour_limit }
    ensures file { IfSome (S.told store.old) (λ told. AnalysesOver (summaries_of told.files) colours result) }
    ensures same { Keeps (S.told store.old) (S.told store.new) }
    ensures count { StopCount (S.faults store.old) (S.faults store.new) result }
    ensures stop { IfErr result IsStop }
{
    match kept_of_modules(alloc, store, SUMMARY_ENDING) {
        Ok(summaries) => database_file(alloc, &summaries, colours),
        Err(answer) => Err(answer),
    }
}

/// Analyses the summaries of all modules into `prog.db`, with so many registers for webs.
///
/// The modules are those of the files `NAME.i`, in byte order; the summary of each is read from `NAME.sum`. The answer
/// is `Done` where the database was put; `LinkRefused` where there are too many modules or the summaries are refused
/// together; `BadFile` for the first summary's file that is absent or refused; nothing is put then.
pub fn analyse_modules<S: Store>(alloc: Global, store: &mut S, colours: u8) -> Answer
    requires { colours ≤ colour_limit }
    ensures obeys { IfSome (S.told store.old) (λ told. (input : List ℕ) → Obeys (AnalyseEffect told.files colours input) result told (S.told store.new)) }
    ensures others { KeepsOthers (database_name ∷ []) result (S.told store.old) (S.told store.new) }
    ensures answer { IsStoreAnswer result }
    ensures count { StoreCount (S.faults store.old) (S.faults store.new) result }
{
    databases_are_one();
    databases_and_files_are_one_to_one();
    modules_have_one_answer();
    match analysed_file(alloc, store, colours) {
        Ok(bytes) => put_file(alloc, store, DATABASE_NAME, &bytes),
        Err(answer) => answer,
    }
}
