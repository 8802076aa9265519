//! Sessions.

ghost use Rattle.std.specs.Prelude.{◌≡◌, IfSome};
ghost use Rattle.pw_top_answer.specs.Outcomes.{InputCount, OutputCount, StoreCount};
ghost use Rattle.pw_build_files.specs.Genuine.{KeepsGenuine};
ghost use Rattle.pw_build_files.specs.Outcomes.{AreOpts};
ghost use Rattle.pw_session_script.specs.Reading.{IsReadInPart, line_view};
ghost use Rattle.pw_session_script.specs.Script.{NamesText};
ghost use Rattle.pw_session.specs.Changes.{MakesSome};
ghost use Rattle.pw_session.specs.Session.{lines_limit};
ghost use Rattle.pw_session.specs.Removals.{IsRemovedBy, MayRemove, MayRemoveFirst};
ghost use Rattle.pw_session.specs.Outcomes.{EndsAs, EndsTurn, IsLastAnswer, IsReadAnswer, IsSessionAnswer, IsLineTaken, IsSessionTurn, KeepsImage, LeavesScript, LeavesTurn, ObeysLine, ObeysSession, TakesTurn, image_view, last_answer, turn_answer, unread};

use crate::lines::obey_line;
use pw_build_opts::RunOpts;
use pw_io::{Failed, Sink, Source, Store};
use pw_session_script::{ScriptFault, TakenLine, next_line};
use pw_top_answer::Answer;
use std::alloc::Global;

/// The greatest count of lines of a script.
pub const LINES_LIMIT: u64 = 10_000;

/// A session's script has as many lines at most as the definitions say.
pub fn limit_of_a_session()
    ensures { LINES_LIMIT ≡ lines_limit }
{}

/// What came of the next line of a script.
pub enum Turn {
    /// The session is over, with this answer.
    Over(Answer),
    /// A line was obeyed, which took so many bytes.
    Obeyed(u64),
}

/// The answer where no line was read at an offset.
fn unread(fault: ScriptFault, offset: u64) -> Answer
    ensures { result ≡ unread fault offset }
{
    match fault {
        ScriptFault::BadLine => Answer::BadScript(offset),
        ScriptFault::ReadFault => Answer::ReadFault,
        ScriptFault::NoMemory => Answer::NoMemory,
    }
}

/// Obeys a line that was read.
fn obey_taken<S: Store, O: Sink>(
    alloc: Global,
    store: &mut S,
    out: &mut O,
    opts: &RunOpts,
    image: &mut Option<Vec<u8>>,
    taken: &TakenLine,
) -> Turn
    requires opts { AreOpts opts.now.build }
    requires named { NamesText (line_view taken.now.line) }
    requires image { KeepsImage (image_view image.old) }
    ensures does { IfSome (S.told store.old) (λ told. ObeysLine opts.now (record { told = told; image = image_view image.old }) (line_view taken.now.line) (turn_answer result) (S.told store.new) (O.taken out.old) (O.taken out.new) (image_view image.new)) }
    ensures image { KeepsImage (image_view image.new) }
    ensures some { IfSome (S.told store.old) (λ told. MakesSome (IsRemovedBy (line_view taken.now.line)) (turn_answer result) told (S.told store.new)) }
    ensures genuine { IfSome (S.told store.old) (λ told. KeepsGenuine told.files → IfSome (S.told store.new) (λ now. KeepsGenuine now.files)) }
    ensures store { StoreCount (S.faults store.old) (S.faults store.new) (turn_answer result) }
    ensures write { OutputCount (O.faults out.old) (O.faults out.new) (turn_answer result) }
    ensures turn { IsLineTaken taken.now result }
{
    match obey_line(alloc, store, out, opts, image, &taken.line) {
        Answer::Done => Turn::Obeyed(taken.length),
        answer => Turn::Over(answer),
    }
}

/// Reads the next line of a script, and obeys it.
fn take_turn<S: Store, I: Source, O: Sink>(
    alloc: Global,
    store: &mut S,
    input: &mut I,
    out: &mut O,
    opts: &RunOpts,
    image: &mut Option<Vec<u8>>,
    offset: u64,
) -> Turn
    requires opts { AreOpts opts.now.build }
    requires image { KeepsImage (image_view image.old) }
    ensures turn { IfSome (S.told store.old) (λ told. IfSome (I.rest input.old) (λ script. TakesTurn opts.now (record { told = told; image = image_view image.old }) offset script result (S.told store.new) (I.rest input.new) (O.taken out.old) (O.taken out.new) (image_view image.new))) }
    ensures ends { IfSome (I.rest input.old) (λ script. EndsTurn offset script result (I.rest input.new)) }
    ensures image { KeepsImage (image_view image.new) }
    ensures some { IfSome (S.told store.old) (λ told. MakesSome (MayRemoveFirst (I.rest input.old)) (turn_answer result) told (S.told store.new)) }
    ensures genuine { IfSome (S.told store.old) (λ told. KeepsGenuine told.files → IfSome (S.told store.new) (λ now. KeepsGenuine now.files)) }
    ensures part { IfSome (I.rest input.old) (λ script. IsReadInPart script (I.rest input.new)) }
    ensures whole { IfSome (I.rest input.old) (λ script. LeavesTurn script result (I.rest input.new)) }
    ensures store { StoreCount (S.faults store.old) (S.faults store.new) (turn_answer result) }
    ensures read { InputCount (I.faults input.old) (I.faults input.new) (turn_answer result) }
    ensures write { OutputCount (O.faults out.old) (O.faults out.new) (turn_answer result) }
    ensures kind { IsSessionTurn result }
{
    match next_line(alloc, input) {
        Ok(Some(taken)) => obey_taken(alloc, store, out, opts, image, &taken),
        Ok(None) => Turn::Over(Answer::Done),
        Err(fault) => Turn::Over(unread(fault, offset)),
    }
}

/// The answer where no further line may stand, by the byte that stands there.
fn last_answer(found: Option<u8>, offset: u64) -> Answer
    ensures { result ≡ last_answer found offset }
{
    match found {
        None => Answer::Done,
        Some(_) => Answer::BadScript(offset),
    }
}

/// The end of a script that may have no further line.
fn last_turn<I: Source>(input: &mut I, offset: u64) -> Answer
    ensures last { IfSome (I.rest input.old) (λ script. IsLastAnswer offset script result) }
    ensures part { IfSome (I.rest input.old) (λ script. IsReadInPart script (I.rest input.new)) }
    ensures whole { IfSome (I.rest input.old) (λ script. LeavesScript script result (I.rest input.new)) }
    ensures read { InputCount (I.faults input.old) (I.faults input.new) result }
    ensures kind { IsReadAnswer result }
{
    match input.next() {
        Ok(found) => last_answer(found, offset),
        Err(Failed) => Answer::ReadFault,
    }
}

/// Obeys the lines of the script that stands on `input`, one behind another, over the files of a store.
///
/// The answer is `Done` where the script was taken to its end; or `BadScript` with the offset at which no lawful line
/// stands, or the line behind the greatest count of lines. A refused build is told in its line, and the session goes on. A
/// fault of the store, the input or the output, and want of memory, end the session with that answer; what was put,
/// removed and put out before it stays.
pub fn run_session<S: Store, I: Source, O: Sink>(
    alloc: Global,
    store: &mut S,
    input: &mut I,
    out: &mut O,
    opts: &RunOpts,
) -> Answer
    requires { AreOpts opts.now.build }
    ensures obeys { IfSome (S.told store.old) (λ told. IfSome (I.rest input.old) (λ script. ObeysSession opts.now told script result (S.told store.new) (O.taken out.old) (O.taken out.new))) }
    ensures ends { IfSome (I.rest input.old) (λ script. EndsAs script result) }
    ensures some { IfSome (S.told store.old) (λ told. MakesSome (MayRemove (I.rest input.old)) result told (S.told store.new)) }
    ensures genuine { IfSome (S.told store.old) (λ told. KeepsGenuine told.files → IfSome (S.told store.new) (λ now. KeepsGenuine now.files)) }
    ensures rest { IfSome (I.rest input.old) (λ script. LeavesScript script result (I.rest input.new)) }
    ensures store { StoreCount (S.faults store.old) (S.faults store.new) result }
    ensures read { InputCount (I.faults input.old) (I.faults input.new) result }
    ensures write { OutputCount (O.faults out.old) (O.faults out.new) result }
    ensures answer { IsSessionAnswer result }
{
    let mut image = None;
    let mut offset = 0;
    for _place in 0..LINES_LIMIT {
        match take_turn(alloc, store, input, out, opts, &mut image, offset) {
            Turn::Over(answer) => return answer,
            Turn::Obeyed(size) => offset += size,
        }
    }
    last_turn(input, offset)
}
