//! Laws of calls. A function here does nothing: its clauses are facts about all values.

ghost use Rattle.std.specs.Prelude.{ℕ, List, Option, Some};
ghost use Rattle.pw_io.specs.Files.{Told};
ghost use Rattle.pw_top_answer.specs.declared.answer.Answer.{Answer};
ghost use Rattle.pw_run_languages.specs.Programs.{AreBytes};
ghost use Rattle.pw_build_opts.specs.declared.opts.RunOpts.{RunOpts};
ghost use Rattle.pw_law_session.specs.FromSession.FromBuildFiles.Genuine.{KeepsGenuine};
ghost use Rattle.pw_law_session.specs.FromSession.FromBuildFiles.Outcomes.{AreOpts};
ghost use Rattle.pw_top_words.specs.declared.commands.Command.TheVariants.{Go};
ghost use Rattle.pw_top.specs.Behind.{DoesAsGo, RunsBehindBuild};
ghost use Rattle.pw_top.specs.Commands.{BuildsFirst};
ghost use Rattle.pw_top.specs.Does.{DoesAs};
ghost use Rattle.pw_top.specs.Meant.{AnswersSeen, WasRun};

use pw_image::laws::images_and_files_are_one_to_one;
use pw_io::laws::front;
use pw_law_session::builds_are_full;

/// Where `go` ran the program of modules, as a build sees them, over genuine kept objects on an input of bytes, what it answers, puts out and reads is
/// what the program does in C, as far as that is defined: with the same end, the same output and as many bytes read; where the
/// budget was spent, or the input or the output had a fault, with a prefix of the output. The machine does not halt.
pub fn go_does_what_the_program_does()
    ensures { (opts : RunOpts) (answer : Answer) (told : Told) (new : Option Told) (input : List ℕ) (input' taken taken' : Option (List ℕ)) →
        AreOpts opts.build → KeepsGenuine told.files → AreBytes input → WasRun answer →
        BuildsFirst (Some (Go opts)) answer told new →
        DoesAs (Some (Go opts)) answer told new input input' taken taken' →
        AnswersSeen told.files opts answer input input' taken taken' }
{
    builds_are_full();
    images_and_files_are_one_to_one();
}

/// A build that is done over genuine kept objects, and behind it a run over the files that it left, do together what `go` does over
/// the files that the build had, the input of the run and its output: the answer, the files, what is put out and what is left of
/// the input are those of `go`; and, where the input is of bytes, they are what the program of the modules does in C.
///
/// `run` reads no more of an image's file than 2^28 bytes, so that the image has to be at most as long; `build` tells its length.
pub fn a_run_behind_a_build_is_go()
    ensures go { (opts : RunOpts) (answer : Answer) (told : Told) (new : Option Told) (input : List ℕ) (input' taken taken' : Option (List ℕ)) →
        RunsBehindBuild opts answer told new input input' taken taken' → DoesAsGo opts answer told new input input' taken taken' }
    ensures program { (opts : RunOpts) (answer : Answer) (told : Told) (new : Option Told) (input : List ℕ) (input' taken taken' : Option (List ℕ)) →
        RunsBehindBuild opts answer told new input input' taken taken' → AreBytes input → WasRun answer →
        AnswersSeen told.files opts answer input input' taken taken' }
{
    builds_are_full();
    front();
    images_and_files_are_one_to_one();
}
