//! Laws of sessions and of `bench`. A function here does nothing: its clause is a fact about all values.

ghost use Rattle.std.specs.Prelude.{List, ℕ};
ghost use Rattle.pw_io.specs.Files.{Told};
ghost use Rattle.pw_top_answer.specs.Effects.{Effect};
ghost use Rattle.pw_session.specs.Bench.{BenchEffect};
ghost use Rattle.pw_session.specs.FromBuildFiles.Genuine.{KeepsGenuine};
ghost use Rattle.pw_session.specs.FromBuildFiles.Outcomes.{AreOpts};
ghost use Rattle.pw_build_opts.specs.declared.opts.RunOpts.{RunOpts};
ghost use Rattle.pw_law_session.specs.Full.{BenchBuildsInFull, SessionBuildsInFull};

use pw_io::laws::other_files;
use pw_law_build::a_build_leaves_the_whole_program;
use pw_law_meaning::images_mean_their_texts;
use pw_session::{
    builds_leave_genuine_objects, genuine_objects_give_the_full_image, texts_are_no_objects,
};
use pw_store_texts::built_files_are_seen;

/// Where the kept objects are genuine before a session, each of its builds comes to the image of the full build of the
/// texts as its lines left them, byte for byte, which means what they mean in C, or to that build's fault; one that is done leaves the database and the image of
/// that full build in their files, and genuine objects.
pub fn sessions_build_in_full()
    ensures { (opts : RunOpts) (told : Told) (script : List ℕ) → AreOpts opts.build → KeepsGenuine told.files → SessionBuildsInFull opts told script }
{
    a_build_leaves_the_whole_program();
    builds_leave_genuine_objects();
    built_files_are_seen();
    genuine_objects_give_the_full_image();
    images_mean_their_texts();
    other_files();
    texts_are_no_objects();
}

/// `bench` builds in full: nothing is kept of the texts that it makes, so its image is that of their full build, byte for
/// byte, or its refusal that build's.
pub fn bench_builds_in_full()
    ensures { (number : ℕ) (opts : RunOpts) (input : List ℕ) (effect : Effect) → AreOpts opts.build → BenchEffect number opts input effect → BenchBuildsInFull number opts input effect }
{
    built_files_are_seen();
    genuine_objects_give_the_full_image();
    images_mean_their_texts();
    other_files();
}
