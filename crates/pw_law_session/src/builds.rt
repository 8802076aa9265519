//! Laws of one build. A function here does nothing: its clause is a fact about all values.

ghost use Rattle.std.specs.Prelude.{Result};
ghost use Rattle.pw_io.specs.Files.{Told};
ghost use Rattle.pw_session.specs.FromBuild.BuildFault.{BuildFault};
ghost use Rattle.pw_session.specs.FromBuildFiles.Building.{Outcome};
ghost use Rattle.pw_session.specs.FromBuildFiles.Genuine.{KeepsGenuine};
ghost use Rattle.pw_session.specs.FromBuildFiles.Seen.{SeenOutcome};
ghost use Rattle.pw_session.specs.FromBuildFiles.Outcomes.{AreOpts};
ghost use Rattle.pw_build_opts.specs.declared.opts.Opts.{Opts};
ghost use Rattle.pw_law_session.specs.Whole.{IsBuiltInFull};

use pw_law_build::a_build_leaves_the_whole_program;
use pw_law_meaning::images_mean_their_texts;
use pw_session::{genuine_objects_give_the_full_image, texts_have_one_image};
use pw_store_texts::built_files_are_seen;

/// Where the kept objects are genuine, a build over a store's files comes to the image of the full build of the modules as it sees them,
/// byte for byte, which means what they mean in C, or to its refusal; and it leaves that build's database and that image in their files.
pub fn builds_are_full()
    ensures { (told : Told) (opts : Opts) (comes : Result Outcome BuildFault) → AreOpts opts → KeepsGenuine told.files → SeenOutcome told.files opts comes → IsBuiltInFull told opts comes }
{
    a_build_leaves_the_whole_program();
    built_files_are_seen();
    genuine_objects_give_the_full_image();
    images_mean_their_texts();
    texts_have_one_image();
}
