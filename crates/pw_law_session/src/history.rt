//! What holds of all that happens to a store. A function here does nothing: its clause is a fact about all values.

ghost use Rattle.std.specs.Prelude.{List};
ghost use Rattle.pw_io.specs.Files.{Told};
ghost use Rattle.pw_session.specs.FromBuildFiles.Genuine.{KeepsGenuine};
ghost use Rattle.pw_law_session.specs.History.{Action, AreFullBuilds, Happen};

use crate::builds::builds_are_full;
use pw_io::laws::other_files;
use pw_session::{builds_leave_genuine_objects, texts_are_no_objects};
use pw_store_texts::built_files_are_seen;

/// From a store whose kept objects are genuine on, whatever texts are written and removed and whatever is built, in any
/// order: each build is the full build of the modules as they are then. Its image is that build's, byte for byte, its refusal
/// that build's, and it leaves that build's database and image.
pub fn histories_build_in_full()
    ensures { (told : Told) (actions : List Action) → KeepsGenuine told.files → Happen told actions → AreFullBuilds told actions }
{
    builds_are_full();
    builds_leave_genuine_objects();
    built_files_are_seen();
    texts_are_no_objects();
    other_files();
}
