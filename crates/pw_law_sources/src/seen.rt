//! Laws of the files of a store as a build sees them. A function here does nothing: its clauses are facts about all values.

ghost use Rattle.std.specs.Prelude.{◌↔◌, ℕ, List};
ghost use Rattle.std.specs.FinMap as finite;
ghost use Rattle.pw_io.specs.Files.{Files, Told};
ghost use Rattle.pw_top_answer.specs.Effects.{NamedFile, after_puts};
ghost use Rattle.pw_store_texts.specs.Seen.{IsSeen};
ghost use Rattle.pw_build_files.specs.Genuine.{IsBuiltName};
ghost use Rattle.pw_build_files.specs.Outcomes.{AreBuilt};
ghost use Rattle.pw_law_sources.specs.Sources.{EachComes};

use pw_io::laws::{names, other_files};
use pw_store_modules::modules_are_exact;
use pw_store_texts::{built_files_are_seen, texts_are_not_built};

/// The files of a store are seen exactly where each of its C sources comes to an output or to a fault of the preprocessor.
pub fn files_are_seen()
    ensures { (files : Files) → ((shown : Files) × IsSeen files shown) ↔ EachComes files }
{
    names();
}

/// Files that a build puts are seen as they are put, and nothing else is seen otherwise for them: they are no texts.
pub fn what_builds_put_is_seen()
    ensures one { (files shown : Files) (name bytes : List ℕ) → IsSeen files shown → IsBuiltName name → IsSeen (finite.insert files name bytes) (finite.insert shown name bytes) }
    ensures all { (told seen : Told) (puts : List NamedFile) → IsSeen told.files seen.files → AreBuilt puts → IsSeen (after_puts told puts).files (after_puts seen puts).files }
{
    other_files();
    modules_are_exact();
    texts_are_not_built();
    built_files_are_seen();
}
