//! Laws of the files that a session changes. A function here does nothing: its clause is a fact about all values.

ghost use Rattle.std.specs.Prelude.{◌≡◌, ◌≢◌, ℕ, List, true};
ghost use Rattle.std.specs.FinMap as finite;
ghost use Rattle.pw_build_files.specs.Genuine.{KeepsGenuine};
ghost use Rattle.pw_io.specs.Files.{Files};
ghost use Rattle.pw_store_texts.specs.Names.{is_text_file};

use pw_store_texts::texts_are_not_built;

/// Where no file but a text changed, of a module or of a header, genuine kept objects stay so.
pub fn texts_are_no_objects()
    ensures { (file : List ℕ) (old new : Files) → is_text_file file ≡ true → ((other : List ℕ) → other ≢ file → finite.get new other ≡ finite.get old other) → KeepsGenuine old → KeepsGenuine new }
{
    texts_are_not_built();
}
