//! Laws of texts and of what comes of them. A function here does nothing: its clauses are facts about all values.

ghost use Rattle.std.specs.Prelude.{◌≡◌, ◌≢◌, ℕ, List, true};
ghost use Rattle.std.specs.FinMap as finite;
ghost use Rattle.pw_io.specs.Files.{Files};
ghost use Rattle.pw_store_modules.specs.FileNames.{database_name, image_name, object_name};
ghost use Rattle.pw_store_sources.specs.Names.{is_text_file};
ghost use Rattle.pw_store_sources.specs.Sources.{Outputs, StoreComes};
ghost use Rattle.pw_store_texts.specs.Seen.{IsSeen};

use pw_io::laws::other_files;
use pw_law_cpp::one_output;

/// The C sources of a store come to one thing.
pub fn sources_come_to_one()
    ensures { (files : Files) (outputs others : Outputs) → StoreComes files outputs → StoreComes files others → outputs ≡ others }
{
    one_output();
}

/// A build sees the files of a store in one way: what its C sources come to leaves no choice.
pub fn files_are_seen_in_one_way()
    ensures { (files shown other : Files) → IsSeen files shown → IsSeen files other → shown ≡ other }
{
    sources_come_to_one();
}

/// What a build puts stands among the files as it sees them as it stands in the store.
pub fn built_files_are_seen()
    ensures object { (files shown : Files) (name : List ℕ) → IsSeen files shown → finite.get shown (object_name name) ≡ finite.get files (object_name name) }
    ensures database { (files shown : Files) → IsSeen files shown → finite.get shown database_name ≡ finite.get files database_name }
    ensures image { (files shown : Files) → IsSeen files shown → finite.get shown image_name ≡ finite.get files image_name }
{
    other_files();
}

/// The file of a text is none that a build puts: no object's, and neither the database's nor the image's.
pub fn texts_are_not_built()
    ensures object { (file name : List ℕ) → is_text_file file ≡ true → object_name name ≢ file }
    ensures database { (file : List ℕ) → is_text_file file ≡ true → database_name ≢ file }
    ensures image { (file : List ℕ) → is_text_file file ≡ true → image_name ≢ file }
{}
