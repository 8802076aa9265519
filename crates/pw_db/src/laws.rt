//! The laws of databases.

ghost use Rattle.std.specs.Prelude.{◌≡◌, ℕ, List, All, map};
ghost use Rattle.pw_db.specs.declared.database.Directives.{Directives};
ghost use Rattle.pw_db.specs.Database.{HasDirectives, IsDatabase, kind, first_version, database_version};

use crate::database::{FIRST, KIND, VERSION};

/// The kind and the versions of the file are those that their definitions speak of.
pub fn versions_of_databases()
    ensures kind { KIND ≡ kind }
    ensures first { FIRST ≡ first_version }
    ensures last { VERSION ≡ database_version }
{}

/// A database gives each function one list of directives.
pub fn directives_are_one()
    ensures { (fs : List (List ℕ × Directives)) → IsDatabase fs → (gs hs : List (List ℕ × Directives)) → All (HasDirectives fs) gs → All (HasDirectives fs) hs → map (λ f. f.0) gs ≡ map (λ f. f.0) hs → gs ≡ hs }
{}
