//! The laws of databases' files and payloads.

ghost use Rattle.std.specs.Prelude.{◌≡◌, ℕ, List, length};
ghost use Rattle.pw_files.specs.Contents.{value_of};
ghost use Rattle.pw_fields.specs.FieldFrame.{placed};
ghost use Rattle.pw_files.specs.Faults.{FaultsStay, PayloadFaultsStay};
ghost use Rattle.pw_db.specs.declared.database.Database.{Database};
ghost use Rattle.pw_db.specs.declared.database.Directives.{Directives};
ghost use Rattle.pw_db.specs.Database.{IsStored, kind, first_version, database_version};
ghost use Rattle.pw_db_file.specs.Spelling.{IsDatabaseFile, IsNewFile, IsPayload};
ghost use Rattle.pw_db_file.specs.Reading.{fields_at, payload_at, database_file_at};

/// No bytes are the file of two databases, and no database has two files.
pub fn databases_and_files_are_one_to_one()
    ensures one_database { (bytes : List ℕ) (one other : Database) → IsDatabaseFile bytes one → IsDatabaseFile bytes other → one ≡ other }
    ensures one_file { (bytes others : List ℕ) (db : Database) → IsDatabaseFile bytes db → IsDatabaseFile others db → bytes ≡ others }
    ensures one_new_file { (bytes others : List ℕ) (fs : List (List ℕ × Directives)) → IsNewFile bytes fs → IsNewFile others fs → bytes ≡ others }
{}

/// No bytes are the payload of two lists of functions, and no list has two payloads.
pub fn databases_and_payloads_are_one_to_one()
    ensures one_database { (bytes : List ℕ) (fs gs : List (List ℕ × Directives)) → IsPayload bytes fs → IsPayload bytes gs → fs ≡ gs }
    ensures one_payload { (bytes others : List ℕ) (fs : List (List ℕ × Directives)) → IsPayload bytes fs → IsPayload others fs → bytes ≡ others }
{}

/// A list of functions determines those of them that are stored, and so the bytes of their payload.
pub fn one_list_is_stored()
    ensures one_list { (fs s t : List (List ℕ × Directives)) → IsStored fs s → IsStored fs t → s ≡ t }
    ensures one_payload { (fs s t : List (List ℕ × Directives)) (bytes others : List ℕ) → IsStored fs s → IsStored fs t → IsPayload bytes s → IsPayload others t → bytes ≡ others }
{}

/// A fault of a file lies within the bytes, and one of the fields rests on the bytes up to the faulty field's
/// end.
pub fn faults_stay()
    ensures { FaultsStay kind first_version database_version fields_at (λ bytes. value_of (database_file_at bytes)) }
{}

/// A fault of a payload lies within the bytes, and rests on those up to the faulty field's end.
pub fn payload_faults_stay()
    ensures { PayloadFaultsStay (fields_at database_version) (λ bytes. value_of (placed (length bytes) (payload_at bytes))) }
{}
