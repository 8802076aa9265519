//! The laws of object files and of their functions.

ghost use Rattle.std.specs.Prelude.{◌≡◌, ◌++◌, ℕ, List, Ok};
ghost use Rattle.pw_fields.specs.FieldLaws.{AreBytes};
ghost use Rattle.pw_fields.specs.FieldNames.{IsNameTable};
ghost use Rattle.pw_files.specs.Contents.{value_of};
ghost use Rattle.pw_files.specs.Faults.{FaultsStay};
ghost use Rattle.pw_object.specs.declared.functions.ObjectFn.{ObjectFn};
ghost use Rattle.pw_object.specs.Functions.{IsFunction, function};
ghost use Rattle.pw_object.specs.declared.object.Object.{Object};
ghost use Rattle.pw_object.specs.Object.{kind, object_version, IsObjectFile};
ghost use Rattle.pw_object.specs.Reading.{function_at, fields_at, object_file_at};

use crate::object::VERSION;
use crate::reading::KIND;

/// The kind and the version of the file are those that its definition speaks of.
pub fn version_of_objects()
    ensures kind { KIND ≡ kind }
    ensures version { VERSION ≡ object_version }
{}

/// What is read of a function is spelled so, and its fixes name words of it.
pub fn functions_are_spelled()
    ensures spelled { (names : List (List ℕ)) (bytes : List ℕ) (f : ObjectFn) (rest : List ℕ) → IsNameTable names → AreBytes bytes → function_at names bytes ≡ Ok (f, rest) → bytes ≡ function names f ++ rest }
    ensures lawful { (names : List (List ℕ)) (bytes : List ℕ) (f : ObjectFn) (rest : List ℕ) → IsNameTable names → AreBytes bytes → function_at names bytes ≡ Ok (f, rest) → IsFunction f }
{}

/// No bytes are the file of two objects, and no object has two files.
pub fn objects_and_files_are_one_to_one()
    ensures one_object { (bytes : List ℕ) (o p : Object) → IsObjectFile bytes o → IsObjectFile bytes p → o ≡ p }
    ensures one_file { (bytes others : List ℕ) (o : Object) → IsObjectFile bytes o → IsObjectFile others o → bytes ≡ others }
{}

/// A fault lies within the bytes, and one of the fields rests on the bytes up to the faulty field's end.
pub fn faults_stay()
    ensures { FaultsStay kind object_version object_version (λ version. fields_at) (λ bytes. value_of (object_file_at bytes)) }
{}
