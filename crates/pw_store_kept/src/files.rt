//! The files of what a build made.

ghost use Rattle.std.specs.Prelude.{◌≡◌, ◌++◌, ◌∷◌, [], ℕ, List, IfOk, OnOk, map, true};
ghost use Rattle.std.specs.List.{AllByRecursion};
ghost use Rattle.pw_fields.specs.FieldLaws.{AreBytes};
ghost use Rattle.pw_db.specs.Database.{IsDatabase};
ghost use Rattle.pw_db_file.specs.Spelling.{IsNewFile};
ghost use Rattle.pw_object.specs.Object.{IsObject, IsObjectFile};
ghost use Rattle.pw_image.specs.Image.{IsImage, IsImageFile};
ghost use Rattle.pw_store_modules.specs.FileNames.{object_name};
ghost use Rattle.pw_store_modules.specs.Modules.{is_module_name};
ghost use Rattle.pw_build_objects.specs.Choosing.{marks_of, objects_of};
ghost use Rattle.pw_store_kept.specs.Files.{AreObjectFiles, HoldBytes, file_view, made_anew};

use crate::kept::object_name;
use pw_build_objects::Made;
use pw_db::Database;
use pw_db_file::write_functions;
use pw_files::laws::are_bytes;
use pw_image::{Image, write_image};
use pw_object::Object;
use pw_store_modules::Module;
use pw_value::Name;
use std::alloc::{AllocError, Global};

/// The names of the modules whose objects were made anew, and the files of these objects, each with its name.
#[derive(Drop)]
pub struct FreshFiles {
    pub names: Vec<Name>,
    pub files: Vec<(String, Vec<u8>)>,
}

/// The file of an object.
fn object_bytes(alloc: Global, object: &Object) -> Result<Vec<u8>, AllocError>
    requires { IsObject object.now }
    ensures file { IfOk result (λ bytes. IsObjectFile bytes.items object.now) }
    ensures fits { IfOk result (λ bytes. AreBytes bytes.items) }
{
    let bytes = pw_object::write(alloc, object)?;
    are_bytes(&bytes);
    Ok(bytes)
}

/// Puts the file of a module's object behind others.
fn add_file(
    alloc: Global,
    made: &mut FreshFiles,
    name: &Name,
    object: &Object,
) -> Result<(), AllocError>
    requires name { is_module_name name.now ≡ true }
    requires object { IsObject object.now }
    ensures name { OnOk result (made.new.names.items ≡ made.old.names.items ++ name.now ∷ []) }
    ensures file { OnOk result ((bytes : List ℕ) × IsObjectFile bytes object.now × AreBytes bytes × (map file_view made.new.files.items ≡ map file_view made.old.files.items ++ (object_name name.now, bytes) ∷ [])) }
{
    let file = object_name(alloc, name)?;
    let bytes = object_bytes(alloc, object)?;
    made.names.push(name.copy(alloc)?)?;
    made.files.push((file, bytes))?;
    Ok(())
}

/// The files of the objects of modules that were made anew, in the order of the modules.
fn fresh_files(alloc: Global, modules: &[Module], made: &[Made]) -> Result<FreshFiles, AllocError>
    requires { AllByRecursion IsObject (objects_of made.now) }
    ensures names { IfOk result (λ files. files.names.items ≡ map (λ m. m.0) (made_anew (map (λ m. m.name) modules.now) (objects_of made.now) (marks_of made.now))) }
    ensures files { IfOk result (λ files. AreObjectFiles (made_anew (map (λ m. m.name) modules.now) (objects_of made.now) (marks_of made.now)) (map file_view files.files.items)) }
    ensures bytes { IfOk result (λ files. HoldBytes (map file_view files.files.items)) }
{
    let mut files = FreshFiles {
        names: Vec::new(alloc),
        files: Vec::new(alloc),
    };
    for (which, one) in modules.iter().zip(made) {
        if one.fresh {
            add_file(alloc, &mut files, &which.name, &one.object)?;
        }
    }
    Ok(files)
}

/// The bytes of the files of a program, and the files of those of its objects that were made anew.
#[derive(Drop)]
pub struct ProgramFiles {
    pub fresh: FreshFiles,
    pub database: Vec<u8>,
    pub image: Vec<u8>,
}

/// The files of a program of these modules: of those of its objects that are marked as made anew, of its database and of
/// its image.
pub fn files_of(
    alloc: Global,
    modules: &[Module],
    database: &Database,
    made: &[Made],
    image: &Image,
) -> Result<ProgramFiles, AllocError>
    requires database { IsDatabase database.now.functions }
    requires objects { AllByRecursion IsObject (objects_of made.now) }
    requires image { IsImage image.now }
    ensures names { IfOk result (λ files. files.fresh.names.items ≡ map (λ m. m.0) (made_anew (map (λ m. m.name) modules.now) (objects_of made.now) (marks_of made.now))) }
    ensures objects { IfOk result (λ files. AreObjectFiles (made_anew (map (λ m. m.name) modules.now) (objects_of made.now) (marks_of made.now)) (map file_view files.fresh.files.items)) }
    ensures bytes { IfOk result (λ files. HoldBytes (map file_view files.fresh.files.items)) }
    ensures database { IfOk result (λ files. IsNewFile files.database.items database.now.functions) }
    ensures image { IfOk result (λ files. (names : List (List ℕ)) × IsImageFile files.image.items (record { names = names; value = image.now })) }
{
    let fresh = fresh_files(alloc, modules, made)?;
    let database = write_functions(alloc, database.functions.as_slice())?;
    let image = write_image(alloc, image)?;
    Ok(ProgramFiles {
        fresh,
        database,
        image,
    })
}
