//! The files of a program beside those that a store keeps.

ghost use Rattle.std.specs.Prelude.{◌≡◌, IfOk, IfSome};
ghost use Rattle.pw_io.specs.Files.{Keeps};
ghost use Rattle.pw_io.specs.Faults.{HasStoreCause};
ghost use Rattle.pw_store_kept.specs.Files.{IsCompared};

use crate::files::{FreshFiles, ProgramFiles};
use crate::kept::is_changed;
use pw_io::{Store, StoreError};
use pw_store_modules::{DATABASE_NAME, IMAGE_NAME};
use pw_value::Name;
use std::alloc::Global;

/// What a build comes to before its files are put: how many modules there are, the names of those whose objects were made
/// anew, the files of these objects, the bytes of the database and of the image, and whether each of the two differs from
/// what the store keeps.
#[derive(Drop)]
pub struct Prepared {
    pub modules: u32,
    pub rebuilt: Vec<Name>,
    pub objects: Vec<(String, Vec<u8>)>,
    pub database: Vec<u8>,
    pub database_changed: bool,
    pub image: Vec<u8>,
    pub image_changed: bool,
}

/// Compares the files of a program with those that the store keeps.
pub fn compared<S: Store>(
    alloc: Global,
    store: &mut S,
    modules: u32,
    files: ProgramFiles,
) -> Result<Prepared, StoreError>
    ensures prepared { IfSome (S.told store.old) (λ told. IfOk result (λ prepared. IsCompared told.files modules files prepared)) }
    ensures rebuilt { IfOk result (λ prepared. prepared.rebuilt.items ≡ files.fresh.names.items) }
    ensures image { IfOk result (λ prepared. prepared.image.items ≡ files.image.items) }
    ensures same { Keeps (S.told store.old) (S.told store.new) }
    ensures cause { HasStoreCause (S.faults store.old) (S.faults store.new) result }
{
    let database_changed = is_changed(alloc, store, DATABASE_NAME, &files.database)?;
    let image_changed = is_changed(alloc, store, IMAGE_NAME, &files.image)?;
    let ProgramFiles {
        fresh,
        database,
        image,
    } = files;
    let FreshFiles { names, files } = fresh;
    Ok(Prepared {
        modules,
        rebuilt: names,
        objects: files,
        database,
        database_changed,
        image,
        image_changed,
    })
}
