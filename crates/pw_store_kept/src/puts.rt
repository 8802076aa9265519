//! Putting files.

ghost use Rattle.std.specs.Prelude.{IfSome, map};
ghost use Rattle.pw_top_answer.specs.Effects.{PutsFiles};
ghost use Rattle.pw_io.specs.Faults.{HasStoreCause};
ghost use Rattle.pw_store_kept.specs.Files.{changed_files, file_view, one_if, program_files, put_answer};

use crate::prepared::Prepared;
use pw_io::{Store, StoreError};
use pw_store_modules::{DATABASE_NAME, IMAGE_NAME};
use std::alloc::Global;

/// Puts files in order.
fn put_files<S: Store>(
    alloc: Global,
    store: &mut S,
    files: &[(String, Vec<u8>)],
) -> Result<(), StoreError>
    ensures put { IfSome (S.told store.old) (λ told. PutsFiles (map file_view files.now) (put_answer result) told (S.told store.new)) }
    ensures cause { HasStoreCause (S.faults store.old) (S.faults store.new) result }
{
    for file in files {
        match store.put(alloc, file.0.as_str(), &file.1) {
            Ok(()) => {}
            Err(error) => return Err(error),
        }
    }
    Ok(())
}

/// Puts a file, if it changed.
fn put_if<S: Store>(
    alloc: Global,
    store: &mut S,
    changed: bool,
    name: &str,
    bytes: &[u8],
) -> Result<(), StoreError>
    ensures put { IfSome (S.told store.old) (λ told. PutsFiles (one_if changed name.now bytes.now) (put_answer result) told (S.told store.new)) }
    ensures cause { HasStoreCause (S.faults store.old) (S.faults store.new) result }
{
    if changed {
        store.put(alloc, name, bytes)
    } else {
        Ok(())
    }
}

/// Puts the database and the image of a build, each if it changed.
fn put_program<S: Store>(
    alloc: Global,
    store: &mut S,
    prepared: &Prepared,
) -> Result<(), StoreError>
    ensures put { IfSome (S.told store.old) (λ told. PutsFiles (program_files prepared.now) (put_answer result) told (S.told store.new)) }
    ensures cause { HasStoreCause (S.faults store.old) (S.faults store.new) result }
{
    match put_if(
        alloc,
        store,
        prepared.database_changed,
        DATABASE_NAME,
        &prepared.database,
    ) {
        Ok(()) => put_if(
            alloc,
            store,
            prepared.image_changed,
            IMAGE_NAME,
            &prepared.image,
        ),
        Err(error) => Err(error),
    }
}

/// Puts the files of a build that changed: its objects, then its database, then its image.
pub fn put_changed<S: Store>(
    alloc: Global,
    store: &mut S,
    prepared: &Prepared,
) -> Result<(), StoreError>
    ensures put { IfSome (S.told store.old) (λ told. PutsFiles (changed_files prepared.now) (put_answer result) told (S.told store.new)) }
    ensures cause { HasStoreCause (S.faults store.old) (S.faults store.new) result }
{
    match put_files(alloc, store, &prepared.objects) {
        Ok(()) => put_program(alloc, store, prepared),
        Err(error) => Err(error),
    }
}
