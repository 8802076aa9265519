// Files in memory and the names put so far, which count no calls and no faults.
ghost use Rattle.std.specs.Prelude.{◌≡◌, [], map, IfOk, OnOk, OnErr, string_bytes};
ghost use Rattle.std.specs.Option.{option_map};
ghost use Rattle.std.specs.FinMap as finite;
ghost use Rattle.pw_io.specs.Files.{prefix_of, after_put, after_remove};
ghost use Rattle.pw_io.specs.Shelf.{files_of};

use crate::NoMemory;
use crate::kept::{Kept, find_file, front, kept_files, names_of, remove_file, set_file};
use std::alloc::Global;
use std::marker::Model;

/// Files by name, and the names put so far.
#[derive(Drop)]
pub(crate) struct Shelf {
    files: Kept,
    puts: Vec<String>,
}

impl Model for Shelf {
    ghost use Rattle.std.specs.Prelude.{map, string_bytes};
    ghost use Rattle.pw_io.specs.Files.{Told};
    ghost use Rattle.pw_io.specs.Shelf.{files_in};
    ghost use Rattle.pw_io.specs.Codes.{told_code};

    ghost Value = { Told };

    ghost coded = { told_code };

    ghost view = { λ s. record { files = files_in s.files; puts = map string_bytes s.puts.items } };
}

impl Shelf {
    /// A shelf of these files, on which nothing was put so far. Where a name stands twice the last
    /// entry counts.
    pub(crate) fn new(alloc: Global, files: &[(String, Vec<u8>)]) -> Result<Shelf, NoMemory>
        ensures { IfOk result (λ shelf. shelf ≡ record { files = files_of files.now; puts = [] }) }
    {
        Ok(Shelf {
            files: kept_files(alloc, files)?,
            puts: Vec::new(alloc),
        })
    }

    /// The names in byte order.
    pub(crate) fn names(&self, alloc: Global) -> Result<Vec<String>, NoMemory>
        ensures { IfOk result (λ names. map string_bytes names.items ≡ finite.keys self.now.files) }
    {
        names_of(alloc, &self.files)
    }

    /// A copy of the first `most` bytes of the file, if there is one of the name.
    pub(crate) fn get(
        &self,
        alloc: Global,
        name: &str,
        most: usize,
    ) -> Result<Option<Vec<u8>>, NoMemory>
        ensures { IfOk result (λ file. option_map (λ bytes. bytes.items) file
            ≡ option_map (prefix_of most) (finite.get self.now.files name.now)) }
    {
        match find_file(&self.files, name) {
            Some(bytes) => Ok(Some(front(alloc, bytes, most)?)),
            None => Ok(None),
        }
    }

    /// The bytes of the file, if there is one of the name.
    pub(crate) fn bytes_of(&self, name: &str) -> Option<&[u8]>
        ensures { option_map (λ bytes. bytes.now) result ≡ finite.get self.now.files name.now }
    {
        find_file(&self.files, name)
    }

    /// The names put so far.
    pub(crate) fn puts(&self) -> &[String]
        ensures { map string_bytes result.now ≡ self.now.puts }
    {
        &self.puts
    }

    /// Sets the bytes of the name, and leaves the list.
    pub(crate) fn set(&mut self, alloc: Global, name: &str, bytes: &[u8]) -> Result<(), NoMemory>
        ensures ok { OnOk result
            (self.new ≡ record self.old { files = finite.insert self.old.files name.now bytes.now }) }
        ensures err { OnErr result (self.new ≡ self.old) }
    {
        set_file(&mut self.files, alloc, name, bytes)
    }

    /// Sets the bytes of the name, and appends the name to the list.
    pub(crate) fn put(&mut self, alloc: Global, name: &str, bytes: &[u8]) -> Result<(), NoMemory>
        ensures ok { OnOk result (self.new ≡ after_put self.old name.now bytes.now) }
        ensures err { OnErr result (self.new ≡ self.old) }
    {
        let listed = String::from_str(alloc, name)?;
        self.puts.try_reserve(1)?;
        set_file(&mut self.files, alloc, name, bytes)?;
        self.puts.push(listed).unwrap();
        Ok(())
    }

    /// Takes the file of the name out, if there is one.
    pub(crate) fn remove(&mut self, name: &str)
        ensures { self.new ≡ after_remove self.old name.now }
    {
        remove_file(&mut self.files, name);
    }
}
