// Files in a map from names to bytes.
ghost use Rattle.std.specs.Prelude.{◌≡◌, map, IfOk, OnOk, OnErr, string_bytes};
ghost use Rattle.std.specs.Option.{option_map};
ghost use Rattle.std.specs.FinMap as finite;
ghost use Rattle.pw_io.specs.Files.{prefix_of};
ghost use Rattle.pw_io.specs.Shelf.{files_in, files_of};

use crate::NoMemory;
use std::alloc::Global;
use std::collections::BTreeMap;

/// Files by name.
pub(crate) type Kept = BTreeMap<String, Vec<u8>>;

/// A copy of the first `most` bytes.
#[tactic(auto, using(std::proofs::lemmas::List::take_min), unfolding(crate::specs::Files::prefix_of))]
pub(crate) fn front(alloc: Global, bytes: &[u8], most: usize) -> Result<Vec<u8>, NoMemory>
    ensures { IfOk result (λ front. front.items ≡ prefix_of most bytes.now) }
{
    bytes[..most.min(bytes.len())].to_vec(alloc)
}

/// The bytes of a file, if there is one of the name.
#[tactic(auto, using(crate::proofs::KeptFiles::file_steps))]
pub(crate) fn find_file<'a>(kept: &'a Kept, name: &str) -> Option<&'a [u8]>
    ensures { option_map (λ bytes. bytes.now) result ≡ finite.get (files_in kept.now) name.now }
{
    match kept.get(name) {
        Some(bytes) => Some(bytes.as_slice()),
        None => None,
    }
}

/// Gives the file of the name these bytes.
#[tactic(auto, using(crate::proofs::KeptFiles::file_steps))]
pub(crate) fn set_file(
    kept: &mut Kept,
    alloc: Global,
    name: &str,
    bytes: &[u8],
) -> Result<(), NoMemory>
    ensures ok { OnOk result (files_in kept.new ≡ finite.insert (files_in kept.old) name.now bytes.now) }
    ensures err { OnErr result (files_in kept.new ≡ files_in kept.old) }
{
    let key = String::from_str(alloc, name)?;
    let value = bytes.to_vec(alloc)?;
    kept.insert(key, value)?;
    Ok(())
}

/// Takes the file of the name out, if there is one.
#[tactic(auto, using(crate::proofs::KeptFiles::file_steps))]
pub(crate) fn remove_file(kept: &mut Kept, name: &str)
    ensures { files_in kept.new ≡ finite.remove (files_in kept.old) name.now }
{
    kept.remove(name);
}

/// The names in byte order.
#[tactic(auto, using(crate::proofs::KeptFiles::file_steps))]
pub(crate) fn names_of(alloc: Global, kept: &Kept) -> Result<Vec<String>, NoMemory>
    ensures { IfOk result (λ names. map string_bytes names.items ≡ finite.keys (files_in kept.now)) }
{
    let mut names = Vec::with_capacity(alloc, kept.len())?;
    for name in kept.keys() {
        names.push(String::from_str(alloc, name.as_str())?)?;
    }
    Ok(names)
}

/// A map of these files. Where a name stands twice the last entry counts.
#[tactic(auto, using(crate::proofs::KeptFiles::file_steps))]
pub(crate) fn kept_files(alloc: Global, files: &[(String, Vec<u8>)]) -> Result<Kept, NoMemory>
    ensures { IfOk result (λ kept. files_in kept ≡ files_of files.now) }
{
    let mut kept = BTreeMap::new(alloc);
    for (name, bytes) in files {
        set_file(&mut kept, alloc, name.as_str(), bytes.as_slice())?;
    }
    Ok(kept)
}
