//! What the calls that take an image file answer, and the map of its names.

ghost use Rattle.std.specs.Prelude.{◌≡◌, List, length, map, IfOk, Ok};
ghost use Rattle.pw_image.specs.declared.image.Image.{Image};
ghost use Rattle.pw_image.specs.Image.{Contents, IsImageFile};
ghost use Rattle.pw_image.specs.Reading.{image_file_at};
ghost use Rattle.pw_image.specs.Loading.{GivesLoad, loaded_as, function_entry, global_entry, map_of};

use crate::image::{Function, GlobalObject};
use crate::reading::read_image;
use pw_items::Items;
use pw_value::{FileError, Name};
use std::alloc::{AllocError, Global};

/// Why an image is not loaded: the bytes are the file of none, or there is no memory. `at` is the offset
/// of the first field, in order, that is short or breaks its rule.
#[derive(Clone, Copy, Debug)]
pub enum LoadError {
    LoadFault { at: usize },
    NoMemory,
}

impl From<AllocError> for LoadError {
    ghost use Rattle.pw_image.specs.declared.load.LoadError.TheVariants.{NoMemory};

    ghost from_gives = { λ _ e. e ≡ NoMemory };

    fn from(_none: AllocError) -> LoadError {
        LoadError::NoMemory
    }
}

impl From<FileError> for LoadError {
    ghost use Rattle.pw_image.specs.Loading.{load_error_of};

    ghost from_gives = { λ fault e. e ≡ load_error_of fault };

    fn from(fault: FileError) -> LoadError {
        match fault {
            FileError::FileFault { at } => LoadError::LoadFault { at },
            FileError::NoMemory => LoadError::NoMemory,
        }
    }
}

/// Where a program's names stand, in the order of linking.
#[derive(Drop)]
pub struct Map {
    /// Each function's name, its address and the bytes of its frame.
    pub functions: Items<(Name, u32, u32)>,
    /// Each global object's name and its address.
    pub globals: Items<(Name, u32)>,
}

/// The functions of a map.
fn function_entries(
    alloc: Global,
    functions: Items<Function>,
) -> Result<Items<(Name, u32, u32)>, AllocError>
    ensures { IfOk result (λ entries. entries ≡ map function_entry functions) }
{
    let entries = functions
        .into_vec()
        .into_iter()
        .map(|f| (f.name, f.address, f.frame))
        .collect(alloc)?;
    Ok(Items::from_vec(entries))
}

/// The global objects of a map.
fn global_entries(
    alloc: Global,
    globals: Items<GlobalObject>,
) -> Result<Items<(Name, u32)>, AllocError>
    ensures { IfOk result (λ entries. entries ≡ map global_entry globals) }
{
    let entries = globals
        .into_vec()
        .into_iter()
        .map(|g| (g.name, g.address))
        .collect(alloc)?;
    Ok(Items::from_vec(entries))
}

/// The map in the image file that the bytes are. A fault is the first field, in order, that is short or
/// breaks its rule, as of [`read_image`].
pub fn read_map(alloc: Global, bytes: &[u8]) -> Result<Map, LoadError>
    // What is read is the map of an image whose file the bytes are.
    ensures found { IfOk result (λ map. (c : Contents Image) × IsImageFile bytes.now c × (map ≡ map_of c.value)) }
    // The map of an image is read from its file, unless memory runs out.
    ensures only { (c : Contents Image) → IsImageFile bytes.now c → GivesLoad (λ map. map) result (Ok (map_of c.value)) }
    // Which fault it is.
    ensures exact { GivesLoad (λ map. map) result (loaded_as map_of (image_file_at bytes.now)) }
{
    map_alone(alloc, bytes)
}

/// The map in an image file, by what reading finds.
fn map_alone(alloc: Global, bytes: &[u8]) -> Result<Map, LoadError>
    ensures { GivesLoad (λ map. map) result (loaded_as map_of (image_file_at bytes.now)) }
{
    let image = read_image(alloc, bytes)?;
    Ok(Map {
        functions: function_entries(alloc, image.functions)?,
        globals: global_entries(alloc, image.globals)?,
    })
}
