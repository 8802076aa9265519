//! The laws of image files.

ghost use Rattle.std.specs.Prelude.{◌≡◌, ℕ, List};
ghost use Rattle.pw_image.specs.declared.image.Image.{Image};
ghost use Rattle.pw_image.specs.Image.{Contents, IsImageFile, image_version, kind};

use crate::reading::{KIND, VERSION};

/// The kind and the version of the file are those that its definition speaks of.
pub fn version_of_images()
    ensures kind { KIND ≡ kind }
    ensures version { VERSION ≡ image_version }
{}

/// No bytes are the file of two images, and no image has two files.
pub fn images_and_files_are_one_to_one()
    ensures one_image { (bytes : List ℕ) (c d : Contents Image) → IsImageFile bytes c → IsImageFile bytes d → c ≡ d }
    ensures one_file { (bytes others : List ℕ) (c d : Contents Image) → IsImageFile bytes c → IsImageFile others d → c.value ≡ d.value → bytes ≡ others }
{}
