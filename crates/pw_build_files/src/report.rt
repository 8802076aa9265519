//! What a build reports.

ghost use Rattle.std.specs.Prelude.{◌≡◌, IfOk, string_bytes};
ghost use Rattle.pw_build_files.specs.Lines.{lines_with, report_text};

use pw_object::Object;
use pw_value::Name;
use std::alloc::{AllocError, Global};

/// What a build reports: how many modules there are, the names of those whose objects were made anew, the bytes of the
/// image, and their SHA-256 digest; and the objects that were linked, in byte order of the modules.
#[derive(Drop)]
pub struct Report {
    pub modules: u32,
    pub rebuilt: Vec<Name>,
    pub image: Vec<u8>,
    pub digest: [u8; 32],
    pub objects: Vec<Object>,
}

/// The two lines of a report, of its counts and the digits of its digest.
fn lines_of(
    alloc: Global,
    rebuilt: usize,
    modules: u32,
    size: usize,
    digits: &str,
) -> Result<String, AllocError>
    ensures { IfOk result (λ text. string_bytes text ≡ lines_with rebuilt modules size digits.now) }
{
    format!(in alloc; "built {rebuilt} of {modules}\nimage {size} {digits}\n")
}

/// A report as text, in two lines: `built N of M`, how many of how many modules were compiled anew, and
/// `image SIZE DIGEST`, the bytes of the image and its SHA-256 in 64 lowercase digits.
pub fn report_lines(alloc: Global, report: &Report) -> Result<String, AllocError>
    ensures { IfOk result (λ text. string_bytes text ≡ report_text report.now) }
{
    let digits = hex::encode(alloc, report.digest.as_slice())?;
    lines_of(
        alloc,
        report.rebuilt.len(),
        report.modules,
        report.image.len(),
        digits.as_str(),
    )
}
