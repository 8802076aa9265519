//! Reading a file that holds a table of names and behind it the fields of a value, to their
//! end: what is the same whichever format it is.

ghost use Rattle.std.specs.Prelude.{◌≡◌, ◌+◌, ◌<◌, ◌^◌, ℕ, List, [], length, Option, IfOk, IfErr};
ghost use Rattle.std.specs.List.{flat_map};
ghost use Rattle.pw_fields.specs.Fields.{text};
ghost use Rattle.pw_fields.specs.FieldFaults.{Fails, AnswersField, GivesFile};
ghost use Rattle.pw_fields.specs.FieldFrame.{ended};
ghost use Rattle.pw_fields.specs.FieldNames.{IsRisingFrom};
ghost use Rattle.pw_files.specs.Contents.{FieldsReader, broken_at, contents_at, contents_file_at, value_of};

use pw_fields::FieldFault;
use pw_fields::frame::{check_digest, open};
use pw_fields::names::read_names;
use pw_value::{FileError, Name};
use std::alloc::Global;

/// A format: the number of its kind, its versions, and how the fields behind the table of names are read.
pub trait Format {
    /// What a file of the format holds.
    type Value: Drop;

    /// The first four bytes of a file.
    const KIND: u32;

    ghost KIND: { ℕ };

    /// The first version of its files that is read.
    const FIRST: u32;

    ghost FIRST: { ℕ };

    /// The last version that is read, in which files are written.
    const VERSION: u32;

    ghost VERSION: { ℕ };

    /// How the fields of a version are read behind a table of names, under a rule that is looked at last.
    ghost fields: { ℕ → FieldsReader Self.Value };

    /// The rule that is looked at last, for the table of names and so many bytes behind it.
    ghost late: { List (List ℕ) → ℕ → Self.Value → ℕ → Option ℕ };

    /// The fields of a version behind the table of names: the value, the place of which the rule speaks that is looked at last, as the
    /// count of bytes that are left there, and what is left behind the fields.
    fn read_parts<'a>(
        alloc: Global,
        version: u32,
        names: &[Name],
        bytes: &'a [u8],
    ) -> Result<(Self::Value, usize, &'a [u8]), FieldFault>
        requires { IsRisingFrom [] names.now }
        ensures found { IfOk result (λ x. (rule : Self.Value → ℕ → Option ℕ) → fields version names.now rule bytes.now ≡ ended (rule x.0 x.1) (record { names = names.now; value = x.0 }) x.2.now) }
        ensures fault { IfErr result (λ e. (rule : Self.Value → ℕ → Option ℕ) → Fails e (fields version names.now rule bytes.now)) };

    /// The rule that is looked at last, where so many bytes are left behind the table of names, and so many at the place
    /// that `read_parts` tells.
    fn check_late(
        alloc: Global,
        names: &[Name],
        value: &Self::Value,
        behind: usize,
        place: usize,
    ) -> Result<(), FieldFault>
        requires { length (flat_map text names.now) + behind < 2 ^ 64 }
        ensures { AnswersField (λ x. x) result (broken_at (late names.now behind value.now place)) };
}

/// The value behind the table of names: nothing is left behind its fields, and then no rule is broken that is looked at
/// last.
fn read_fields<'a, F: Format>(
    alloc: Global,
    version: u32,
    names: &[Name],
    bytes: &'a [u8],
) -> Result<(F::Value, &'a [u8]), FieldFault>
    requires rising { IsRisingFrom [] names.now }
    requires room { length (flat_map text names.now) + length bytes.now < 2 ^ 64 }
    ensures { AnswersField (λ x. (record { names = names.now; value = x.0 }, x.1.now)) result (F.fields version names.now (F.late names.now (length bytes.now)) bytes.now) }
{
    let (value, place, rest) = F::read_parts(alloc, version, names, bytes)?;
    if !rest.is_empty() {
        return Err(FieldFault::Fault { left: rest.len() });
    }
    F::check_late(alloc, names, &value, bytes.len(), place)?;
    Ok((value, rest))
}

/// The table of names and the value, of a version.
#[tactic(auto, unfolding(crate::specs::Contents::contents_at))]
pub fn read_contents<F: Format>(
    alloc: Global,
    version: u32,
    bytes: &[u8],
) -> Result<((Vec<Name>, F::Value), &[u8]), FieldFault>
    ensures { AnswersField (λ x. (record { names = x.0.0.items; value = x.0.1 }, x.1.now)) result (contents_at (F.fields version) F.late bytes.now) }
{
    let (names, behind) = read_names(alloc, bytes)?;
    let (value, rest) = read_fields::<F>(alloc, version, &names, behind)?;
    Ok(((names, value), rest))
}

/// The table of names and the value of a whole file.
#[tactic(auto, unfolding(pw_fields::specs::FieldFrame::file_at))]
fn read_named<F: Format>(alloc: Global, bytes: &[u8]) -> Result<(Vec<Name>, F::Value), FileError>
    ensures { GivesFile (λ x. record { names = x.0.items; value = x.1 }) result (contents_file_at F.KIND F.FIRST F.VERSION F.fields F.late bytes.now) }
{
    let opened = open(F::KIND, F::FIRST, F::VERSION, bytes)?;
    match read_contents::<F>(alloc, opened.version, opened.payload) {
        Err(e) => Err(e.at(opened.end)),
        Ok((contents, _)) => {
            check_digest(bytes, opened.end)?;
            Ok(contents)
        }
    }
}

/// The value of a whole file, without its table of names. A fault is the first field, in order, that is
/// short or breaks its rule; the digest is looked at last.
pub fn read_value<F: Format>(alloc: Global, bytes: &[u8]) -> Result<F::Value, FileError>
    ensures { GivesFile (λ v. v) result (value_of (contents_file_at F.KIND F.FIRST F.VERSION F.fields F.late bytes.now)) }
{
    let (_names, value) = read_named::<F>(alloc, bytes)?;
    Ok(value)
}
