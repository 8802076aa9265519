//! The frame of a whole file: its kind, its length, its version, the payload, and the SHA-256 digest of
//! all bytes before it.

ghost use Rattle.std.specs.Prelude.{◌≡◌, ◌≢◌, ◌+◌, ◌-◌, ◌<◌, ◌≤◌, ◌^◌, ◌↔◌, List, length, false, ◌==◌, IfOk, IfErr, Ok, Err};
ghost use Rattle.std.specs.Prelude.{nat_le, ◌&&◌, IsTrue, OnOk, OnErr};
ghost use Rattle.pw_fields.specs.Fields.{checked, u32_at};
ghost use Rattle.pw_fields.specs.FieldFaults.{AnswersField, GivesFile};
ghost use Rattle.pw_fields.specs.FieldFrame.{header_at, opened_at, is_sealed, before_digest, file, FitsFile, digest_size, header_size, frame_size};

use crate::writing::push_u32;
use crate::{FieldFault, read_u32};
use pw_value::FileError;
use sha2::{Digest, Sha256};
use std::alloc::{AllocError, Global};

/// The bytes of a SHA-256 digest.
pub const DIGEST_LEN: usize = 32;

/// The bytes of the three numbers before the payload.
pub const HEADER_LEN: usize = 12;

/// The bytes of a file besides its payload.
pub const FRAME_LEN: usize = HEADER_LEN + DIGEST_LEN;

/// The sizes are those that the definitions speak of.
pub fn sizes_of_a_frame()
    ensures digest { DIGEST_LEN ≡ digest_size }
    ensures header { HEADER_LEN ≡ header_size }
    ensures frame { FRAME_LEN ≡ frame_size }
{}

/// A file whose kind, length and version are lawful: the version, the payload, and the offset at which
/// the payload ends and the digest begins.
#[derive(Clone, Copy)]
pub struct Opened<'a> {
    pub version: u32,
    pub payload: &'a [u8],
    pub end: usize,
}

/// The number at the beginning where it is one of those from `first` to `last`.
fn read_number_within(first: u32, last: u32, bytes: &[u8]) -> Result<(u32, &[u8]), FieldFault>
    ensures found { AnswersField (λ x. (x.0, x.1.now)) result (checked (λ v. nat_le first v && nat_le v last) u32_at bytes.now) }
    ensures no_memory { IfErr result (λ e. e ≢ FieldFault.NoMemory) }
{
    let (number, rest) = read_u32(bytes)?;
    if first <= number && number <= last {
        Ok((number, rest))
    } else {
        Err(FieldFault::Fault { left: bytes.len() })
    }
}

/// What follows the number at the beginning, where it is the one that is wanted.
fn read_wanted(wanted: usize, bytes: &[u8]) -> Result<&[u8], FieldFault>
    ensures found { AnswersField (λ rest. (wanted, rest.now)) result (checked (λ n. n == wanted) u32_at bytes.now) }
    ensures no_memory { IfErr result (λ e. e ≢ FieldFault.NoMemory) }
{
    let (number, rest) = read_u32(bytes)?;
    if number as usize == wanted {
        Ok(rest)
    } else {
        Err(FieldFault::Fault { left: bytes.len() })
    }
}

/// The fields before the payload: the answer is the version, from `first` to `last`.
fn read_header(kind: u32, first: u32, last: u32, bytes: &[u8]) -> Result<(u32, &[u8]), FieldFault>
    ensures found { AnswersField (λ x. (x.0, x.1.now)) result (header_at kind first last (length bytes.now) bytes.now) }
    ensures no_memory { IfErr result (λ e. e ≢ FieldFault.NoMemory) }
{
    let rest = read_wanted(kind as usize, bytes)?;
    let rest = read_wanted(bytes.len(), rest)?;
    read_number_within(first, last, rest)
}

/// Opens a file: its kind, its length and a version from `first` to `last` are looked at, in this
/// order, and nothing of the payload and the digest.
#[tactic(auto, unfolding(crate::specs::FieldFrame::opened_at))]
pub fn open(kind: u32, first: u32, last: u32, bytes: &[u8]) -> Result<Opened, FileError>
    ensures found { GivesFile (λ o. (o.version, o.payload.now, o.end)) result (opened_at kind first last bytes.now) }
    ensures within { IfOk result (λ o. o.end ≤ length bytes.now) }
    ensures no_memory { IfErr result (λ e. e ≢ FileError.NoMemory) }
{
    match read_header(kind, first, last, bytes) {
        Err(e) => Err(e.at(bytes.len())),
        Ok((version, rest)) => {
            let (payload, digest) = rest.split_at(rest.len().saturating_sub(DIGEST_LEN));
            let end = bytes.len().saturating_sub(digest.len());
            Ok(Opened {
                version,
                payload,
                end,
            })
        }
    }
}

/// Whether the bytes from `end` on are the digest of the bytes before it.
fn is_digest_right(bytes: &[u8], end: usize) -> bool
    requires { end ≤ length bytes.now }
    ensures { IsTrue result ↔ IsTrue (is_sealed bytes.now end) }
{
    let (front, digest) = bytes.split_at(end);
    let made = Sha256::digest(front);
    made.as_slice() == digest
}

/// Looks at the digest, after everything else: where it is not that of the bytes before it, it is the
/// faulty field.
pub fn check_digest(bytes: &[u8], end: usize) -> Result<(), FileError>
    requires { end ≤ length bytes.now }
    ensures right { OnOk result (IsTrue (is_sealed bytes.now end)) }
    ensures wrong { IfErr result (λ e. (e ≡ FileError.FileFault end) × (is_sealed bytes.now end ≡ false)) }
{
    if is_digest_right(bytes, end) {
        Ok(())
    } else {
        Err(FileError::FileFault { at: end })
    }
}

/// The bytes of a file before its digest.
#[tactic(auto, unfolding(crate::specs::FieldFrame::before_digest))]
fn write_before_digest(
    alloc: Global,
    kind: u32,
    version: u32,
    payload: &[u8],
) -> Result<Vec<u8>, AllocError>
    requires { FitsFile payload.now }
    ensures { IfOk result (λ v. v.items ≡ before_digest kind version payload.now) }
{
    let length = FRAME_LEN + payload.len();
    let mut out = Vec::with_capacity(alloc, length)?;
    push_u32(&mut out, kind)?;
    push_u32(&mut out, length as u32)?;
    push_u32(&mut out, version)?;
    out.extend_from_slice(payload)?;
    Ok(out)
}

/// The file of this kind and version that holds the payload.
#[tactic(auto, unfolding(crate::specs::FieldFrame::file))]
pub fn seal(alloc: Global, kind: u32, version: u32, payload: &[u8]) -> Result<Vec<u8>, AllocError>
    requires { FitsFile payload.now }
    ensures { IfOk result (λ v. v.items ≡ file kind version payload.now) }
{
    let mut out = write_before_digest(alloc, kind, version, payload)?;
    let digest = Sha256::digest(&out);
    out.extend_from_slice(&digest)?;
    Ok(out)
}
