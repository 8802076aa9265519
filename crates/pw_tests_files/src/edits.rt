//! Bytes that are made of others.

use crate::faults::Format;
use pw_fields::read_u32;
use pw_files::writing::seal_payload;
use pw_rows::Text;

/// The bytes of a text that was put together.
fn bytes_of(text: &mut Text, made: Text) -> Vec<u8> {
    match made.into_bytes() {
        Ok(bytes) => bytes,
        Err(_) => {
            text.cut();
            Vec::new(text.alloc())
        }
    }
}

/// Sets a byte as a text says, where the bytes have its place.
fn edit(bytes: &mut [u8], edit: &str) {
    let (place, value) = edit.split_once('=').unwrap_or((edit, ""));
    if let Some(byte) = bytes.get_mut(place.parse::<usize>().unwrap_or(usize::MAX)) {
        *byte = value.parse::<u8>().unwrap_or(0);
    }
}

/// The same bytes again.
fn copy(text: &mut Text, bytes: &[u8]) -> Vec<u8> {
    let mut made = Text::new(text.alloc());
    made.push(bytes);
    bytes_of(text, made)
}

/// The bytes with some of them set.
pub fn edited(text: &mut Text, bytes: &[u8], edits: &str) -> Vec<u8> {
    let mut edited = copy(text, bytes);
    for each in edits.split(' ') {
        edit(&mut edited, each);
    }
    edited
}

/// The bytes between the head of a file and its digest.
pub fn payload_of(file: &[u8]) -> &[u8] {
    file.get(12..file.len().saturating_sub(32)).unwrap_or(&[])
}

/// The version that a file says.
pub fn version_of(file: &[u8]) -> u32 {
    match read_u32(file.get(8..).unwrap_or(&[])) {
        Ok((version, _)) => version,
        Err(_) => 0,
    }
}

/// The file of a payload in a version.
pub fn sealed(text: &mut Text, format: Format, version: u32, payload: &[u8]) -> Vec<u8> {
    match seal_payload(text.alloc(), format.kind(), version, payload) {
        Ok(file) => file,
        Err(_) => {
            text.cut();
            Vec::new(text.alloc())
        }
    }
}

/// The file in its version with a digest made anew.
pub fn sealed_anew(text: &mut Text, format: Format, file: &[u8]) -> Vec<u8> {
    sealed(text, format, version_of(file), payload_of(file))
}

/// Adds the one item of a list so often, and its count before that. Of the rest the first four bytes are the count, and
/// then the item has so many.
fn push_items(made: &mut Text, rest: &[u8], len: usize, count: u32) {
    made.push(&count.to_be_bytes());
    for _ in 0..count {
        made.push(rest.get(4..len.saturating_add(4)).unwrap_or(&[]));
    }
    made.push(rest.get(len.saturating_add(4)..).unwrap_or(&[]));
}

/// The flow file in which the one item of a list stands so often. The list's count is at the place, and the item has so
/// many bytes.
pub fn repeated(text: &mut Text, file: &[u8], place: usize, len: usize, count: u32) -> Vec<u8> {
    let (front, rest) = file.split_at_checked(place).unwrap_or((file, &[]));
    let mut made = Text::new(text.alloc());
    made.push(front);
    push_items(&mut made, rest, len, count);
    let file = bytes_of(text, made);
    sealed_anew(text, Format::Flow, &file)
}
