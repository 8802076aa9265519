//! What is done to the bytes of a kept file.

use crate::stores::put_file;
use pw_io::MemStore;
use pw_rows::Text;
use sha2::{Digest, Sha256};
use std::alloc::AllocError;

/// Changes the byte at an offset, or the last one.
fn change(bytes: &mut [u8], offset: usize) {
    let last = bytes.len().saturating_sub(1);
    if let Some(byte) = bytes.get_mut(offset.min(last)) {
        *byte ^= 1;
    }
}

/// Where the last word stands that loads 1 into a register.
fn last_load(bytes: &[u8]) -> usize {
    let mut found = 0;
    for (place, word) in bytes.windows(4).enumerate() {
        if let [0x34, _, 0, 2] = word {
            found = place;
        }
    }
    found
}

/// Makes the last load of 1 a load of 2, and the digest that of the new bytes.
fn forge(text: &mut Text, bytes: &mut Vec<u8>) {
    let place = last_load(bytes);
    if let Some(byte) = bytes.iter_mut().nth(place.saturating_add(3)) {
        *byte = 4;
    }
    bytes.truncate(bytes.len().saturating_sub(32));
    let digest = Sha256::digest(bytes.as_slice());
    if bytes.extend_from_slice(&digest).is_err() {
        text.cut();
    }
}

/// Does to bytes what a row says.
fn change_bytes(text: &mut Text, bytes: &mut Vec<u8>, word: &str, offset: &str) {
    match word {
        "change" => change(bytes, offset.parse::<usize>().unwrap_or(0)),
        "cut" => bytes.truncate(bytes.len().saturating_sub(1)),
        "forge" => forge(text, bytes),
        _ => text.cut(),
    }
}

/// The bytes of a file; none where it is absent.
fn bytes_of(text: &mut Text, store: &MemStore, name: &str) -> Vec<u8> {
    match Vec::from_slice(text.alloc(), store.bytes_of(name).unwrap_or(&[])) {
        Ok(bytes) => bytes,
        Err(AllocError) => {
            text.cut();
            Vec::new(text.alloc())
        }
    }
}

/// Does to a file what a row says.
pub fn change_file(text: &mut Text, store: &mut MemStore, word: &str, row: &str) {
    let (name, offset) = row.split_once(' ').unwrap_or((row, ""));
    let mut bytes = bytes_of(text, store, name);
    change_bytes(text, &mut bytes, word, offset);
    put_file(text, store, name, &bytes);
}
