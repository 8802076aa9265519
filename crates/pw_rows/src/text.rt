//! A text that is put together piece by piece.

use hex::FromHexError;
use std::alloc::{AllocError, Global};
use std::fmt::{Debug, Display};
use std::mem;

/// A text that is put together piece by piece. Where memory is refused it is cut, and stays so.
#[derive(Drop)]
pub struct Text {
    alloc: Global,
    bytes: Vec<u8>,
    is_cut: bool,
}

impl Text {
    /// No piece.
    pub fn new(alloc: Global) -> Text {
        Text {
            alloc,
            bytes: Vec::new(alloc),
            is_cut: false,
        }
    }

    /// Where its memory comes from.
    pub fn alloc(&self) -> Global {
        self.alloc
    }

    /// The pieces, or want of memory.
    pub fn into_bytes(self) -> Result<Vec<u8>, AllocError> {
        if self.is_cut {
            return Err(AllocError);
        }
        Ok(self.bytes)
    }

    /// The text so far; no piece is left.
    pub fn take(&mut self) -> Text {
        mem::replace(self, Text::new(self.alloc))
    }

    /// The last byte, if there is one.
    pub fn last(&self) -> Option<u8> {
        self.bytes.last().copied()
    }

    /// Remembers that memory was refused.
    pub fn cut(&mut self) {
        self.is_cut = true;
    }

    /// Adds bytes.
    pub fn push(&mut self, bytes: &[u8]) {
        if self.bytes.extend_from_slice(bytes).is_err() {
            self.is_cut = true;
        }
    }

    /// Adds bytes so many times.
    pub fn repeat(&mut self, bytes: &[u8], count: usize) {
        for _ in 0..count {
            self.push(bytes);
        }
    }

    /// Adds a part so many times, by a row that has the count and, behind a blank, the part.
    pub fn part(&mut self, row: &str) {
        let (count, part) = row.split_once(' ').unwrap_or((row, ""));
        self.repeat(part.as_bytes(), count.parse::<usize>().unwrap_or(0));
    }

    /// Adds a text that was made, or remembers that it could not be.
    fn push_made(&mut self, made: Result<String, AllocError>) {
        match made {
            Ok(made) => self.push(made.as_bytes()),
            Err(AllocError) => self.is_cut = true,
        }
    }

    /// Adds a value as it is shown.
    pub fn display<D: Display>(&mut self, value: &D) {
        self.push_made(format!(in self.alloc; "{value}"));
    }

    /// Adds a value as its type is written.
    pub fn debug<D: Debug>(&mut self, value: &D) {
        self.push_made(format!(in self.alloc; "{value:?}"));
    }

    /// Adds eight hexadecimal digits.
    pub fn word(&mut self, word: u32) {
        self.push_made(format!(in self.alloc; "{word:08x}"));
    }

    /// Adds two hexadecimal digits.
    pub fn byte(&mut self, byte: u8) {
        self.push_made(format!(in self.alloc; "{byte:02x}"));
    }

    /// The bytes that hexadecimal digits spell; none where they spell no bytes.
    pub fn spelled(&mut self, digits: &str) -> Vec<u8> {
        match hex::decode(self.alloc, digits.as_bytes()) {
            Ok(bytes) => return bytes,
            Err(FromHexError::OutOfMemory) => self.is_cut = true,
            Err(_) => {}
        }
        Vec::new(self.alloc)
    }
}
