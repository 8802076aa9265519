// Pages of words.

ghost use Rattle.std.specs.Prelude.{◌≡◌, ◌+◌, ◌*◌, ◌/◌, ◌%◌, ◌^◌, ◌<◌, ◌≤◌, length, slice_index, IfOk};
ghost use Rattle.pw_pages.specs.Bytes.{byte_at, half_at, word_at, with_byte, with_half, with_word, zeros, overwritten, bytes_of};

use crate::parts::{byte_in, half_in, with_byte_in};
use std::alloc::{AllocError, Global};
use std::marker::Model;

/// The words of a page.
const PAGE: usize = 1024;

/// The bytes of a page.
pub const PAGE_BYTES: usize = 4096;

/// A memory: its bytes, from address 0 on.
#[derive(Drop)]
pub struct Pages {
    pages: Vec<[u32; PAGE]>,
}

impl Model for Pages {
    ghost use Rattle.std.specs.Prelude.{ℕ, List};
    ghost use Rattle.std.specs.List.{AllByRecursion};
    ghost use Rattle.pw_pages.specs.Paged.{IsPage, bytes_in};

    ghost Value = { List ℕ };

    ghost view = { λ p. bytes_in p.pages.items };

    ghost invariant = { λ p. AllByRecursion IsPage p.pages.items };
}

/// The word at a place of a page.
#[inline(always)]
fn word_of(page: &[u32; PAGE], i: usize) -> u32
    requires { i < 1024 }
    ensures { result ≡ slice_index page.now i }
{
    page[i]
}

impl Pages {
    /// So many pages of bytes of 0.
    pub fn blank(alloc: Global, pages: usize) -> Result<Pages, AllocError>
        ensures { IfOk result (λ p. p ≡ zeros (4096 * pages)) }
    {
        // A page is put at once; `vec!` clones its words one by one in a program that is compiled without proofs.
        let mut blank = Vec::with_capacity(alloc, pages)?;
        for _ in 0..pages {
            blank.push([0; PAGE])?;
        }
        Ok(Pages { pages: blank })
    }

    /// The word at an address that is a multiple of 4.
    #[inline(always)]
    pub fn word_at(&self, a: usize) -> u32
        requires aligned { a % 4 ≡ 0 }
        requires within { a + 4 ≤ length self.now }
        ensures { result ≡ word_at self.now a }
    {
        word_of(&self.pages[a / 4 / PAGE], a / 4 % PAGE)
    }

    /// The half word at an even address.
    #[inline(always)]
    pub fn half_at(&self, a: usize) -> u32
        requires aligned { a % 2 ≡ 0 }
        requires within { a + 2 ≤ length self.now }
        ensures value { result ≡ half_at self.now a }
        ensures small { result < 2 ^ 16 }
    {
        half_in(self.pages[a / 4 / PAGE][a / 4 % PAGE], a % 4)
    }

    /// The byte at an address within the memory, as a word of 0 to 255.
    #[inline(always)]
    pub fn byte_at(&self, a: usize) -> u32
        requires { a < length self.now }
        ensures value { result ≡ byte_at self.now a }
        ensures small { result < 2 ^ 8 }
    {
        byte_in(self.pages[a / 4 / PAGE][a / 4 % PAGE], a % 4)
    }

    /// Puts a word at an address that is a multiple of 4.
    #[inline(always)]
    pub fn put_word(&mut self, a: usize, value: u32)
        requires aligned { a % 4 ≡ 0 }
        requires within { a + 4 ≤ length self.old }
        ensures { self.new ≡ with_word self.old a value }
    {
        self.pages[a / 4 / PAGE][a / 4 % PAGE] = value;
    }

    /// Puts the low byte of a word at an address.
    #[inline(always)]
    pub fn put_byte(&mut self, a: usize, value: u32)
        requires { a < length self.old }
        ensures { self.new ≡ with_byte self.old a value }
    {
        let word = self.pages[a / 4 / PAGE][a / 4 % PAGE];
        self.pages[a / 4 / PAGE][a / 4 % PAGE] = with_byte_in(word, a % 4, value);
    }

    /// Puts the low half word of a word at an even address.
    #[inline(always)]
    pub fn put_half(&mut self, a: usize, value: u32)
        requires aligned { a % 2 ≡ 0 }
        requires within { a + 2 ≤ length self.old }
        ensures { self.new ≡ with_half self.old a value }
    {
        let word = self.pages[a / 4 / PAGE][a / 4 % PAGE];
        let high = with_byte_in(word, a % 4, value / 0x100);
        self.pages[a / 4 / PAGE][a / 4 % PAGE] = with_byte_in(high, a % 4 + 1, value);
    }

    /// Puts bytes from an address on. Addresses have 32 bits.
    pub fn put_bytes(&mut self, at: usize, bytes: &[u8])
        requires within { at + length bytes.now ≤ length self.old }
        requires reached { at + length bytes.now ≤ 2 ^ 32 }
        ensures { self.new ≡ overwritten self.old at bytes.now }
    {
        for (i, byte) in bytes.iter().enumerate() {
            self.put_byte(at + i, u32::from(*byte));
        }
    }

    /// Puts words one behind another, from an address on that is a multiple of 4. Addresses have 32 bits.
    pub fn put_words(&mut self, at: usize, words: &[u32])
        requires aligned { at % 4 ≡ 0 }
        requires within { at + 4 * length words.now ≤ length self.old }
        requires reached { at + 4 * length words.now ≤ 2 ^ 32 }
        ensures { self.new ≡ overwritten self.old at (bytes_of words.now) }
    {
        for (i, word) in words.iter().enumerate() {
            self.put_word(at + 4 * i, *word);
        }
    }
}
