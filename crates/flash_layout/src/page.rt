//! The bytes of a page of the flash, put together without allocating.

ghost use Rattle.std.specs.Prelude.{◌≡◌, ◌≤◌, ◌+◌, [], ◌++◌, drop, length, replicate};
ghost use Rattle.flash_layout.specs.ConfigPage.{number_bytes};
ghost use Rattle.flash_layout.specs.PageReading.{number_at};

use arrayvec::ArrayVec;
use std::marker::Model;

/// Up to `MOST` bytes of a page.
#[derive(Drop)]
pub struct Page<const MOST: usize> {
    bytes: ArrayVec<u8, MOST>,
}

impl<const MOST: usize> Model for Page<MOST> {
    ghost use Rattle.std.specs.Prelude.{List, ℕ};

    ghost Value = { List ℕ };

    ghost view = { λ p. p.bytes.items };
}

impl<const MOST: usize> Page<MOST> {
    /// An empty page.
    pub fn new() -> Page<MOST>
        ensures { result ≡ [] }
    {
        Page {
            bytes: ArrayVec::new(),
        }
    }

    /// Appends bytes.
    pub fn put(&mut self, bytes: &[u8])
        requires { length self.old + length bytes.now ≤ MOST }
        ensures bytes { self.new ≡ self.old ++ bytes.now }
        ensures long { length self.new ≡ length self.old + length bytes.now }
    {
        match self.bytes.try_extend_from_slice(bytes) {
            Ok(()) => {}
            Err(_) => unreachable!(),
        }
    }

    /// Appends zeros.
    pub(crate) fn put_zeros(&mut self, count: usize)
        requires { length self.old + count ≤ MOST }
        ensures bytes { self.new ≡ self.old ++ replicate count 0 }
        ensures long { length self.new ≡ length self.old + count }
    {
        for _ in 0..count {
            self.put(&[0]);
        }
    }

    /// Appends a number as eight big-endian bytes.
    #[tactic(auto, unfolding(crate::specs::ConfigPage::number_bytes))]
    pub fn put_number(&mut self, number: u64)
        requires { length self.old + 8 ≤ MOST }
        ensures bytes { self.new ≡ self.old ++ number_bytes number }
        ensures long { length self.new ≡ length self.old + 8 }
    {
        self.put(&number.to_be_bytes());
    }

    /// The bytes after the first one, which is the gate.
    pub fn behind_gate(&self) -> &[u8]
        requires { 1 ≤ length self.now }
        ensures { result.now ≡ drop 1 self.now }
    {
        &self.as_slice()[1..]
    }

    /// Borrows the bytes.
    pub fn as_slice(&self) -> &[u8]
        ensures { result.now ≡ self.now }
    {
        self.bytes.as_slice()
    }
}

/// The number in eight bytes, as `Page::put_number` writes it.
#[tactic(auto, unfolding(crate::specs::PageReading::number_at))]
pub fn read_number(bytes: &[u8]) -> u64
    requires { length bytes.now ≡ 8 }
    ensures { result ≡ number_at bytes.now }
{
    let mut number = [0; 8];
    number.copy_from_slice(bytes);
    u64::from_be_bytes(number)
}
