//! Bytes that were judged.

ghost use Rattle.std.specs.Prelude.{◌≡◌, ◌+◌, ◌<◌, ◌^◌, ℕ, length, get_or, IsOk, Ok};
ghost use Rattle.det_cbor.specs.Position.{Takes};
ghost use Rattle.suit_params.specs.Reading.{head_from, kind_from, bytes_from, string_from};

use crate::known_head::known_head;
use det_cbor::{Head, HeadKind};
use std::marker::Model;
use suit_params::Why;

// Tells the proof that the bytes of a slice are below 256.
#[inline(always)]
fn bounded(bytes: &[u8])
    ensures { (i : ℕ) → get_or bytes.now i 0 < 256 }
{
    let _ = bytes;
}

/// Bytes that were judged, with the place of the first one left. They are read from left to right,
/// and not judged again.
#[derive(Drop)]
pub(crate) struct Judged<'a> {
    rest: &'a [u8],
    at: u64,
}

impl<'a> Model for Judged<'a> {
    ghost use Rattle.std.specs.Prelude.{◌+◌, ◌<◌, ◌^◌, length};
    ghost use Rattle.det_cbor.specs.Position.{Position};

    ghost Value = { Position };

    ghost view = { λ j. record { left = j.rest.now; place = j.at } };

    ghost invariant = { λ j. j.at + length j.rest.now < 2 ^ 64 };
}

impl<'a> Judged<'a> {
    /// Bytes of which the first has this place.
    #[inline(always)]
    pub(crate) fn new(bytes: &'a [u8], place: u64) -> Judged<'a>
        requires { place + length bytes.now < 2 ^ 64 }
        ensures { result ≡ record { left = bytes.now; place = place } }
    {
        Judged {
            rest: bytes,
            at: place,
        }
    }

    /// A copy, which borrows the same bytes.
    #[inline(always)]
    pub(crate) fn copy(&self) -> Judged<'a>
        ensures { result ≡ self.now }
    {
        Judged {
            rest: self.rest,
            at: self.at,
        }
    }

    /// The place of the next byte.
    #[inline(always)]
    pub(crate) fn place(&self) -> u64
        ensures value { result ≡ self.now.place }
        ensures room { self.now.place + length self.now.left < 2 ^ 64 }
    {
        self.at
    }

    /// Tells the proof that the bytes are below 256.
    #[inline(always)]
    pub(crate) fn are_bytes(&self)
        ensures { (i : ℕ) → get_or self.now.left i 0 < 256 }
    {
        bounded(self.rest);
    }

    /// The bytes that are left.
    #[inline(always)]
    pub(crate) fn all(&self) -> &'a [u8]
        ensures { result.now ≡ self.now.left }
    {
        self.rest
    }

    /// The number of bytes left.
    #[inline(always)]
    pub(crate) fn left(&self) -> usize
        ensures { result ≡ length self.now.left }
    {
        self.rest.len()
    }

    /// Reads the next head.
    #[inline(always)]
    pub(crate) fn head(&mut self) -> Head
        requires { IsOk (head_from self.old) }
        ensures { head_from self.old ≡ Ok (result, self.new) }
    {
        let (head, rest) = known_head(self.rest);
        self.at += (self.rest.len() - rest.len()) as u64;
        self.rest = rest;
        head
    }

    /// Reads the next head, which is of this kind, and returns its value.
    #[inline(always)]
    pub(crate) fn value(&mut self, kind: HeadKind, why: Why) -> u64
        requires { IsOk (kind_from kind why self.old) }
        ensures { kind_from kind why self.old ≡ Ok (result, self.new) }
    {
        let _ = (kind, why);
        self.head().value
    }

    /// Takes the next `count` bytes.
    #[inline(always)]
    pub(crate) fn bytes(&mut self, count: u64) -> &'a [u8]
        requires { IsOk (bytes_from count self.old) }
        ensures exact { bytes_from count self.old ≡ Ok (result.now, self.new) }
        ensures length { length result.now ≡ count }
        ensures taken { Takes self.old self.new result.now }
    {
        let (piece, rest) = self.rest.split_at(count as usize);
        self.at += count;
        self.rest = rest;
        piece
    }

    /// Takes the next `count` bytes, at their place.
    #[inline(always)]
    pub(crate) fn content(&mut self, count: u64) -> Judged<'a>
        requires { IsOk (string_from count self.old) }
        ensures { string_from count self.old ≡ Ok (result, self.new) }
    {
        let place = self.place();
        let content = self.bytes(count);
        Judged::new(content, place)
    }
}
