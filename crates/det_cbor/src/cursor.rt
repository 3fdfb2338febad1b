//! A cursor that reads bytes from left to right.

ghost use Rattle.std.specs.Prelude.{◌≡◌, ◌+◌, ◌<◌, ◌^◌, List, ℕ, length, take, Ok, Err, IfOk, IfErr, OnErr, option_map};
ghost use Rattle.std.specs.Result.{result_ok};
ghost use Rattle.det_cbor.specs.declared.head.Head.{Head};
ghost use Rattle.det_cbor.specs.declared.reason.Reason.{Reason};
ghost use Rattle.det_cbor.specs.declared.reason.Reason.TheVariants.{Truncated};
ghost use Rattle.det_cbor.specs.DataItem.{DataItem};
ghost use Rattle.det_cbor.specs.Faults.{BadHead, Faulty};
ghost use Rattle.det_cbor.specs.HeadReading.{map_ok, place_in};
ghost use Rattle.det_cbor.specs.HeadSpelling.{BeginsWith};
ghost use Rattle.det_cbor.specs.OneReading.{IsItem, StartsWithItem};
ghost use Rattle.det_cbor.specs.Position.{Takes, Reads, next_head, next_bytes, next_item, refusal_at, IsRefusal};

use crate::head::split_head;
use crate::skip::split_item;
use crate::{CborRefusal, Head, Reason};
use std::marker::Model;

/// A cursor over bytes, with the place of the next one.
///
/// A call that is refused leaves the cursor where it was.
#[derive(Debug, Drop)]
pub struct Cursor<'a> {
    rest: &'a [u8],
    at: u64,
}

impl<'a> Model for Cursor<'a> {
    ghost use Rattle.std.specs.Prelude.{◌+◌, ◌<◌, ◌^◌, length};
    ghost use Rattle.det_cbor.specs.Position.{Position};

    ghost Value = { Position };

    ghost view = { λ c. record { left = c.rest.now; place = c.at } };

    ghost invariant = { λ c. c.at + length c.rest.now < 2 ^ 64 };
}

impl<'a> Cursor<'a> {
    /// A cursor over `bytes`, whose first byte is at `place`.
    pub fn new(bytes: &'a [u8], place: u64) -> Cursor<'a>
        requires { place + length bytes.now < 2 ^ 64 }
        ensures { result ≡ record { left = bytes.now; place = place } }
    {
        Cursor {
            rest: bytes,
            at: place,
        }
    }

    /// The place of the next byte.
    pub fn place(&self) -> u64
        ensures value { result ≡ self.now.place }
        ensures room { self.now.place + length self.now.left < 2 ^ 64 }
    {
        self.at
    }

    /// The number of bytes left.
    pub fn left(&self) -> usize
        ensures value { result ≡ length self.now.left }
        ensures room { self.now.place + length self.now.left < 2 ^ 64 }
    {
        self.rest.len()
    }

    /// Reads the next head (RFC 8949, section 3). Does not count levels.
    pub fn head(&mut self) -> Result<Head, CborRefusal>
        ensures exact { option_map (λ head. (head, self.new)) (result_ok result)
            ≡ next_head self.old }
        ensures ok { IfOk result (Reads self.old self.new) }
        ensures refused { IfErr result (IsRefusal self.old BadHead) }
        ensures same { OnErr result (self.new ≡ self.old) }
        ensures every_head { (h : Head) (rest : List ℕ) → BeginsWith self.old.left h rest
            → result ≡ Ok h }
        ensures every_fault { (at : ℕ) (reason : Reason) → BadHead self.old.left at reason
            → result ≡ Err (refusal_at self.old at reason) }
    {
        match split_head(self.rest) {
            Ok((head, rest)) => {
                self.at += (self.rest.len() - rest.len()) as u64;
                self.rest = rest;
                Ok(head)
            }
            Err(reason) => Err(self.refusal(reason)),
        }
    }

    // The refusal of a head or a string that was expected here: at the end of the input if it is
    // truncated, otherwise here.
    fn refusal(&self, reason: Reason) -> CborRefusal
        ensures { result ≡ refusal_at self.now (place_in self.now.left reason) reason }
    {
        let place = match reason {
            Reason::Truncated => self.at + self.rest.len() as u64,
            _ => self.at,
        };
        CborRefusal { place, reason }
    }

    /// Takes the next `count` bytes, which live as long as the input. If fewer are left, the
    /// refusal is `Truncated`, at the end of the input.
    pub fn bytes(&mut self, count: u64) -> Result<&'a [u8], CborRefusal>
        ensures exact { option_map (λ piece. (piece.now, self.new)) (result_ok result)
            ≡ next_bytes count self.old }
        ensures ok { IfOk result
            (λ piece. (length piece.now ≡ count) × Takes self.old self.new piece.now) }
        ensures short { IfErr result (λ e. (length self.old.left < count)
            × (e ≡ refusal_at self.old (length self.old.left) Truncated)) }
        ensures same { OnErr result (self.new ≡ self.old) }
    {
        if (self.rest.len() as u64) < count {
            return Err(self.refusal(Reason::Truncated));
        }
        let (piece, rest) = self.rest.split_at(count as usize);
        self.at += count;
        self.rest = rest;
        Ok(piece)
    }

    /// Skips one whole item and returns its bytes. The item is judged as by `decode`, with levels
    /// counted from this item. Allocates nothing.
    pub fn skip(&mut self) -> Result<&'a [u8], CborRefusal>
        ensures exact { option_map (λ piece. (piece.now, self.new)) (result_ok result)
            ≡ next_item self.old }
        ensures ok { IfOk result (λ piece. IsItem piece.now × Takes self.old self.new piece.now) }
        ensures refused { IfErr result (IsRefusal self.old (Faulty 0)) }
        ensures same { OnErr result (self.new ≡ self.old) }
        ensures every_item { (x : DataItem) (used : ℕ) → StartsWithItem self.old.left x used
            → map_ok (λ piece. piece.now) result ≡ Ok (take used self.old.left) }
        ensures every_fault { (at : ℕ) (reason : Reason) → Faulty 0 self.old.left at reason
            → result ≡ Err (refusal_at self.old at reason) }
    {
        match split_item(self.rest) {
            Ok((item, rest)) => {
                self.at += item.len() as u64;
                self.rest = rest;
                Ok(item)
            }
            Err(refusal) => Err(CborRefusal {
                place: self.at + refusal.place,
                reason: refusal.reason,
            }),
        }
    }
}
