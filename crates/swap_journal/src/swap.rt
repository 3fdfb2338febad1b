//! A swap of two slots, and the page that records it.

ghost use Rattle.std.specs.Prelude.{◌≡◌, ◌↔◌, ◌<◌, ◌≤◌, ◌+◌, ◌^◌, ◌++◌, IsTrue, length};
ghost use Rattle.swap_journal.specs.Swaps.{HasRoom, IsTyped, exchange_of, lengths_field, slot_field, swap_body, swap_of};

use crate::Exchange;
use flash_layout::{LENGTH_SIZE, Page, Slot, in_range, read_number};

/// The size of the page after its gate, in bytes: the record of the swap, and the entries for its
/// progress.
pub(crate) const BODY_BYTES: usize = 88;

/// The size of the record of a swap, in bytes.
pub(crate) const FIELD_BYTES: usize = 56;

/// The places of the page and of the scratch, in bytes. The page takes 89 bytes, and the scratch
/// 4,096.
#[derive(Clone, Copy, Debug, PartialEq, Eq)]
pub struct Journal {
    pub page: u64,
    pub scratch: u64,
}

/// Two slots whose contents are exchanged, the lengths of the contents before that in bytes, and
/// the caller's tag.
#[derive(Clone, Copy, Debug, PartialEq, Eq)]
pub struct Swap {
    pub tag: u64,
    pub first: Slot,
    pub second: Slot,
    pub first_length: u64,
    pub second_length: u64,
}

impl Swap {
    // The bytes that are exchanged.
    pub(crate) fn exchange(&self, journal: &Journal) -> Exchange
        requires first { self.now.first.start + LENGTH_SIZE < 2 ^ 64 }
        requires second { self.now.second.start + LENGTH_SIZE < 2 ^ 64 }
        ensures { result ≡ exchange_of journal.now self.now }
    {
        Exchange {
            first: self.first.start + LENGTH_SIZE,
            second: self.second.start + LENGTH_SIZE,
            scratch: journal.scratch,
            first_length: self.first_length,
            second_length: self.second_length,
        }
    }

    // Whether both contents fit into each of the slots.
    pub(crate) fn has_room(&self) -> bool
        ensures { IsTrue result ↔ HasRoom self.now }
    {
        let room = self.first.capacity.min(self.second.capacity);
        self.first_length <= room && self.second_length <= room
    }
}

// Appends a slot.
fn put_slot(page: &mut Page<BODY_BYTES>, slot: Slot)
    requires { length page.old + 16 ≤ BODY_BYTES }
    ensures bytes { page.new ≡ page.old ++ slot_field slot }
    ensures long { length page.new ≡ length page.old + 16 }
{
    page.put_number(slot.start);
    page.put_number(slot.capacity);
}

// Appends the lengths.
fn put_lengths(page: &mut Page<BODY_BYTES>, swap: &Swap)
    requires { length page.old + 16 ≤ BODY_BYTES }
    ensures bytes { page.new ≡ page.old ++ lengths_field swap.now }
    ensures long { length page.new ≡ length page.old + 16 }
{
    page.put_number(swap.first_length);
    page.put_number(swap.second_length);
}

// Tells the proof that the fields of a swap are in the ranges of their types.
fn typed(swap: &Swap)
    ensures { IsTyped swap.now }
{
    in_range(swap.tag);
    in_range(swap.first.start);
    in_range(swap.first.capacity);
    in_range(swap.second.start);
    in_range(swap.second.capacity);
    in_range(swap.first_length);
    in_range(swap.second_length);
}

/// Writes the page that records a swap, without its gate.
#[tactic(auto, unfolding(crate::specs::Swaps::swap_fields))]
pub(crate) fn spell(swap: &Swap) -> Page<BODY_BYTES>
    ensures bytes { result ≡ swap_body swap.now }
    ensures long { length result ≡ BODY_BYTES }
    ensures typed { IsTyped swap.now }
{
    typed(swap);
    let mut page = Page::new();
    page.put_number(swap.tag);
    put_slot(&mut page, swap.first);
    put_slot(&mut page, swap.second);
    put_lengths(&mut page, swap);
    page.put(&[0; 32]);
    page
}

/// Reads the swap from the bytes after a gate.
pub(crate) fn read_swap(bytes: &[u8; FIELD_BYTES]) -> Swap
    ensures { result ≡ swap_of bytes.now }
{
    Swap {
        tag: read_number(&bytes[0..8]),
        first: Slot {
            start: read_number(&bytes[8..16]),
            capacity: read_number(&bytes[16..24]),
        },
        second: Slot {
            start: read_number(&bytes[24..32]),
            capacity: read_number(&bytes[32..40]),
        },
        first_length: read_number(&bytes[40..48]),
        second_length: read_number(&bytes[48..56]),
    }
}
