//! The bytes of a record page, read and written without allocating.

ghost use Rattle.flash_layout.specs.ConfigPage.{padded};
ghost use Rattle.flash_layout.specs.Frames.{most};
ghost use Rattle.rollback_record.specs.RecordPage.{FitsSlots, HasSlot, IsPageBeside, bank_field, digest_at, digest_field, fields_at, fields_with, numbers_field, record_body, record_length};
ghost use Rattle.std.specs.Prelude.{◌≡◌, ◌↔◌, ◌≤◌, ◌<◌, ◌+◌, ℕ, ◌∷◌, ◌++◌, Some, IfSome, IsTrue, drop, length, slice_index, take};

use crate::typing::typed;
use flash_layout::{Frame, MOST_ENTRIES, Page, Record, bank_size, most, read_number};
use suit_edge::OPEN;
use suit_params::{Digest, kind_of_length};

// The byte of a record page where the slots in use begin.
const ACTIVE_START: usize = 91;

/// The most bytes of a record page that are read.
pub(crate) const RECORD_ROOM: usize = ACTIVE_START + MOST_ENTRIES;

/// How many bytes of a record page are read: the gate, and the record after it.
pub(crate) fn record_length(frame: Frame) -> usize
    ensures is { result ≡ record_length frame }
    ensures few { result ≤ RECORD_ROOM }
{
    ACTIVE_START + most(frame)
}

// Appends the generation and the sequence number.
fn put_numbers(page: &mut Page<RECORD_ROOM>, installed: &Record)
    requires { length page.old + 16 ≤ RECORD_ROOM }
    ensures bytes { page.new ≡ page.old ++ numbers_field installed.now }
    ensures long { length page.new ≡ length page.old + 16 }
{
    page.put_number(installed.generation);
    page.put_number(installed.sequence);
}

// Appends the bank, and how many of its bytes are used.
fn put_bank(page: &mut Page<RECORD_ROOM>, installed: &Record)
    requires { length page.old + 9 ≤ RECORD_ROOM }
    ensures bytes { page.new ≡ page.old ++ bank_field installed.now }
    ensures long { length page.new ≡ length page.old + 9 }
{
    page.put(&[installed.bank]);
    page.put_number(installed.length);
}

// Appends the length of the digest, and the digest padded with zeros.
fn put_digest(page: &mut Page<RECORD_ROOM>, digest: &Digest)
    requires { length page.old + 65 ≤ RECORD_ROOM }
    ensures bytes { page.new ≡ page.old ++ digest_field digest.now }
    ensures long { length page.new ≡ length page.old + 65 }
{
    page.put(&[digest.bytes().len() as u8]);
    page.put(&digest.padded());
}

// Appends the slots in use, of as many components as the page has room for.
fn put_active(page: &mut Page<RECORD_ROOM>, frame: Frame, active: &[u8; MOST_ENTRIES])
    requires { length page.old ≡ ACTIVE_START }
    ensures bytes { page.new ≡ page.old ++ take (most frame) active.now }
    ensures long { length page.new ≡ record_length frame }
{
    page.put(&active[..most(frame)]);
}

/// The page of a record, with its gate open.
#[tactic(auto, unfolding(crate::specs::RecordPage::record_body))]
pub(crate) fn spell(frame: Frame, installed: &Record) -> Page<RECORD_ROOM>
    ensures bytes { result ≡ OPEN ∷ record_body frame installed.now }
    ensures long { length result ≡ record_length frame }
{
    let mut page = Page::new();
    page.put(&[OPEN]);
    put_numbers(&mut page, installed);
    put_bank(&mut page, installed);
    put_digest(&mut page, &installed.digest);
    put_active(&mut page, frame, &installed.active);
    page
}

// Reads the digest after its length, if that is the length of a digest.
fn read_digest(page: &[u8]) -> Option<Digest>
    requires { ACTIVE_START ≤ length page.now }
    ensures { result ≡ digest_at page.now }
{
    match kind_of_length(page[26] as usize) {
        Some(kind) => Some(Digest::new(kind, &page[27..27 + kind.size()])),
        None => None,
    }
}

// Reads the slots in use that the page has room for, and pads them with zeros.
fn read_active(page: &[u8]) -> [u8; MOST_ENTRIES]
    requires low { ACTIVE_START ≤ length page.now }
    requires high { length page.now ≤ RECORD_ROOM }
    ensures { result ≡ padded 32 (drop 91 page.now) }
{
    let borne = &page[ACTIVE_START..];
    let mut active = [0; MOST_ENTRIES];
    active[..borne.len()].copy_from_slice(borne);
    active
}

// Reads the other fields, without judging them.
fn read_with(page: &[u8], digest: Digest) -> Record
    requires low { ACTIVE_START ≤ length page.now }
    requires high { length page.now ≤ RECORD_ROOM }
    ensures { result ≡ fields_with page.now digest }
{
    Record {
        generation: read_number(&page[1..9]),
        sequence: read_number(&page[9..17]),
        bank: page[17],
        length: read_number(&page[18..26]),
        digest,
        active: read_active(page),
    }
}

// Reads the fields, without judging them.
fn read_fields(page: &[u8]) -> Option<Record>
    requires low { ACTIVE_START ≤ length page.now }
    requires high { length page.now ≤ RECORD_ROOM }
    ensures { result ≡ fields_at page.now }
{
    match read_digest(page) {
        Some(digest) => Some(read_with(page, digest)),
        None => None,
    }
}

// Whether the component with that index has this slot, given how many slots each component has.
fn has_slot(frame: Frame, slots: &[u8; MOST_ENTRIES], i: usize, slot: u8) -> bool
    requires { i < MOST_ENTRIES }
    ensures { IsTrue result ↔ HasSlot frame slots.now i slot }
{
    slot == 0 || (slot == 1 && i < most(frame) && slots[i] == 2)
}

// Whether each component has its slot in use, and after the last one of the page there are zeros.
fn are_active(frame: Frame, slots: &[u8; MOST_ENTRIES], active: &[u8; MOST_ENTRIES]) -> bool
    ensures { IsTrue result
        ↔ ((i : ℕ) → i < 32 → HasSlot frame slots.now i (slice_index active.now i)) }
{
    for i in 0..MOST_ENTRIES {
        if !has_slot(frame, slots, i, active[i]) {
            return false;
        }
    }
    true
}

/// Whether the fields are in range, by the frame and by how many slots each component has.
pub(crate) fn is_in_range(frame: Frame, slots: &[u8; MOST_ENTRIES], installed: &Record) -> bool
    ensures { IsTrue result ↔ FitsSlots frame slots.now installed.now }
{
    installed.bank < 2
        && installed.length <= bank_size(frame)
        && are_active(frame, slots, &installed.active)
}

/// Whether the bytes are the page of this record.
pub(crate) fn is_page_of(frame: Frame, page: &[u8], installed: &Record) -> bool
    ensures { IsTrue result ↔ (page.now ≡ OPEN ∷ record_body frame installed.now) }
{
    spell(frame, installed).as_slice() == page
}

// The record, if its page is valid.
fn judged(
    frame: Frame,
    slots: &[u8; MOST_ENTRIES],
    page: &[u8],
    installed: Record,
) -> Option<Record>
    ensures some { IfSome result (λ r. IsPageBeside frame slots.now page.now r) }
    ensures every { IsPageBeside frame slots.now page.now installed
        → result ≡ Some installed }
{
    typed(&installed);
    if is_in_range(frame, slots, &installed) && is_page_of(frame, page, &installed) {
        Some(installed)
    } else {
        None
    }
}

/// Decodes a record page, given how many slots each component has. Returns `None` if the page is not valid.
pub(crate) fn decode(frame: Frame, slots: &[u8; MOST_ENTRIES], page: &[u8]) -> Option<Record>
    requires { length page.now ≡ record_length frame }
    ensures some { IfSome result (λ r. IsPageBeside frame slots.now page.now r) }
    ensures every { (r : Record) → IsPageBeside frame slots.now page.now r → result ≡ Some r }
{
    match read_fields(page) {
        Some(installed) => judged(frame, slots, page, installed),
        None => None,
    }
}
