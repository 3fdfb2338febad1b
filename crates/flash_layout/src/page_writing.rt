//! Writing the configuration page.

ghost use Rattle.std.specs.Prelude.{◌≡◌, ◌≤◌, ◌+◌, ◌*◌, ◌∷◌, ◌++◌, All, length, slice_index};
ghost use Rattle.suit_params.specs.Identifiers.{spelled_id};
ghost use Rattle.flash_layout.specs.Frames.{most, page_bytes};
ghost use Rattle.flash_layout.specs.ConfigPage.{config_page, entries_bytes, entry_bytes, identifier_field, ids_field, memory_byte, numbers_field, optional_id, padded, page_front};

use crate::frame::{ENTRY_SIZE, FRONT_SIZE, MOST_BYTES, most};
use crate::page::Page;
use crate::spelling::spell_id;
use crate::{Entry, Frame, Key, Layout, Memory};
use suit_edge::OPEN;
use suit_params::Identifier;

// Appends the length of an identifier's spelling, and the spelling padded with zeros.
fn put_spelling(page: &mut Page<MOST_BYTES>, spelling: &[u8])
    requires short { length spelling.now ≤ 64 }
    requires room { length page.old + 65 ≤ MOST_BYTES }
    ensures bytes { page.new ≡ page.old ++ length spelling.now ∷ padded 64 spelling.now }
    ensures long { length page.new ≡ length page.old + 65 }
{
    page.put(&[spelling.len() as u8]);
    page.put(spelling);
    page.put_zeros(64 - spelling.len());
}

// Appends an identifier.
fn put_identifier(page: &mut Page<MOST_BYTES>, identifier: &Identifier)
    requires short { length (spelled_id identifier.now) ≤ 64 }
    requires room { length page.old + 65 ≤ MOST_BYTES }
    ensures bytes { page.new ≡ page.old ++ identifier_field identifier.now }
    ensures long { length page.new ≡ length page.old + 65 }
{
    match spell_id(identifier) {
        Ok(spelling) => put_spelling(page, spelling.as_slice()),
        Err(_) => unreachable!(),
    }
}

// Appends a UUID.
fn put_uuid(page: &mut Page<MOST_BYTES>, id: &[u8; 16])
    requires { length page.old + 17 ≤ MOST_BYTES }
    ensures bytes { page.new ≡ page.old ++ 1 ∷ id.now }
    ensures long { length page.new ≡ length page.old + 17 }
{
    page.put(&[1]);
    page.put(id);
}

// Appends a UUID that may be absent.
fn put_id(page: &mut Page<MOST_BYTES>, id: &Option<[u8; 16]>)
    requires { length page.old + 17 ≤ MOST_BYTES }
    ensures bytes { page.new ≡ page.old ++ optional_id id.now }
    ensures long { length page.new ≡ length page.old + 17 }
{
    match id {
        None => page.put_zeros(17),
        Some(id) => put_uuid(page, id),
    }
}

// Appends the three UUIDs of a component.
fn put_ids(page: &mut Page<MOST_BYTES>, entry: &Entry)
    requires { length page.old + 51 ≤ MOST_BYTES }
    ensures bytes { page.new ≡ page.old ++ ids_field entry.now }
    ensures long { length page.new ≡ length page.old + 51 }
{
    put_id(page, &entry.vendor);
    put_id(page, &entry.class);
    put_id(page, &entry.device);
}

// Appends a component's capacity, and where its slots start.
fn put_numbers(page: &mut Page<MOST_BYTES>, entry: &Entry)
    requires { length page.old + 24 ≤ MOST_BYTES }
    ensures bytes { page.new ≡ page.old ++ numbers_field entry.now }
    ensures long { length page.new ≡ length page.old + 24 }
{
    page.put_number(entry.capacity);
    page.put_number(entry.starts[0]);
    page.put_number(entry.starts[1]);
}

// The byte that stands for a memory.
fn memory_byte(memory: Memory) -> u8
    ensures { result ≡ memory_byte memory }
{
    match memory {
        Memory::Flash => 0,
        Memory::Ram => 1,
    }
}

// Appends a component.
#[tactic(auto, unfolding(crate::specs::ConfigPage::entry_bytes))]
fn put_entry(page: &mut Page<MOST_BYTES>, entry: &Entry)
    requires short { length (spelled_id entry.now.identifier) ≤ 64 }
    requires room { length page.old + ENTRY_SIZE ≤ MOST_BYTES }
    ensures bytes { page.new ≡ page.old ++ entry_bytes entry.now }
    ensures long { length page.new ≡ length page.old + ENTRY_SIZE }
{
    page.put(&[memory_byte(entry.memory), entry.slots]);
    put_identifier(page, &entry.identifier);
    put_ids(page, entry);
    put_numbers(page, entry);
}

// Appends components.
fn put_entries(page: &mut Page<MOST_BYTES>, entries: &[Entry])
    requires short { All (λ e. length (spelled_id e.identifier) ≤ 64) entries.now }
    requires room { length page.old + ENTRY_SIZE * length entries.now ≤ MOST_BYTES }
    ensures bytes { page.new ≡ page.old ++ entries_bytes entries.now }
    ensures long { length page.new ≡ length page.old + ENTRY_SIZE * length entries.now }
{
    for entry in entries {
        put_entry(page, entry);
    }
}

// Appends the open gate, the version, the lengths and the key.
fn put_front(page: &mut Page<MOST_BYTES>, version: u8, count: u8, key: &Key)
    requires { length page.old + FRONT_SIZE ≤ MOST_BYTES }
    ensures bytes { page.new
        ≡ page.old ++ OPEN ∷ version ∷ key.now.length ∷ count ∷ key.now.bytes }
    ensures long { length page.new ≡ length page.old + FRONT_SIZE }
{
    page.put(&[OPEN, version, key.length, count]);
    page.put(&key.bytes);
}

/// Writes the page of a layout and a key on a flash with this frame, with its gate open. Allocates
/// nothing.
#[tactic(auto, unfolding(crate::specs::ConfigPage::config_page))]
pub fn write_page(layout: &Layout, key: &Key, frame: Frame) -> Page<MOST_BYTES>
    requires few { length layout.now ≤ most frame }
    requires short { All (λ e. length (spelled_id e.identifier) ≤ 64) layout.now }
    ensures bytes { result ≡ config_page frame layout.now key.now }
    ensures long { length result ≡ page_bytes frame }
{
    let entries = layout.as_slice();
    let mut page = Page::new();
    put_front(&mut page, frame.version, entries.len() as u8, key);
    put_entries(&mut page, entries);
    page.put_zeros(ENTRY_SIZE * most(frame) - ENTRY_SIZE * entries.len());
    page
}
