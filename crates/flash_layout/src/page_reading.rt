//! Reading the configuration page.

ghost use Rattle.std.specs.Prelude.{◌≡◌, ◌↔◌, ◌≤◌, ◌+◌, ◌*◌, ℕ, List, Some, IfOk, IfSome, IsTrue, length};
ghost use Rattle.suit_params.specs.Answering.{Gives};
ghost use Rattle.flash_layout.specs.declared.layout.Entry.{Entry};
ghost use Rattle.flash_layout.specs.declared.key.Key.{Key};
ghost use Rattle.flash_layout.specs.ConfigPage.{IsConfigPage};
ghost use Rattle.flash_layout.specs.Frames.{page_bytes};
ghost use Rattle.flash_layout.specs.Layouts.{AreTyped};
ghost use Rattle.flash_layout.specs.PageReading.{entries_at, entry_at, id_at, key_at, memory_at, page_at};

use crate::frame::{ENTRY_SIZE, FRONT_SIZE, most, page_bytes};
use crate::id_reading::read_identifier;
use crate::key::is_key;
use crate::page::read_number;
use crate::page_writing::write_page;
use crate::rules::is_layout;
use crate::typing::typed;
use crate::{Entry, Frame, Key, Layout, Memory};
use std::alloc::{AllocError, Global};
use suit_params::{Fault, Why, refused};

fn read_memory(byte: u8) -> Memory
    ensures { result ≡ memory_at byte }
{
    if byte == 0 {
        Memory::Flash
    } else {
        Memory::Ram
    }
}

// Reads a UUID that may be absent.
fn read_id(bytes: &[u8]) -> Option<[u8; 16]>
    requires { length bytes.now ≡ 17 }
    ensures { result ≡ id_at bytes.now }
{
    if bytes[0] == 0 {
        return None;
    }
    let mut id = [0; 16];
    id.copy_from_slice(&bytes[1..17]);
    Some(id)
}

// Reads a component.
#[tactic(auto, unfolding(crate::specs::PageReading::entry_at))]
fn read_entry(alloc: Global, bytes: &[u8]) -> Result<Entry, Fault>
    requires { length bytes.now ≡ ENTRY_SIZE }
    ensures { Gives (λ e. e) result (entry_at bytes.now) }
{
    let size = bytes[2] as usize;
    if 64 < size {
        return Ok(refused(2, Why::Shape)?);
    }
    let identifier = read_identifier(alloc, &bytes[3..3 + size])?;
    Ok(Entry {
        identifier,
        memory: read_memory(bytes[0]),
        slots: bytes[1],
        starts: [read_number(&bytes[126..134]), read_number(&bytes[134..142])],
        capacity: read_number(&bytes[118..126]),
        vendor: read_id(&bytes[67..84]),
        class: read_id(&bytes[84..101]),
        device: read_id(&bytes[101..118]),
    })
}

// Reads `count` components.
fn read_entries(alloc: Global, bytes: &[u8], count: usize) -> Result<Layout, Fault>
    requires { ENTRY_SIZE * count ≤ length bytes.now }
    ensures { Gives (λ l. l) result (entries_at count bytes.now) }
{
    let mut layout = Layout::new(alloc);
    for i in 0..count {
        let from = ENTRY_SIZE * i;
        let entry = read_entry(alloc, &bytes[from..from + ENTRY_SIZE])?;
        layout.push(entry)?;
    }
    Ok(layout)
}

// Reads the key.
fn read_key(page: &[u8]) -> Key
    requires { FRONT_SIZE ≤ length page.now }
    ensures { result ≡ key_at page.now }
{
    let mut key = Key {
        bytes: [0; 64],
        length: page[2],
    };
    key.bytes.copy_from_slice(&page[4..FRONT_SIZE]);
    key
}

// Reads the layout and the key, without checking that they are allowed.
#[tactic(auto, unfolding(crate::specs::PageReading::page_at))]
fn read_page(alloc: Global, frame: Frame, page: &[u8]) -> Result<(Layout, Key), Fault>
    requires { length page.now ≡ page_bytes frame }
    ensures { Gives (λ c. c) result (page_at frame page.now) }
{
    let count = page[3] as usize;
    if most(frame) < count {
        return Ok(refused(3, Why::Shape)?);
    }
    let layout = read_entries(alloc, &page[FRONT_SIZE..page_bytes(frame)], count)?;
    Ok((layout, read_key(page)))
}

// Whether the bytes are the page of this layout and key, and both are allowed.
fn spells(frame: Frame, size: u64, page: &[u8], layout: &Layout, key: &Key) -> bool
    ensures { IsTrue result ↔ IsConfigPage frame size page.now layout.now key.now }
{
    if !is_key(key) || !is_layout(frame, size, layout) {
        return false;
    }
    write_page(layout, key, frame).as_slice() == page
}

/// Reads the layout and the key of a page, or `None` if the bytes are not the page of any that are
/// allowed on a flash of this size with this frame.
pub(crate) fn decode_page(
    alloc: Global,
    frame: Frame,
    size: u64,
    page: &[u8],
) -> Result<Option<(Layout, Key)>, AllocError>
    requires { length page.now ≡ page_bytes frame }
    ensures ok { IfOk result (λ r. IfSome r (λ c. IsConfigPage frame size page.now c.0 c.1)) }
    ensures typed { IfOk result (λ r. IfSome r (λ c. AreTyped c.0 c.1)) }
    ensures every { (layout : List Entry) (key : Key) → AreTyped layout key
        → IsConfigPage frame size page.now layout key
        → IfOk result (λ r. r ≡ Some (layout, key)) }
{
    match read_page(alloc, frame, page) {
        Ok((layout, key)) => {
            typed(&layout, &key);
            if spells(frame, size, page, &layout, &key) {
                Ok(Some((layout, key)))
            } else {
                Ok(None)
            }
        }
        Err(Fault::Refused(_)) => Ok(None),
        Err(Fault::NoMemory) => Err(AllocError),
    }
}
