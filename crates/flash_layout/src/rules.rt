//! Which layouts are allowed on a flash.

ghost use Rattle.std.specs.Prelude.{◌≡◌, ◌↔◌, ◌≤◌, ◌<◌, ◌+◌, ℕ, All, AllPairs, IsTrue, length, slice_index, slice_index_or};
ghost use Rattle.flash_layout.specs.declared.layout.Entry.{Entry};
ghost use Rattle.flash_layout.specs.Frames.{frame_size};
ghost use Rattle.flash_layout.specs.Layouts.{AreAllClear, AreApart, AreClear, IsBehindHead, IsClearOf, IsInside, IsEntry, IsInFlash, IsLayout, IsOfMemory, IsInRam, slot_size, slot_starts};

use crate::frame::{LENGTH_SIZE, SLOTS_START, frame_size, most};
use crate::spelling::spell_id;
use crate::{Entry, Frame, Layout, Memory};

/// The most bytes that a component in working memory may hold.
pub const MAX_RAM: u64 = 1048576;

// Whether a slot that starts at `start` and holds up to `capacity` bytes ends at `end` or before.
fn ends_by(start: u64, capacity: u64, end: u64) -> bool
    ensures { IsTrue result ↔ (start + (LENGTH_SIZE + capacity) ≤ end) }
{
    if end < LENGTH_SIZE {
        return false;
    }
    let room = end - LENGTH_SIZE;
    start <= room && capacity <= room - start
}

/// Whether two slots share no byte.
pub(crate) fn clear(p: u64, m: u64, q: u64, n: u64) -> bool
    ensures { IsTrue result ↔ AreClear p (LENGTH_SIZE + m) q (LENGTH_SIZE + n) }
{
    if p <= q {
        ends_by(p, m, q)
    } else {
        ends_by(q, n, p)
    }
}

// Whether a slot shares no byte with any of the slots at these starts.
fn clear_of(p: u64, m: u64, starts: &[u64], n: u64) -> bool
    ensures { IsTrue result ↔ IsClearOf p (LENGTH_SIZE + m) starts.now (LENGTH_SIZE + n) }
{
    for q in starts {
        if !clear(p, m, *q, n) {
            return false;
        }
    }
    true
}

/// Whether no slot of the first list shares a byte with one of the second.
pub(crate) fn all_clear(ps: &[u64], m: u64, qs: &[u64], n: u64) -> bool
    ensures { IsTrue result ↔ AreAllClear ps.now (LENGTH_SIZE + m) qs.now (LENGTH_SIZE + n) }
{
    for p in ps {
        if !clear_of(*p, m, qs, n) {
            return false;
        }
    }
    true
}

/// Where a component's slots in the flash start. There are none for working memory.
pub fn slots_of(entry: &Entry) -> &[u64]
    requires { entry.now.slots ≤ 2 }
    ensures { result.now ≡ slot_starts entry.now }
{
    match entry.memory {
        Memory::Flash => &entry.starts[..entry.slots as usize],
        Memory::Ram => &[],
    }
}

/// Whether slots at these starts lie where slots may be on a flash of this size.
pub(crate) fn starts_inside(size: u64, starts: &[u64], capacity: u64) -> bool
    ensures { IsTrue result ↔ All (λ p. IsInside size p (LENGTH_SIZE + capacity)) starts.now }
{
    for p in starts {
        if *p < SLOTS_START || !ends_by(*p, capacity, size) {
            return false;
        }
    }
    true
}

// Whether a slot shares no byte with the head and the work area.
fn is_clear_of(frame: Frame, start: u64, capacity: u64) -> bool
    ensures { IsTrue result
        ↔ AreClear frame.base (frame_size frame) start (LENGTH_SIZE + capacity) }
{
    if start < frame.base {
        ends_by(start, capacity, frame.base)
    } else {
        frame_size(frame) <= start - frame.base
    }
}

/// Whether no slot at these starts shares a byte with the head and the work area.
pub(crate) fn starts_clear(frame: Frame, starts: &[u64], capacity: u64) -> bool
    ensures { IsTrue result
        ↔ IsClearOf frame.base (frame_size frame) starts.now (LENGTH_SIZE + capacity) }
{
    for p in starts {
        if !is_clear_of(frame, *p, capacity) {
            return false;
        }
    }
    true
}

// Whether slots at these starts are allowed on a flash of this size with this frame.
fn starts_behind(frame: Frame, size: u64, starts: &[u64], capacity: u64) -> bool
    ensures { IsTrue result
        ↔ All (λ p. IsBehindHead frame size p (LENGTH_SIZE + capacity)) starts.now }
{
    for p in starts {
        if *p < SLOTS_START || !ends_by(*p, capacity, size) || !is_clear_of(frame, *p, capacity) {
            return false;
        }
    }
    true
}

// Whether a component in flash has one or two slots that are apart and where they may be.
fn is_flash(frame: Frame, size: u64, entry: &Entry) -> bool
    ensures { IsTrue result ↔ IsInFlash frame size entry.now }
{
    if entry.slots < 1 || 2 < entry.slots {
        return false;
    }
    if entry.slots == 1 && entry.starts[1] != 0 {
        return false;
    }
    if entry.slots == 2
        && !clear(
            entry.starts[0],
            entry.capacity,
            entry.starts[1],
            entry.capacity,
        )
    {
        return false;
    }
    starts_behind(frame, size, slots_of(entry), entry.capacity)
}

// Whether a component in working memory is allowed.
fn is_ram(entry: &Entry) -> bool
    ensures { IsTrue result ↔ IsInRam entry.now }
{
    entry.slots == 1 && entry.starts[0] == 0 && entry.starts[1] == 0 && entry.capacity <= MAX_RAM
}

// Whether a component's memory is allowed.
fn is_held(frame: Frame, size: u64, entry: &Entry) -> bool
    ensures { IsTrue result ↔ IsOfMemory frame size entry.now entry.now.memory }
{
    match entry.memory {
        Memory::Flash => is_flash(frame, size, entry),
        Memory::Ram => is_ram(entry),
    }
}

// Whether a component is allowed on its own, on a flash of this size.
fn is_entry(frame: Frame, size: u64, entry: &Entry) -> bool
    ensures { IsTrue result ↔ IsEntry frame size entry.now }
{
    match spell_id(&entry.identifier) {
        Ok(_) => 1 <= entry.capacity && is_held(frame, size, entry),
        Err(_) => false,
    }
}

// Whether each component is allowed on its own.
fn each_entry(frame: Frame, size: u64, entries: &[Entry]) -> bool
    ensures { IsTrue result ↔ All (IsEntry frame size) entries.now }
{
    for entry in entries {
        if !is_entry(frame, size, entry) {
            return false;
        }
    }
    true
}

// Whether two components have different identifiers, and share no byte.
fn apart(a: &Entry, b: &Entry) -> bool
    requires first { a.now.slots ≤ 2 }
    requires second { b.now.slots ≤ 2 }
    ensures { IsTrue result ↔ AreApart a.now b.now }
{
    if a.identifier.is_same(&b.identifier) {
        return false;
    }
    all_clear(slots_of(a), a.capacity, slots_of(b), b.capacity)
}

// Whether a component is apart from every one before it.
fn apart_before(entries: &[Entry], last: usize) -> bool
    requires inside { last < length entries.now }
    requires slots { All (λ e. e.slots ≤ 2) entries.now }
    ensures { IsTrue result
        ↔
        ((i : ℕ) (d : Entry) → i < last
        → AreApart (slice_index_or entries.now i d) (slice_index_or entries.now last d)) }
{
    for i in 0..last {
        if !apart(&entries[i], &entries[last]) {
            return false;
        }
    }
    true
}

// Whether every two components are apart.
fn all_apart(entries: &[Entry]) -> bool
    requires slots { All (λ e. e.slots ≤ 2) entries.now }
    ensures { IsTrue result ↔ AllPairs AreApart entries.now }
{
    for j in 0..entries.len() {
        if !apart_before(entries, j) {
            return false;
        }
    }
    true
}

/// Whether a layout is allowed on a flash of this size with this frame. It has one to eight
/// components, or up to 32 with version 2, with different identifiers, each spelled in at most 64
/// bytes. Working memory has 1 to 1,048,576 bytes. Slots hold at least one byte, share no byte with
/// each other, lie after the first 49,152 bytes and within the flash, and are clear of what is at
/// the base.
pub fn is_layout(frame: Frame, size: u64, layout: &Layout) -> bool
    ensures { IsTrue result ↔ IsLayout frame size layout.now }
{
    let entries = layout.as_slice();
    if entries.len() < 1 || most(frame) < entries.len() {
        return false;
    }
    if !each_entry(frame, size, entries) {
        return false;
    }
    all_apart(entries)
}
