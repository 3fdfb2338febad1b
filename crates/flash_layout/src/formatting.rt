//! Formatting a flash.

ghost use Rattle.std.specs.Prelude.{◌≡◌, ◌≤◌, ◌<◌, ◌↔◌, All, IfOk, IsTrue};
ghost use Rattle.suit_edge.specs.Edge.{IfDone};
ghost use Rattle.suit_edge.specs.Faults.{EdgeCounts};
ghost use Rattle.suit_edge.specs.Gate.{IsOpen};
ghost use Rattle.suit_edge.specs.Flash.{Grows, IsSame, IsSettled, Keeps, Passes};
ghost use Rattle.flash_layout.specs.Layouts.{IsKey, IsLayout, slot_starts};
ghost use Rattle.flash_layout.specs.FaultCounts.{ResultCounts};
ghost use Rattle.flash_layout.specs.Formats.{AreAllClearAt, AreClosed, FormatCounts, HasNoRoot, HasOpenGate, HaveLengths, IfFormatted, IfNotBlank, IsBlankOrFormatted, IsClearAt, IsFormatted, IsPrepared, IsWorkClosed, KeepsZeros, OutsideAllLengths, OutsideFormat, OutsideLengths, OutsideOpened, OutsidePrepared, OutsideRecordGates, OutsideWorkGates};
ghost use Rattle.flash_layout.specs.Frames.{IsFrame};

use crate::frame::{
    CONFIG_GATE, HEAD_SIZE, LENGTH_SIZE, ROOT_GATE, checkpoint_page, journal_page, record_page,
};
use crate::page_writing::write_page;
use crate::root::root_page;
use crate::rules::slots_of;
use crate::typing::typed;
use crate::{Entry, FlashFault, Frame, Key, Layout};
use suit_edge::{CLOSED, Disk, Edge, OPEN, open_written};

/// The outcome of formatting a flash.
#[derive(Clone, Copy, Debug, PartialEq, Eq)]
pub enum Formatted {
    /// The flash now has the layout and the key.
    Done,
    /// The gate of version 1's configuration page, or that of the root, is open. Nothing was
    /// changed.
    NotBlank,
    /// A call of the flash failed, and its count of faults rose.
    FlashFault,
}

// Closes the gates of both record pages.
fn close_records<D: Disk>(disk: &mut D, frame: Frame) -> Edge
    requires { IsFrame (D.extent disk.old) frame }
    ensures size { D.extent disk.new ≡ D.extent disk.old }
    ensures counts { EdgeCounts result (D.faults disk.old) (D.faults disk.new) }
    ensures closed { IsTrue D.told → IfDone result (AreClosed frame (D.flash disk.new).reads) }
    ensures keeps { IsTrue D.told
        → Keeps (OutsideRecordGates frame) (D.flash disk.old) (D.flash disk.new) }
    ensures grows { IsTrue D.told → Grows (D.flash disk.old) (D.flash disk.new) }
{
    match disk.write_at(record_page(frame, 0), &[CLOSED]) {
        Edge::Failed => return Edge::Failed,
        Edge::Done => {}
    }
    match disk.write_at(record_page(frame, 1), &[CLOSED]) {
        Edge::Failed => Edge::Failed,
        Edge::Done => Edge::Done,
    }
}

/// Closes the gates of the work area of version 2. Does nothing on a flash of version 1.
pub fn close_work<D: Disk>(disk: &mut D, frame: Frame) -> Edge
    requires { IsFrame (D.extent disk.old) frame }
    ensures size { D.extent disk.new ≡ D.extent disk.old }
    ensures counts { EdgeCounts result (D.faults disk.old) (D.faults disk.new) }
    ensures closed { IsTrue D.told → IfDone result (IsWorkClosed frame (D.flash disk.new).reads) }
    ensures keeps { IsTrue D.told
        → Keeps (OutsideWorkGates frame) (D.flash disk.old) (D.flash disk.new) }
    ensures grows { IsTrue D.told → Grows (D.flash disk.old) (D.flash disk.new) }
{
    if frame.version != 2 {
        return Edge::Done;
    }
    match disk.write_at(journal_page(frame), &[CLOSED]) {
        Edge::Failed => return Edge::Failed,
        Edge::Done => {}
    }
    match disk.write_at(checkpoint_page(frame), &[CLOSED]) {
        Edge::Failed => Edge::Failed,
        Edge::Done => Edge::Done,
    }
}

// Sets the length in each slot of a component to 0.
fn empty_slots<D: Disk>(disk: &mut D, entry: &Entry) -> Edge
    requires { HaveLengths (D.extent disk.old) entry.now }
    ensures size { D.extent disk.new ≡ D.extent disk.old }
    ensures counts { EdgeCounts result (D.faults disk.old) (D.faults disk.new) }
    ensures clear { IsTrue D.told
        → IfDone result (All (IsClearAt (D.flash disk.new).reads) (slot_starts entry.now)) }
    ensures zeros { IsTrue D.told
        → IfDone result (KeepsZeros (D.flash disk.old).reads (D.flash disk.new).reads) }
    ensures keeps { IsTrue D.told
        → Keeps (OutsideLengths (slot_starts entry.now)) (D.flash disk.old) (D.flash disk.new) }
    ensures grows { IsTrue D.told → Grows (D.flash disk.old) (D.flash disk.new) }
{
    let starts = slots_of(entry);
    for start in starts {
        match disk.write_at(*start, &[0; LENGTH_SIZE as usize]) {
            Edge::Failed => return Edge::Failed,
            Edge::Done => {}
        }
    }
    Edge::Done
}

// Sets the length in each slot of each component to 0.
fn empty_each<D: Disk>(disk: &mut D, entries: &[Entry]) -> Edge
    requires { All (HaveLengths (D.extent disk.old)) entries.now }
    ensures size { D.extent disk.new ≡ D.extent disk.old }
    ensures counts { EdgeCounts result (D.faults disk.old) (D.faults disk.new) }
    ensures clear { IsTrue D.told
        → IfDone result (AreAllClearAt entries.now (D.flash disk.new).reads) }
    ensures zeros { IsTrue D.told
        → IfDone result (KeepsZeros (D.flash disk.old).reads (D.flash disk.new).reads) }
    ensures keeps { IsTrue D.told
        → Keeps (OutsideAllLengths entries.now) (D.flash disk.old) (D.flash disk.new) }
    ensures grows { IsTrue D.told → Grows (D.flash disk.old) (D.flash disk.new) }
{
    for entry in entries {
        match empty_slots(disk, entry) {
            Edge::Failed => return Edge::Failed,
            Edge::Done => {}
        }
    }
    Edge::Done
}

// Writes everything but the configuration page and the root. Does not sync.
fn prepare<D: Disk>(disk: &mut D, layout: &Layout, frame: Frame) -> Edge
    requires frame { IsFrame (D.extent disk.old) frame }
    requires layout { IsLayout frame (D.extent disk.old) layout.now }
    ensures size { D.extent disk.new ≡ D.extent disk.old }
    ensures counts { EdgeCounts result (D.faults disk.old) (D.faults disk.new) }
    ensures prepared { IsTrue D.told
        → IfDone result (IsPrepared frame layout.now (D.flash disk.new).reads) }
    ensures keeps { IsTrue D.told
        → Keeps (OutsidePrepared frame layout.now) (D.flash disk.old) (D.flash disk.new) }
    ensures grows { IsTrue D.told → Grows (D.flash disk.old) (D.flash disk.new) }
{
    match close_records(disk, frame) {
        Edge::Failed => return Edge::Failed,
        Edge::Done => {}
    }
    match close_work(disk, frame) {
        Edge::Failed => return Edge::Failed,
        Edge::Done => {}
    }
    match empty_each(disk, layout.as_slice()) {
        Edge::Failed => Edge::Failed,
        Edge::Done => Edge::Done,
    }
}

// Writes the configuration page of version 1 on a prepared flash, then opens its gate.
fn open_first<D: Disk>(disk: &mut D, layout: &Layout, key: &Key, frame: Frame) -> Edge
    requires version { frame.version ≡ 1 }
    requires frame { IsFrame (D.extent disk.old) frame }
    requires layout { IsLayout frame (D.extent disk.old) layout.now }
    requires key { IsKey key.now }
    ensures size { D.extent disk.new ≡ D.extent disk.old }
    ensures counts { EdgeCounts result (D.faults disk.old) (D.faults disk.new) }
    ensures formatted { IsTrue D.told → IsPrepared frame layout.now (D.flash disk.old).reads
        → HasNoRoot (D.flash disk.old).reads
        → IfDone result
        (IsFormatted frame (D.extent disk.old) layout.now key.now
        (D.flash disk.new).reads) }
    ensures settled { IsTrue D.told → IfDone result (IsSettled (D.flash disk.new)) }
    ensures any_moment { IsTrue D.told → IsPrepared frame layout.now (D.flash disk.old).reads
        → Passes (D.flash disk.old) (D.flash disk.new)
        (IsBlankOrFormatted frame (D.extent disk.old) layout.now key.now
        (D.flash disk.old)) }
    ensures keeps { IsTrue D.told
        → Keeps (OutsideOpened frame) (D.flash disk.old) (D.flash disk.new) }
    ensures grows { IsTrue D.told → Grows (D.flash disk.old) (D.flash disk.new) }
{
    typed(layout, key);
    let page = write_page(layout, key, frame);
    match open_written(disk, frame.base, frame.base + 1, page.behind_gate()) {
        Edge::Failed => Edge::Failed,
        Edge::Done => Edge::Done,
    }
}

// Writes the configuration page of version 2 and the root on a prepared flash, then opens the
// root's gate.
fn open_second<D: Disk>(disk: &mut D, layout: &Layout, key: &Key, frame: Frame) -> Edge
    requires version { frame.version ≡ 2 }
    requires frame { IsFrame (D.extent disk.old) frame }
    requires layout { IsLayout frame (D.extent disk.old) layout.now }
    requires key { IsKey key.now }
    ensures size { D.extent disk.new ≡ D.extent disk.old }
    ensures counts { EdgeCounts result (D.faults disk.old) (D.faults disk.new) }
    ensures formatted { IsTrue D.told → IsPrepared frame layout.now (D.flash disk.old).reads
        → IfDone result
        (IsFormatted frame (D.extent disk.old) layout.now key.now
        (D.flash disk.new).reads) }
    ensures settled { IsTrue D.told → IfDone result (IsSettled (D.flash disk.new)) }
    ensures any_moment { IsTrue D.told → IsPrepared frame layout.now (D.flash disk.old).reads
        → Passes (D.flash disk.old) (D.flash disk.new)
        (IsBlankOrFormatted frame (D.extent disk.old) layout.now key.now
        (D.flash disk.old)) }
    ensures keeps { IsTrue D.told
        → Keeps (OutsideOpened frame) (D.flash disk.old) (D.flash disk.new) }
    ensures grows { IsTrue D.told → Grows (D.flash disk.old) (D.flash disk.new) }
{
    typed(layout, key);
    let page = write_page(layout, key, frame);
    match disk.write_at(frame.base, page.as_slice()) {
        Edge::Failed => return Edge::Failed,
        Edge::Done => {}
    }
    let root = root_page(frame);
    match open_written(disk, ROOT_GATE, ROOT_GATE + 1, root.behind_gate()) {
        Edge::Failed => Edge::Failed,
        Edge::Done => Edge::Done,
    }
}

// Writes the configuration page on a prepared flash, then opens the gate that makes it count.
fn open_config<D: Disk>(disk: &mut D, layout: &Layout, key: &Key, frame: Frame) -> Edge
    requires frame { IsFrame (D.extent disk.old) frame }
    requires layout { IsLayout frame (D.extent disk.old) layout.now }
    requires key { IsKey key.now }
    ensures size { D.extent disk.new ≡ D.extent disk.old }
    ensures counts { EdgeCounts result (D.faults disk.old) (D.faults disk.new) }
    ensures formatted { IsTrue D.told → IsPrepared frame layout.now (D.flash disk.old).reads
        → HasNoRoot (D.flash disk.old).reads
        → IfDone result
        (IsFormatted frame (D.extent disk.old) layout.now key.now
        (D.flash disk.new).reads) }
    ensures settled { IsTrue D.told → IfDone result (IsSettled (D.flash disk.new)) }
    ensures any_moment { IsTrue D.told → IsPrepared frame layout.now (D.flash disk.old).reads
        → Passes (D.flash disk.old) (D.flash disk.new)
        (IsBlankOrFormatted frame (D.extent disk.old) layout.now key.now
        (D.flash disk.old)) }
    ensures keeps { IsTrue D.told
        → Keeps (OutsideOpened frame) (D.flash disk.old) (D.flash disk.new) }
    ensures grows { IsTrue D.told → Grows (D.flash disk.old) (D.flash disk.new) }
{
    if frame.version == 1 {
        return open_first(disk, layout, key, frame);
    }
    open_second(disk, layout, key, frame)
}

// Whether the gate is open.
fn is_open<D: Disk>(disk: &mut D, gate: u64) -> Result<bool, FlashFault>
    requires { gate < D.extent disk.old }
    ensures size { D.extent disk.new ≡ D.extent disk.old }
    ensures counts { ResultCounts result (D.faults disk.old) (D.faults disk.new) }
    ensures told { IsTrue D.told
        → IfOk result (λ opened. IsTrue opened ↔ IsOpen (D.flash disk.old).reads gate) }
    ensures same { IsTrue D.told → IsSame (D.flash disk.old) (D.flash disk.new) }
    ensures grows { IsTrue D.told → Grows (D.flash disk.old) (D.flash disk.new) }
{
    let mut byte = [0u8; 1];
    match disk.read_at(gate, &mut byte) {
        Edge::Failed => Err(FlashFault),
        Edge::Done => Ok(byte[0] == OPEN),
    }
}

/// Whether the gate of version 1's configuration page, or that of the root, is open. Changes
/// nothing.
pub fn has_open_gate<D: Disk>(disk: &mut D) -> Result<bool, FlashFault>
    requires { HEAD_SIZE ≤ D.extent disk.old }
    ensures size { D.extent disk.new ≡ D.extent disk.old }
    ensures counts { ResultCounts result (D.faults disk.old) (D.faults disk.new) }
    ensures told { IsTrue D.told
        → IfOk result (λ opened. IsTrue opened ↔ HasOpenGate (D.flash disk.old).reads) }
    ensures same { IsTrue D.told → IsSame (D.flash disk.old) (D.flash disk.new) }
    ensures grows { IsTrue D.told → Grows (D.flash disk.old) (D.flash disk.new) }
{
    match is_open(disk, CONFIG_GATE) {
        Err(FlashFault) => Err(FlashFault),
        Ok(true) => Ok(true),
        Ok(false) => is_open(disk, ROOT_GATE),
    }
}

/// Formats a blank flash with a layout and a key. There is no record afterwards, and each slot is
/// empty. A power loss meanwhile leaves the flash blank or formatted. If the gate of version 1's
/// configuration page or that of the root is open, nothing changes.
pub fn format<D: Disk>(disk: &mut D, layout: &Layout, key: &Key, frame: Frame) -> Formatted
    requires frame { IsFrame (D.extent disk.old) frame }
    requires layout { IsLayout frame (D.extent disk.old) layout.now }
    requires key { IsKey key.now }
    ensures size { D.extent disk.new ≡ D.extent disk.old }
    ensures counts { FormatCounts result (D.faults disk.old) (D.faults disk.new) }
    ensures not_blank { IsTrue D.told
        → IfNotBlank result (HasOpenGate (D.flash disk.old).reads)
        (IsSame (D.flash disk.old) (D.flash disk.new)) }
    ensures formatted { IsTrue D.told
        → IfFormatted result
        (IsFormatted frame (D.extent disk.old) layout.now key.now
        (D.flash disk.new).reads) }
    ensures settled { IsTrue D.told → IfFormatted result (IsSettled (D.flash disk.new)) }
    ensures any_moment { IsTrue D.told
        → Passes (D.flash disk.old) (D.flash disk.new)
        (IsBlankOrFormatted frame (D.extent disk.old) layout.now key.now
        (D.flash disk.old)) }
    ensures keeps { IsTrue D.told
        → Keeps (OutsideFormat frame layout.now) (D.flash disk.old) (D.flash disk.new) }
    ensures grows { IsTrue D.told → Grows (D.flash disk.old) (D.flash disk.new) }
{
    typed(layout, key);
    match has_open_gate(disk) {
        Err(FlashFault) => return Formatted::FlashFault,
        Ok(true) => return Formatted::NotBlank,
        Ok(false) => {}
    }
    match prepare(disk, layout, frame) {
        Edge::Failed => return Formatted::FlashFault,
        Edge::Done => {}
    }
    match open_config(disk, layout, key, frame) {
        Edge::Failed => Formatted::FlashFault,
        Edge::Done => Formatted::Done,
    }
}
