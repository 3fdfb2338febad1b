//! Reads the record.

ghost use Rattle.flash_layout.specs.declared.key.Key.{Key};
ghost use Rattle.flash_layout.specs.Configs.{ConfigOf, Configured};
ghost use Rattle.flash_layout.specs.Frames.{IsFrame, config_page_of, head_of, head_size, page_bytes};
ghost use Rattle.rollback_record.specs.Committing.{HasPages};
ghost use Rattle.rollback_record.specs.HeadRecord.{HaveRead, IsLoadable, RecordOf, ResultCounts, beside_higher, higher};
ghost use Rattle.rollback_record.specs.RecordPage.{CountSlots, record_length};
ghost use Rattle.std.specs.Prelude.{◌≡◌, ◌<◌, ◌≤◌, ℕ, IfOk, IfSome, IsTrue, List, length};
ghost use Rattle.suit_edge.specs.Edge.{IfDone};
ghost use Rattle.suit_edge.specs.Faults.{EdgeCounts};
ghost use Rattle.suit_edge.specs.Flash.{Grows, IsSame};

use crate::page::{RECORD_ROOM, decode, record_length};
use crate::slot_counts::{counts_in, counts_on};
use crate::{RecordPages, Spare};
use flash_layout::{
    FlashFault, Frame, Layout, MOST_BYTES, MOST_ENTRIES, Record, head_size, page_bytes, record_page,
};
use suit_edge::{Disk, Edge, gate_of};

// Reads the configuration page.
fn read_config<D: Disk>(disk: &mut D, frame: Frame, config: &mut [u8]) -> Edge
    requires frame { IsFrame (D.extent disk.old) frame }
    requires long { length config.old ≡ page_bytes frame }
    ensures size { D.extent disk.new ≡ D.extent disk.old }
    ensures counts { EdgeCounts result (D.faults disk.old) (D.faults disk.new) }
    ensures bytes { IsTrue D.told
        → IfDone result
        (config.new ≡ config_page_of frame (head_of frame (D.flash disk.old).reads)) }
    ensures same { IsTrue D.told → IsSame (D.flash disk.old) (D.flash disk.new) }
    ensures grows { IsTrue D.told → Grows (D.flash disk.old) (D.flash disk.new) }
{
    match disk.read_at(frame.base, config) {
        Edge::Failed => Edge::Failed,
        Edge::Done => Edge::Done,
    }
}

// Reads from the configuration page how many slots each component has.
fn read_counts<D: Disk>(disk: &mut D, frame: Frame) -> Result<[u8; MOST_ENTRIES], FlashFault>
    requires { IsFrame (D.extent disk.old) frame }
    ensures size { D.extent disk.new ≡ D.extent disk.old }
    ensures counts { ResultCounts result (D.faults disk.old) (D.faults disk.new) }
    ensures slots { IsTrue D.told
        → IfOk result
        (CountSlots frame (config_page_of frame (head_of frame (D.flash disk.old).reads))) }
    ensures same { IsTrue D.told → IsSame (D.flash disk.old) (D.flash disk.new) }
    ensures grows { IsTrue D.told → Grows (D.flash disk.old) (D.flash disk.new) }
{
    let mut room = [0u8; MOST_BYTES];
    let config = &mut room[..page_bytes(frame)];
    match read_config(disk, frame, config) {
        Edge::Failed => Err(FlashFault),
        Edge::Done => Ok(counts_on(frame, config)),
    }
}

// Reads both record pages.
fn read_pages<D: Disk>(disk: &mut D, frame: Frame, first: &mut [u8], second: &mut [u8]) -> Edge
    requires frame { IsFrame (D.extent disk.old) frame }
    requires first { length first.old ≡ record_length frame }
    requires second { length second.old ≡ record_length frame }
    ensures size { D.extent disk.new ≡ D.extent disk.old }
    ensures counts { EdgeCounts result (D.faults disk.old) (D.faults disk.new) }
    ensures bytes { IsTrue D.told
        → IfDone result
        (HaveRead frame (head_of frame (D.flash disk.old).reads) first.new second.new) }
    ensures same { IsTrue D.told → IsSame (D.flash disk.old) (D.flash disk.new) }
    ensures grows { IsTrue D.told → Grows (D.flash disk.old) (D.flash disk.new) }
{
    match disk.read_at(record_page(frame, 0), first) {
        Edge::Failed => return Edge::Failed,
        Edge::Done => {}
    }
    match disk.read_at(record_page(frame, 1), second) {
        Edge::Failed => Edge::Failed,
        Edge::Done => Edge::Done,
    }
}

// The record of two pages: if both are valid, that of the higher generation, and if these are equal, that of the first
// page. Also returns which page does not hold it.
fn higher_of(first: Option<Record>, second: Option<Record>) -> (Option<Record>, u64)
    ensures record { result.0 ≡ higher first second }
    ensures spare { result.1 ≡ beside_higher first second }
{
    match (first, second) {
        (None, second) => (second, 0),
        (Some(first), None) => (Some(first), 1),
        (Some(first), Some(second)) => {
            if first.generation < second.generation {
                (Some(second), 0)
            } else {
                (Some(first), 1)
            }
        }
    }
}

// What both pages hold, by the frame and by how many slots each component has.
fn judge_pages(frame: Frame, slots: &[u8; MOST_ENTRIES], first: &[u8], second: &[u8]) -> RecordPages
    requires first { length first.now ≡ record_length frame }
    requires second { length second.now ≡ record_length frame }
    ensures loadable { IfSome result.held (IsLoadable frame) }
    ensures two { result.spare.which < 2 }
    ensures exact { (head : List ℕ) → head_size frame ≤ length head
        → HaveRead frame head first.now second.now
        → CountSlots frame (config_page_of frame head) slots.now
        → HasPages frame head result }
{
    let (held, which) = higher_of(decode(frame, slots, first), decode(frame, slots, second));
    let gate = if which == 0 { first[0] } else { second[0] };
    let spare = Spare {
        which,
        gate: gate_of(gate),
    };
    RecordPages { held, spare }
}

// Reads both record pages, given how many slots each component has.
fn load_beside<D: Disk>(
    disk: &mut D,
    frame: Frame,
    slots: &[u8; MOST_ENTRIES],
) -> Result<RecordPages, FlashFault>
    requires { IsFrame (D.extent disk.old) frame }
    ensures size { D.extent disk.new ≡ D.extent disk.old }
    ensures counts { ResultCounts result (D.faults disk.old) (D.faults disk.new) }
    ensures loadable { IfOk result (λ pages. IfSome pages.held (IsLoadable frame)) }
    ensures two { IfOk result (λ pages. pages.spare.which < 2) }
    ensures exact { IsTrue D.told
        → CountSlots frame (config_page_of frame (head_of frame (D.flash disk.old).reads))
        slots.now
        → IfOk result (HasPages frame (head_of frame (D.flash disk.old).reads)) }
    ensures same { IsTrue D.told → IsSame (D.flash disk.old) (D.flash disk.new) }
    ensures grows { IsTrue D.told → Grows (D.flash disk.old) (D.flash disk.new) }
{
    let mut one = [0u8; RECORD_ROOM];
    let mut other = [0u8; RECORD_ROOM];
    let first = &mut one[..record_length(frame)];
    let second = &mut other[..record_length(frame)];
    match read_pages(disk, frame, first, second) {
        Edge::Failed => return Err(FlashFault),
        Edge::Done => {}
    }
    Ok(judge_pages(frame, slots, first, second))
}

/// Reads the record of a flash with this frame. Returns `None` if no record page is valid, or if the flash has no room
/// for the head. Never changes the flash.
pub fn load_record<D: Disk>(disk: &mut D, frame: Frame) -> Result<Option<Record>, FlashFault>
    requires { head_size frame ≤ D.extent disk.old → IsFrame (D.extent disk.old) frame }
    ensures size { D.extent disk.new ≡ D.extent disk.old }
    ensures counts { ResultCounts result (D.faults disk.old) (D.faults disk.new) }
    ensures loadable { IfOk result (λ o. IfSome o (IsLoadable frame)) }
    ensures exact { IsTrue D.told
        → IfOk result (RecordOf frame (head_of frame (D.flash disk.old).reads)) }
    ensures same { IsTrue D.told → IsSame (D.flash disk.old) (D.flash disk.new) }
    ensures grows { IsTrue D.told → Grows (D.flash disk.old) (D.flash disk.new) }
{
    let size = disk.size();
    let least = head_size(frame);
    if size < least {
        return Ok(None);
    }
    let slots = read_counts(disk, frame)?;
    let pages = load_beside(disk, frame, &slots)?;
    Ok(pages.held)
}

/// Reads the record of a flash with this frame and layout, if a record page is valid, and finds the page that the next
/// record is written to. Does not read the configuration page, which gave frame and layout, again. Never changes the
/// flash.
pub fn load_pages_by<D: Disk>(
    disk: &mut D,
    frame: Frame,
    layout: &Layout,
) -> Result<RecordPages, FlashFault>
    requires frame { IsFrame (D.extent disk.old) frame }
    requires config { IsTrue D.told → (key : Key)
        × ConfigOf (D.extent disk.old) (D.flash disk.old).reads
        (Configured layout.now key frame) }
    ensures size { D.extent disk.new ≡ D.extent disk.old }
    ensures counts { ResultCounts result (D.faults disk.old) (D.faults disk.new) }
    ensures loadable { IfOk result (λ pages. IfSome pages.held (IsLoadable frame)) }
    ensures two { IfOk result (λ pages. pages.spare.which < 2) }
    ensures exact { IsTrue D.told
        → IfOk result (HasPages frame (head_of frame (D.flash disk.old).reads)) }
    ensures same { IsTrue D.told → IsSame (D.flash disk.old) (D.flash disk.new) }
    ensures grows { IsTrue D.told → Grows (D.flash disk.old) (D.flash disk.new) }
{
    let slots = counts_in(layout);
    load_beside(disk, frame, &slots)
}

/// Reads the record of a flash with this frame and layout. Returns `None` if no record page is valid. Does not read the
/// configuration page, which gave frame and layout, again. Never changes the flash.
pub fn load_record_by<D: Disk>(
    disk: &mut D,
    frame: Frame,
    layout: &Layout,
) -> Result<Option<Record>, FlashFault>
    requires frame { IsFrame (D.extent disk.old) frame }
    requires config { IsTrue D.told → (key : Key)
        × ConfigOf (D.extent disk.old) (D.flash disk.old).reads
        (Configured layout.now key frame) }
    ensures size { D.extent disk.new ≡ D.extent disk.old }
    ensures counts { ResultCounts result (D.faults disk.old) (D.faults disk.new) }
    ensures loadable { IfOk result (λ o. IfSome o (IsLoadable frame)) }
    ensures exact { IsTrue D.told
        → IfOk result (RecordOf frame (head_of frame (D.flash disk.old).reads)) }
    ensures same { IsTrue D.told → IsSame (D.flash disk.old) (D.flash disk.new) }
    ensures grows { IsTrue D.told → Grows (D.flash disk.old) (D.flash disk.new) }
{
    let pages = load_pages_by(disk, frame, layout)?;
    Ok(pages.held)
}
