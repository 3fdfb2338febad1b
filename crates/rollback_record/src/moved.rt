//! Writes what belongs at the base of a flash that is migrated.

ghost use Rattle.std.specs.Prelude.{◌≡◌, ◌<◌, ◌≤◌, IfOk, IsTrue, length, slice_index};
ghost use Rattle.suit_edge.specs.Edge.{IfDone};
ghost use Rattle.suit_edge.specs.Faults.{EdgeCounts};
ghost use Rattle.suit_edge.specs.Flash.{Grows, IsSame, Keeps};
ghost use Rattle.suit_edge.specs.Ranges.{Outside};
ghost use Rattle.flash_layout.specs.Frames.{IsFrame, bank_size, head_of, record_place};
ghost use Rattle.flash_layout.specs.Layouts.{IsLayout};
ghost use Rattle.rollback_record.specs.Moved.{HasEnvelope, HasFirstPage, HasPage, HasRecordPage, HasRecords, HasRoom, IsFilled, IsInBank, IsReadFrom, OutsideBank, OutsideFirstPage, OutsideFrame, OutsidePage, OutsideRecords, StopCounts};

use crate::page::spell;
use flash_layout::{Frame, Key, Layout, Record, bank, close_work, record_page, write_page};
use std::alloc::Global;
use suit_edge::{CLOSED, Disk, Edge};

/// Why reading the flash stopped.
#[derive(Clone, Copy)]
pub(crate) enum Stop {
    FlashFault,
    NoMemory,
}

/// What is installed: the record, with bank 0, and the envelope in its bank.
#[derive(Drop)]
pub(crate) struct Installed {
    held: Record,
    envelope: Vec<u8>,
}

/// Reads the envelope in the bank of a record.
pub(crate) fn read_installed<D: Disk>(
    alloc: Global,
    disk: &mut D,
    frame: Frame,
    held: Record,
) -> Result<Installed, Stop>
    requires frame { IsFrame (D.extent disk.old) frame }
    requires bank { held.bank < 2 }
    requires size { held.length ≤ bank_size frame }
    ensures size { D.extent disk.new ≡ D.extent disk.old }
    ensures counts { StopCounts result (D.faults disk.old) (D.faults disk.new) }
    ensures room { IfOk result (λ i. length i.envelope.items ≤ bank_size frame) }
    ensures read { IsTrue D.told
        → IfOk result (IsReadFrom frame (head_of frame (D.flash disk.old).reads) held) }
    ensures same { IsTrue D.told → IsSame (D.flash disk.old) (D.flash disk.new) }
    ensures grows { IsTrue D.told → Grows (D.flash disk.old) (D.flash disk.new) }
{
    let Ok(mut envelope) = vec![in alloc; 0u8; held.length as usize] else {
        return Err(Stop::NoMemory);
    };
    match disk.read_at(bank(frame, held.bank as u64), envelope.as_mut_slice()) {
        Edge::Failed => Err(Stop::FlashFault),
        Edge::Done => Ok(Installed {
            held: Record { bank: 0, ..held },
            envelope,
        }),
    }
}

// Writes the configuration page, with its gate.
fn write_config<D: Disk>(disk: &mut D, layout: &Layout, key: &Key, frame: Frame) -> Edge
    requires frame { IsFrame (D.extent disk.old) frame }
    requires layout { IsLayout frame (D.extent disk.old) layout.now }
    ensures size { D.extent disk.new ≡ D.extent disk.old }
    ensures counts { EdgeCounts result (D.faults disk.old) (D.faults disk.new) }
    ensures page { IsTrue D.told
        → IfDone result (HasPage frame layout.now key.now (D.flash disk.new).reads) }
    ensures keeps { IsTrue D.told
        → Keeps (OutsidePage frame) (D.flash disk.old) (D.flash disk.new) }
    ensures grows { IsTrue D.told → Grows (D.flash disk.old) (D.flash disk.new) }
{
    let page = write_page(layout, key, frame);
    match disk.write_at(frame.base, page.as_slice()) {
        Edge::Failed => Edge::Failed,
        Edge::Done => Edge::Done,
    }
}

// Closes a record page.
fn close_record<D: Disk>(disk: &mut D, frame: Frame, which: u64) -> Edge
    requires frame { IsFrame (D.extent disk.old) frame }
    requires which { which < 2 }
    ensures size { D.extent disk.new ≡ D.extent disk.old }
    ensures counts { EdgeCounts result (D.faults disk.old) (D.faults disk.new) }
    ensures closed { IsTrue D.told
        → IfDone result
        (slice_index (D.flash disk.new).reads (record_place frame which) ≡ CLOSED) }
    ensures keeps { IsTrue D.told
        → Keeps (Outside (record_place frame which) 1) (D.flash disk.old) (D.flash disk.new) }
    ensures grows { IsTrue D.told → Grows (D.flash disk.old) (D.flash disk.new) }
{
    match disk.write_at(record_page(frame, which), &[CLOSED]) {
        Edge::Failed => Edge::Failed,
        Edge::Done => Edge::Done,
    }
}

// Writes the first record page, with its gate.
fn put_record<D: Disk>(disk: &mut D, frame: Frame, held: &Record) -> Edge
    requires { IsFrame (D.extent disk.old) frame }
    ensures size { D.extent disk.new ≡ D.extent disk.old }
    ensures counts { EdgeCounts result (D.faults disk.old) (D.faults disk.new) }
    ensures page { IsTrue D.told
        → IfDone result (HasRecordPage frame held.now (D.flash disk.new).reads) }
    ensures keeps { IsTrue D.told
        → Keeps (OutsideFirstPage frame) (D.flash disk.old) (D.flash disk.new) }
    ensures grows { IsTrue D.told → Grows (D.flash disk.old) (D.flash disk.new) }
{
    let page = spell(frame, held);
    match disk.write_at(record_page(frame, 0), page.as_slice()) {
        Edge::Failed => Edge::Failed,
        Edge::Done => Edge::Done,
    }
}

// Writes the page of the record, or closes the page if there is no record.
fn write_record<D: Disk>(disk: &mut D, frame: Frame, installed: &Option<Installed>) -> Edge
    requires { IsFrame (D.extent disk.old) frame }
    ensures size { D.extent disk.new ≡ D.extent disk.old }
    ensures counts { EdgeCounts result (D.faults disk.old) (D.faults disk.new) }
    ensures page { IsTrue D.told
        → IfDone result (HasFirstPage frame installed.now (D.flash disk.new).reads) }
    ensures keeps { IsTrue D.told
        → Keeps (OutsideFirstPage frame) (D.flash disk.old) (D.flash disk.new) }
    ensures grows { IsTrue D.told → Grows (D.flash disk.old) (D.flash disk.new) }
{
    match installed {
        None => close_record(disk, frame, 0),
        Some(installed) => put_record(disk, frame, &installed.held),
    }
}

// Writes the page of the record, and closes the other one.
fn write_records<D: Disk>(disk: &mut D, frame: Frame, installed: &Option<Installed>) -> Edge
    requires { IsFrame (D.extent disk.old) frame }
    ensures size { D.extent disk.new ≡ D.extent disk.old }
    ensures counts { EdgeCounts result (D.faults disk.old) (D.faults disk.new) }
    ensures pages { IsTrue D.told
        → IfDone result (HasRecords frame installed.now (D.flash disk.new).reads) }
    ensures keeps { IsTrue D.told
        → Keeps (OutsideRecords frame) (D.flash disk.old) (D.flash disk.new) }
    ensures grows { IsTrue D.told → Grows (D.flash disk.old) (D.flash disk.new) }
{
    match write_record(disk, frame, installed) {
        Edge::Failed => return Edge::Failed,
        Edge::Done => {}
    }
    match close_record(disk, frame, 1) {
        Edge::Failed => Edge::Failed,
        Edge::Done => Edge::Done,
    }
}

// Writes an envelope into the first bank.
fn put_envelope<D: Disk>(disk: &mut D, frame: Frame, envelope: &[u8]) -> Edge
    requires frame { IsFrame (D.extent disk.old) frame }
    requires room { length envelope.now ≤ bank_size frame }
    ensures size { D.extent disk.new ≡ D.extent disk.old }
    ensures counts { EdgeCounts result (D.faults disk.old) (D.faults disk.new) }
    ensures envelope { IsTrue D.told
        → IfDone result (IsInBank frame envelope.now (D.flash disk.new).reads) }
    ensures keeps { IsTrue D.told
        → Keeps (OutsideBank frame) (D.flash disk.old) (D.flash disk.new) }
    ensures grows { IsTrue D.told → Grows (D.flash disk.old) (D.flash disk.new) }
{
    match disk.write_at(bank(frame, 0), envelope) {
        Edge::Failed => Edge::Failed,
        Edge::Done => Edge::Done,
    }
}

// Writes the envelope, if there is one.
fn write_envelope<D: Disk>(disk: &mut D, frame: Frame, installed: &Option<Installed>) -> Edge
    requires frame { IsFrame (D.extent disk.old) frame }
    requires room { HasRoom frame installed.now }
    ensures size { D.extent disk.new ≡ D.extent disk.old }
    ensures counts { EdgeCounts result (D.faults disk.old) (D.faults disk.new) }
    ensures envelope { IsTrue D.told
        → IfDone result (HasEnvelope frame installed.now (D.flash disk.new).reads) }
    ensures keeps { IsTrue D.told
        → Keeps (OutsideBank frame) (D.flash disk.old) (D.flash disk.new) }
    ensures grows { IsTrue D.told → Grows (D.flash disk.old) (D.flash disk.new) }
{
    match installed {
        None => Edge::Done,
        Some(installed) => put_envelope(disk, frame, installed.envelope.as_slice()),
    }
}

/// Writes all that belongs at the base, without a sync: the configuration, the record with bank 0, the envelope, and
/// closed gates for the work area.
pub(crate) fn fill<D: Disk>(
    disk: &mut D,
    layout: &Layout,
    key: &Key,
    frame: Frame,
    installed: &Option<Installed>,
) -> Edge
    requires frame { IsFrame (D.extent disk.old) frame }
    requires version { frame.version ≡ 2 }
    requires layout { IsLayout frame (D.extent disk.old) layout.now }
    requires room { HasRoom frame installed.now }
    ensures size { D.extent disk.new ≡ D.extent disk.old }
    ensures counts { EdgeCounts result (D.faults disk.old) (D.faults disk.new) }
    ensures filled { IsTrue D.told
        → IfDone result
        (IsFilled frame layout.now key.now installed.now (D.flash disk.new).reads) }
    ensures keeps { IsTrue D.told
        → Keeps (OutsideFrame frame) (D.flash disk.old) (D.flash disk.new) }
    ensures grows { IsTrue D.told → Grows (D.flash disk.old) (D.flash disk.new) }
{
    match write_config(disk, layout, key, frame) {
        Edge::Failed => return Edge::Failed,
        Edge::Done => {}
    }
    match write_records(disk, frame, installed) {
        Edge::Failed => return Edge::Failed,
        Edge::Done => {}
    }
    match write_envelope(disk, frame, installed) {
        Edge::Failed => return Edge::Failed,
        Edge::Done => {}
    }
    match close_work(disk, frame) {
        Edge::Failed => Edge::Failed,
        Edge::Done => Edge::Done,
    }
}
