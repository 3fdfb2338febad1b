//! Writes that a power loss cannot tear: a page has a gate, a byte that is open only while the page
//! is whole.

ghost use Rattle.std.specs.Prelude.{◌≡◌, ◌+◌, ◌≤◌, length, slice_index, IsTrue};
ghost use Rattle.suit_edge.specs.Edge.{IfDone};
ghost use Rattle.suit_edge.specs.Faults.{EdgeCounts};
ghost use Rattle.suit_edge.specs.Flash.{Grows, IsFirmOn, IsSettled, Keeps, Passes};
ghost use Rattle.suit_edge.specs.Gate.{Closes, IsClosing, IsGate, IsGated, IsNewPage, IsOpen, IsOpening, IsShut, page_at};
ghost use Rattle.suit_edge.specs.Ranges.{InSome, Outside, OutsideEach, Within, written};

use crate::{Disk, Edge, Gate, gate_of};

/// The byte of an open gate.
pub const OPEN: u8 = 0xA5;

/// The byte that closes a gate.
pub const CLOSED: u8 = 0;

/// Writes bytes, and syncs everything that is pending.
pub fn write_and_sync<D: Disk>(disk: &mut D, place: u64, bytes: &[u8]) -> Edge
    requires { place + length bytes.now ≤ D.extent disk.old }
    ensures size { D.extent disk.new ≡ D.extent disk.old }
    ensures counts { EdgeCounts result (D.faults disk.old) (D.faults disk.new) }
    ensures written { IsTrue D.told
        → IfDone result
        ((D.flash disk.new).reads ≡ written (D.flash disk.old).reads place bytes.now) }
    ensures settled { IsTrue D.told → IfDone result (IsSettled (D.flash disk.new)) }
    ensures keeps { IsTrue D.told
        → Keeps (Outside place (length bytes.now)) (D.flash disk.old) (D.flash disk.new) }
    ensures grows { IsTrue D.told → Grows (D.flash disk.old) (D.flash disk.new) }
{
    match disk.write_at(place, bytes) {
        Edge::Failed => Edge::Failed,
        Edge::Done => disk.sync(),
    }
}

// Closes the gate if it reads open. A closed gate is not written, since a power loss could turn it
// open over old bytes.
fn close_if_open<D: Disk>(disk: &mut D, gate: u64) -> Edge
    requires { gate + 1 ≤ D.extent disk.old }
    ensures size { D.extent disk.new ≡ D.extent disk.old }
    ensures counts { EdgeCounts result (D.faults disk.old) (D.faults disk.new) }
    ensures closes { IsTrue D.told
        → IfDone result (Closes gate (D.flash disk.old).reads (D.flash disk.new).reads) }
    ensures keeps { IsTrue D.told → Keeps (Outside gate 1) (D.flash disk.old) (D.flash disk.new) }
    ensures any_moment { IsTrue D.told
        → Passes (D.flash disk.old) (D.flash disk.new) (IsClosing gate (D.flash disk.old)) }
    ensures grows { IsTrue D.told → Grows (D.flash disk.old) (D.flash disk.new) }
{
    let mut byte = [0u8; 1];
    match disk.read_at(gate, &mut byte) {
        Edge::Failed => return Edge::Failed,
        Edge::Done => {}
    }
    if byte[0] != OPEN {
        return Edge::Done;
    }
    disk.write_at(gate, &[CLOSED])
}

/// Closes the gate if it reads open, and syncs everything that is pending. A power loss at any
/// moment leaves an image of the start, or one that differs from it only at the gate. If the call
/// fails, the gate may be open or closed.
pub fn close_gate<D: Disk>(disk: &mut D, gate: u64) -> Edge
    requires { gate + 1 ≤ D.extent disk.old }
    ensures size { D.extent disk.new ≡ D.extent disk.old }
    ensures counts { EdgeCounts result (D.faults disk.old) (D.faults disk.new) }
    ensures closes { IsTrue D.told
        → IfDone result (Closes gate (D.flash disk.old).reads (D.flash disk.new).reads) }
    ensures settled { IsTrue D.told → IfDone result (IsSettled (D.flash disk.new)) }
    ensures keeps { IsTrue D.told → Keeps (Outside gate 1) (D.flash disk.old) (D.flash disk.new) }
    ensures any_moment { IsTrue D.told
        → Passes (D.flash disk.old) (D.flash disk.new) (IsClosing gate (D.flash disk.old)) }
    ensures grows { IsTrue D.told → Grows (D.flash disk.old) (D.flash disk.new) }
{
    match close_if_open(disk, gate) {
        Edge::Failed => return Edge::Failed,
        Edge::Done => {}
    }
    disk.sync()
}

// Closes an open gate and syncs. A closed gate is left alone, and nothing is synced.
fn shut_gate<D: Disk>(disk: &mut D, gate: u64, known: Gate) -> Edge
    requires gate { gate + 1 ≤ D.extent disk.old }
    requires known { IsTrue D.told → IsGate known (slice_index (D.flash disk.old).reads gate) }
    requires firm { IsTrue D.told → IsFirmOn (Within gate 1) (D.flash disk.old) }
    ensures size { D.extent disk.new ≡ D.extent disk.old }
    ensures counts { EdgeCounts result (D.faults disk.old) (D.faults disk.new) }
    ensures closes { IsTrue D.told
        → IfDone result (Closes gate (D.flash disk.old).reads (D.flash disk.new).reads) }
    ensures shut { IsTrue D.told → IfDone result (IsShut gate (D.flash disk.new)) }
    ensures keeps { IsTrue D.told → Keeps (Outside gate 1) (D.flash disk.old) (D.flash disk.new) }
    ensures any_moment { IsTrue D.told
        → Passes (D.flash disk.old) (D.flash disk.new) (IsClosing gate (D.flash disk.old)) }
    ensures grows { IsTrue D.told → Grows (D.flash disk.old) (D.flash disk.new) }
{
    match known {
        Gate::Closed => return Edge::Done,
        Gate::Open => {}
    }
    write_and_sync(disk, gate, &[CLOSED])
}

/// Writes the body of a page and syncs it, then opens the gate. If no power loss at the start could
/// leave the gate open, then at any moment an open page is the new one; after a failure the page is
/// the new one, or closed.
pub fn open_written<D: Disk>(disk: &mut D, gate: u64, place: u64, body: &[u8]) -> Edge
    requires gate { gate + 1 ≤ D.extent disk.old }
    requires body { place + length body.now ≤ D.extent disk.old }
    requires apart { Outside place (length body.now) gate }
    ensures size { D.extent disk.new ≡ D.extent disk.old }
    ensures counts { EdgeCounts result (D.faults disk.old) (D.faults disk.new) }
    ensures opened { IsTrue D.told → IfDone result (IsOpen (D.flash disk.new).reads gate) }
    ensures page { IsTrue D.told
        → IfDone result
        (IsNewPage gate place body.now (D.flash disk.old).reads (D.flash disk.new).reads) }
    ensures settled { IsTrue D.told → IfDone result (IsSettled (D.flash disk.new)) }
    ensures keeps { IsTrue D.told
        → Keeps (OutsideEach (page_at gate place (length body.now))) (D.flash disk.old)
        (D.flash disk.new) }
    ensures any_moment { IsTrue D.told
        → Passes (D.flash disk.old) (D.flash disk.new)
        (IsOpening gate place body.now (D.flash disk.old)) }
    ensures grows { IsTrue D.told → Grows (D.flash disk.old) (D.flash disk.new) }
{
    match write_and_sync(disk, place, body) {
        Edge::Failed => return Edge::Failed,
        Edge::Done => {}
    }
    write_and_sync(disk, gate, &[OPEN])
}

/// Writes a page whose gate is known to be open or closed. The gate is kept closed meanwhile, so a
/// power loss at any moment leaves the old page, the new one, or none. The page must be durable
/// before the call. If the call fails, the page is the old one, the new one, or closed.
pub fn write_known<D: Disk>(disk: &mut D, gate: u64, known: Gate, place: u64, body: &[u8]) -> Edge
    requires gate { gate + 1 ≤ D.extent disk.old }
    requires known { IsTrue D.told → IsGate known (slice_index (D.flash disk.old).reads gate) }
    requires body { place + length body.now ≤ D.extent disk.old }
    requires apart { Outside place (length body.now) gate }
    requires firm { IsTrue D.told
        → IsFirmOn (InSome (page_at gate place (length body.now))) (D.flash disk.old) }
    ensures size { D.extent disk.new ≡ D.extent disk.old }
    ensures counts { EdgeCounts result (D.faults disk.old) (D.faults disk.new) }
    ensures opened { IsTrue D.told → IfDone result (IsOpen (D.flash disk.new).reads gate) }
    ensures page { IsTrue D.told
        → IfDone result
        (IsNewPage gate place body.now (D.flash disk.old).reads (D.flash disk.new).reads) }
    ensures settled { IsTrue D.told → IfDone result (IsSettled (D.flash disk.new)) }
    ensures keeps { IsTrue D.told
        → Keeps (OutsideEach (page_at gate place (length body.now))) (D.flash disk.old)
        (D.flash disk.new) }
    ensures any_moment { IsTrue D.told
        → Passes (D.flash disk.old) (D.flash disk.new)
        (IsGated gate place body.now (D.flash disk.old)) }
    ensures grows { IsTrue D.told → Grows (D.flash disk.old) (D.flash disk.new) }
{
    match shut_gate(disk, gate, known) {
        Edge::Failed => return Edge::Failed,
        Edge::Done => {}
    }
    open_written(disk, gate, place, body)
}

/// Reads the gate of a page, then writes the page. The gate is kept closed meanwhile, so a power
/// loss at any moment leaves the old page, the new one, or none. The page must be durable before
/// the call. If the call fails, the page is the old one, the new one, or closed.
pub fn write_gated<D: Disk>(disk: &mut D, gate: u64, place: u64, body: &[u8]) -> Edge
    requires gate { gate + 1 ≤ D.extent disk.old }
    requires body { place + length body.now ≤ D.extent disk.old }
    requires apart { Outside place (length body.now) gate }
    requires firm { IsTrue D.told
        → IsFirmOn (InSome (page_at gate place (length body.now))) (D.flash disk.old) }
    ensures size { D.extent disk.new ≡ D.extent disk.old }
    ensures counts { EdgeCounts result (D.faults disk.old) (D.faults disk.new) }
    ensures opened { IsTrue D.told → IfDone result (IsOpen (D.flash disk.new).reads gate) }
    ensures page { IsTrue D.told
        → IfDone result
        (IsNewPage gate place body.now (D.flash disk.old).reads (D.flash disk.new).reads) }
    ensures settled { IsTrue D.told → IfDone result (IsSettled (D.flash disk.new)) }
    ensures keeps { IsTrue D.told
        → Keeps (OutsideEach (page_at gate place (length body.now))) (D.flash disk.old)
        (D.flash disk.new) }
    ensures any_moment { IsTrue D.told
        → Passes (D.flash disk.old) (D.flash disk.new)
        (IsGated gate place body.now (D.flash disk.old)) }
    ensures grows { IsTrue D.told → Grows (D.flash disk.old) (D.flash disk.new) }
{
    let mut mark = [0u8; 1];
    match disk.read_at(gate, &mut mark) {
        Edge::Failed => return Edge::Failed,
        Edge::Done => {}
    }
    write_known(disk, gate, gate_of(mark[0]), place, body)
}
