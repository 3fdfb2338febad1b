//! A small client of a disk: it writes bytes in pieces, then a page that vouches for them.

ghost use Rattle.std.specs.Prelude.{◌≡◌, ◌+◌, ◌≤◌, length, IsTrue};
ghost use Rattle.suit_edge.specs.Client.{IsVouched, bytes_at};
ghost use Rattle.suit_edge.specs.Edge.{IfDone};
ghost use Rattle.suit_edge.specs.Faults.{EdgeCounts};
ghost use Rattle.suit_edge.specs.Flash.{IsFirmOn, IsSettled, Keeps, Passes};
ghost use Rattle.suit_edge.specs.Gate.{IsNewPage, IsOpen, page_at};
ghost use Rattle.suit_edge.specs.Ranges.{AreClear, InSome, Outside, written};

use crate::{Disk, Edge, write_gated};

/// How many bytes are written at once.
const PIECE: usize = 16;

// Writes the bytes in pieces and syncs them.
fn keep_pieces<D: Disk>(disk: &mut D, place: u64, bytes: &[u8]) -> Edge
    requires { place + length bytes.now ≤ D.extent disk.old }
    ensures size { D.extent disk.new ≡ D.extent disk.old }
    ensures counts { EdgeCounts result (D.faults disk.old) (D.faults disk.new) }
    ensures written { IsTrue D.told
        → IfDone result
        ((D.flash disk.new).reads ≡ written (D.flash disk.old).reads place bytes.now) }
    ensures settled { IsTrue D.told → IfDone result (IsSettled (D.flash disk.new)) }
    ensures keeps { IsTrue D.told
        → Keeps (Outside place (length bytes.now)) (D.flash disk.old) (D.flash disk.new) }
{
    // The size fits a `u64`, and so does each place. The proof learns it here.
    let _size = disk.size();
    let mut done: usize = 0;
    while done < bytes.len() {
        let end = done + (bytes.len() - done).min(PIECE);
        match disk.write_at(place + done as u64, &bytes[done..end]) {
            Edge::Done => {}
            Edge::Failed => return Edge::Failed,
        }
        done = end;
    }
    disk.sync()
}

/// Writes the bytes in pieces, then the page that vouches for them. At any moment an open page is
/// either the old one, or the new one over the new bytes; once the call is done it is the new one.
/// If the call fails, the page may be either of them, or closed.
pub fn vouch<D: Disk>(
    disk: &mut D,
    place: u64,
    bytes: &[u8],
    gate: u64,
    page: u64,
    body: &[u8],
) -> Edge
    requires bytes { place + length bytes.now ≤ D.extent disk.old }
    requires gate { gate + 1 ≤ D.extent disk.old }
    requires body { page + length body.now ≤ D.extent disk.old }
    requires apart { Outside page (length body.now) gate }
    requires clear { AreClear (page_at gate page (length body.now))
        (bytes_at place (length bytes.now)) }
    requires firm { IsTrue D.told
        → IsFirmOn (InSome (page_at gate page (length body.now))) (D.flash disk.old) }
    ensures size { D.extent disk.new ≡ D.extent disk.old }
    ensures counts { EdgeCounts result (D.faults disk.old) (D.faults disk.new) }
    ensures opened { IsTrue D.told → IfDone result (IsOpen (D.flash disk.new).reads gate) }
    ensures page { IsTrue D.told
        → IfDone result
        (IsNewPage gate page body.now (written (D.flash disk.old).reads place bytes.now)
        (D.flash disk.new).reads) }
    ensures settled { IsTrue D.told → IfDone result (IsSettled (D.flash disk.new)) }
    ensures any_moment { IsTrue D.told
        → Passes (D.flash disk.old) (D.flash disk.new)
        (IsVouched (bytes_at place (length bytes.now)) gate page body.now
        (written (D.flash disk.old).reads place bytes.now) (D.flash disk.old)) }
{
    match keep_pieces(disk, place, bytes) {
        Edge::Done => {}
        Edge::Failed => return Edge::Failed,
    }
    write_gated(disk, gate, page, body)
}
