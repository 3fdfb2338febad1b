//! Reading the root and the configuration page.

ghost use Rattle.std.specs.Prelude.{◌≡◌, ◌≤◌, ◌↔◌, ◌+◌, IfOk, IsTrue, Some, length, slice_range};
ghost use Rattle.suit_edge.specs.Edge.{IfDone};
ghost use Rattle.suit_edge.specs.Faults.{EdgeCounts};
ghost use Rattle.suit_edge.specs.Flash.{Grows, IsSame};
ghost use Rattle.flash_layout.specs.Configs.{FrameOf, LoadCounts, LoadsAllowed, LoadsExactly};
ghost use Rattle.flash_layout.specs.FaultCounts.{ResultCounts};
ghost use Rattle.flash_layout.specs.Frames.{IsFrame, head_of, page_bytes};
ghost use Rattle.flash_layout.specs.Roots.{frame_told};

use crate::frame::{HEAD_SIZE, MOST_BYTES, ROOT_BYTES, ROOT_GATE, is_base, page_bytes};
use crate::page_reading::decode_page;
use crate::root::frame_by;
use crate::{FlashFault, Frame, Key, Layout};
use std::alloc::{AllocError, Global};
use suit_edge::{Disk, Edge, OPEN};

/// What the root and the configuration page say.
#[derive(Drop)]
pub enum Loaded {
    /// A layout and a key that are allowed on this flash, and its frame.
    Config(Layout, Key, Frame),
    /// No gate is open, or the flash has fewer than 49,152 bytes.
    Blank,
    /// A gate is open, but there is no layout and key that are allowed.
    BadConfig,
    /// A call of the flash failed.
    FlashFault,
    /// Memory ran out for the layout.
    NoMemory,
}

// Reads which frame the root gives, if any.
fn read_root<D: Disk>(disk: &mut D) -> Result<Option<Frame>, FlashFault>
    requires { HEAD_SIZE ≤ D.extent disk.old }
    ensures size { D.extent disk.new ≡ D.extent disk.old }
    ensures counts { ResultCounts result (D.faults disk.old) (D.faults disk.new) }
    ensures told { IsTrue D.told
        → IfOk result (λ frame. frame ≡ frame_told (D.flash disk.old).reads) }
    ensures same { IsTrue D.told → IsSame (D.flash disk.old) (D.flash disk.new) }
    ensures grows { IsTrue D.told → Grows (D.flash disk.old) (D.flash disk.new) }
{
    let mut root = [0u8; ROOT_BYTES];
    match disk.read_at(ROOT_GATE, &mut root) {
        Edge::Failed => Err(FlashFault),
        Edge::Done => Ok(frame_by(&root)),
    }
}

// Whether the frame is allowed on a flash of this size.
fn is_frame(size: u64, frame: Frame) -> bool
    ensures { IsTrue result ↔ IsFrame size frame }
{
    if frame.version == 2 {
        return is_base(size, frame.base);
    }
    if frame.version != 1 {
        return false;
    }
    frame.base == 0 && HEAD_SIZE <= size
}

// Reads the bytes that count of a frame's configuration page.
fn read_page_bytes<D: Disk>(disk: &mut D, frame: Frame, page: &mut [u8]) -> Edge
    requires frame { IsFrame (D.extent disk.old) frame }
    requires long { length page.old ≡ page_bytes frame }
    ensures size { D.extent disk.new ≡ D.extent disk.old }
    ensures counts { EdgeCounts result (D.faults disk.old) (D.faults disk.new) }
    ensures read { IsTrue D.told
        → IfDone result
        (page.new
        ≡
        slice_range (D.flash disk.old).reads frame.base (frame.base + page_bytes frame)) }
    ensures same { IsTrue D.told → IsSame (D.flash disk.old) (D.flash disk.new) }
    ensures grows { IsTrue D.told → Grows (D.flash disk.old) (D.flash disk.new) }
{
    match disk.read_at(frame.base, page) {
        Edge::Failed => Edge::Failed,
        Edge::Done => Edge::Done,
    }
}

// Reads the layout and the key from a frame's configuration page.
fn load_page<D: Disk>(alloc: Global, disk: &mut D, frame: Frame) -> Loaded
    requires { IsFrame (D.extent disk.old) frame }
    ensures size { D.extent disk.new ≡ D.extent disk.old }
    ensures counts { LoadCounts result (D.faults disk.old) (D.faults disk.new) }
    ensures allowed { LoadsAllowed (D.extent disk.old) result }
    ensures exact { IsTrue D.told → frame_told (D.flash disk.old).reads ≡ Some frame
        → LoadsExactly (D.extent disk.old) (D.flash disk.old).reads result }
    ensures same { IsTrue D.told → IsSame (D.flash disk.old) (D.flash disk.new) }
    ensures grows { IsTrue D.told → Grows (D.flash disk.old) (D.flash disk.new) }
{
    let mut room = [0u8; MOST_BYTES];
    let page = &mut room[..page_bytes(frame)];
    match read_page_bytes(disk, frame, page) {
        Edge::Failed => return Loaded::FlashFault,
        Edge::Done => {}
    }
    if frame.version == 1 && page[0] != OPEN {
        return Loaded::Blank;
    }
    let size = disk.size();
    match decode_page(alloc, frame, size, page) {
        Ok(Some((layout, key))) => Loaded::Config(layout, key, frame),
        Ok(None) => Loaded::BadConfig,
        Err(AllocError) => Loaded::NoMemory,
    }
}

/// Reads the root and the configuration page. Changes nothing, whatever the answer.
pub fn load_config<D: Disk>(alloc: Global, disk: &mut D) -> Loaded
    ensures size { D.extent disk.new ≡ D.extent disk.old }
    ensures counts { LoadCounts result (D.faults disk.old) (D.faults disk.new) }
    ensures allowed { LoadsAllowed (D.extent disk.old) result }
    ensures exact { IsTrue D.told
        → LoadsExactly (D.extent disk.old) (D.flash disk.old).reads result }
    ensures same { IsTrue D.told → IsSame (D.flash disk.old) (D.flash disk.new) }
    ensures grows { IsTrue D.told → Grows (D.flash disk.old) (D.flash disk.new) }
{
    let size = disk.size();
    if size < HEAD_SIZE {
        return Loaded::Blank;
    }
    let frame = match read_root(disk) {
        Err(FlashFault) => return Loaded::FlashFault,
        Ok(None) => return Loaded::BadConfig,
        Ok(Some(frame)) => frame,
    };
    if !is_frame(size, frame) {
        return Loaded::BadConfig;
    }
    load_page(alloc, disk, frame)
}

/// Reads which frame the flash has, if any. Allocates nothing, and changes nothing.
pub fn load_frame<D: Disk>(disk: &mut D) -> Result<Option<Frame>, FlashFault>
    ensures size { D.extent disk.new ≡ D.extent disk.old }
    ensures counts { ResultCounts result (D.faults disk.old) (D.faults disk.new) }
    ensures exact { IsTrue D.told
        → IfOk result (FrameOf (D.extent disk.old) (D.flash disk.old).reads) }
    ensures same { IsTrue D.told → IsSame (D.flash disk.old) (D.flash disk.new) }
    ensures grows { IsTrue D.told → Grows (D.flash disk.old) (D.flash disk.new) }
{
    let size = disk.size();
    if size < HEAD_SIZE {
        return Ok(None);
    }
    let frame = match read_root(disk) {
        Err(FlashFault) => return Err(FlashFault),
        Ok(None) => return Ok(None),
        Ok(Some(frame)) => frame,
    };
    if !is_frame(size, frame) {
        return Ok(None);
    }
    Ok(Some(frame))
}
