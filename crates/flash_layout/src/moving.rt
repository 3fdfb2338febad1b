//! From layout version 1 to version 2.

ghost use Rattle.std.specs.Prelude.{IfErr, IfOk};
ghost use Rattle.flash_layout.specs.LayoutFaults.{RefusesBase};
ghost use Rattle.flash_layout.specs.Layouts.{IsLayout};
ghost use Rattle.flash_layout.specs.Moving.{IsMoved, described_fault};
ghost use Rattle.flash_layout.specs.Roots.{second_frame};

use crate::first_faults::first_over;
use crate::frame::{VERSION_1, is_base};
use crate::root::second_frame;
use crate::{Frame, Layout};

/// Why a flash of layout version 1 cannot get a base.
#[derive(Clone, Copy, Debug, PartialEq, Eq)]
pub enum BaseFault {
    /// The base is in the first 49,152 bytes, or the head and the work area end after the flash.
    Outside,
    /// This is the first component with a slot that shares a byte with the head or the work area at
    /// the base.
    Overlap(u32),
}

/// The frame of layout version 2 with this base, if a flash of this size has room for it beside the
/// slots of the layout.
pub fn moved(layout: &Layout, size: u64, base: u64) -> Result<Frame, BaseFault>
    requires { IsLayout VERSION_1 size layout.now }
    ensures ok { IfOk result (IsMoved base size layout.now) }
    ensures refused { IfErr result
        (λ fault. RefusesBase (second_frame base) size layout.now (described_fault fault)) }
{
    if !is_base(size, base) {
        return Err(BaseFault::Outside);
    }
    let frame = second_frame(base);
    match first_over(frame, layout.as_slice()) {
        Some(component) => Err(BaseFault::Overlap(component)),
        None => Ok(frame),
    }
}
