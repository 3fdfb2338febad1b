//! The root, which says where the head of layout version 2 is.

ghost use Rattle.std.specs.Prelude.{◌≡◌, length};
ghost use Rattle.flash_layout.specs.Roots.{frame_by, frame_in, root_bytes, second_frame};

use crate::Frame;
use crate::frame::{ROOT_BYTES, VERSION_1};
use crate::page::{Page, read_number};
use suit_edge::OPEN;

/// The frame of layout version 2 with this base.
pub(crate) fn second_frame(base: u64) -> Frame
    ensures { result ≡ second_frame base }
{
    Frame { version: 2, base }
}

// The frame that an open root gives, if it is one of version 2.
#[tactic(auto, unfolding(crate::specs::Roots::frame_in))]
fn frame_in(root: &[u8; ROOT_BYTES]) -> Option<Frame>
    ensures { result ≡ frame_in root.now }
{
    if root[1] != 2 {
        return None;
    }
    Some(second_frame(read_number(&root[2..10])))
}

/// The frame that a root gives. It is that of version 1 if the gate is closed.
#[tactic(auto, unfolding(crate::specs::Roots::frame_by))]
pub(crate) fn frame_by(root: &[u8; ROOT_BYTES]) -> Option<Frame>
    ensures { result ≡ frame_by root.now }
{
    if root[0] != OPEN {
        return Some(VERSION_1);
    }
    frame_in(root)
}

/// The root that gives this frame of version 2, with its gate open.
pub fn root_page(frame: Frame) -> Page<ROOT_BYTES>
    requires { frame.version ≡ 2 }
    ensures bytes { result ≡ root_bytes frame }
    ensures long { length result ≡ ROOT_BYTES }
{
    let mut page = Page::new();
    page.put(&[OPEN, frame.version]);
    page.put_number(frame.base);
    page
}
