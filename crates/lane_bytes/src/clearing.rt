//! Whether new bytes only clear bits of old ones.

ghost use Rattle.std.specs.Prelude.{◌≡◌, ◌↔◌, ◌+◌, ◌≤◌, IsTrue, length};
ghost use Rattle.std.specs.Simd.Lanes.{chunk};
ghost use Rattle.lane_bytes.specs.Bytes.{OnlyClears};

use crate::LANES;
use std::simd::prelude::*;

/// Whether the 32 new bytes from `from` on only clear bits of the old ones.
fn chunk_clears(old: &[u8], new: &[u8], from: usize) -> bool
    requires old_room { from + 32 ≤ length old.now }
    requires new_room { from + 32 ≤ length new.now }
    ensures { IsTrue result ↔ OnlyClears (chunk from 32 old.now) (chunk from 32 new.now) }
{
    let wanted = u8x32::from_slice(&new[from..]);
    (u8x32::from_slice(&old[from..]) & wanted) == wanted
}

/// Whether each bit that is set in the new bytes is set in the old ones. If so, flash can take the
/// new bytes without being erased.
pub fn only_clears(old: &[u8], new: &[u8]) -> bool
    requires { length old.now ≡ length new.now }
    ensures { IsTrue result ↔ OnlyClears old.now new.now }
{
    let whole = old.len() / LANES;
    'chunks: for k in 0..whole {
        if !chunk_clears(old, new, LANES * k) {
            return false;
        }
    }
    'rest: for i in LANES * whole..old.len() {
        if old[i] & new[i] != new[i] {
            return false;
        }
    }
    true
}
